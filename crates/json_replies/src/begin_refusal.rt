//! Why a line begins no game.

ghost use Rattle.std.specs.Prelude.{◌≡◌, ◌≤◌, length};
ghost use Rattle.json_replies.specs.BeginRefusals.{begin_refusal_name};

/// Why a line of its own begins no game or, of `spare` and a letter, is not answered, where that isn't for want of memory.
#[derive(Clone, Copy)]
pub(crate) enum BeginRefusal {
    /// There is no session to take the puzzle from.
    NoGame,
    /// A word is no size.
    BadSize,
    /// A word is no letter of a grade that the game has; of `fair`, that fair games of the size have.
    BadLetter,
    /// A word is no seed.
    BadSeed,
    /// No draw gives a game of the grade.
    NoneFound,
    /// There is no such item.
    OffGrid,
    /// The item can't say so much.
    OffRange,
    /// The puzzle has no solution.
    NoSolution,
    /// The puzzle has several solutions.
    SeveralSolutions,
}

impl BeginRefusal {
    /// The word by which the refusal is told.
    pub(crate) fn name(self) -> &'static str
        ensures name { result.now ≡ begin_refusal_name self }
        ensures short { length result.now ≤ 16 }
    {
        match self {
            BeginRefusal::NoGame => "NoGame",
            BeginRefusal::BadSize => "BadSize",
            BeginRefusal::BadLetter => "BadLetter",
            BeginRefusal::BadSeed => "BadSeed",
            BeginRefusal::NoneFound => "NoneFound",
            BeginRefusal::OffGrid => "OffGrid",
            BeginRefusal::OffRange => "OffRange",
            BeginRefusal::NoSolution => "NoSolution",
            BeginRefusal::SeveralSolutions => "SeveralSolutions",
        }
    }
}
