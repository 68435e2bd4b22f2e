//! The beginning of a hint's steps.

ghost use Rattle.std.specs.Prelude.{◌≡◌};
ghost use Rattle.json_replies.specs.HintObjects.{start_word, unmarked_data};
ghost use Rattle.json_replies.specs.Inner.WrittenData.{count_or_null};

/// The beginning of a hint's steps.
#[derive(Clone, Copy)]
pub(crate) enum Start {
    /// The numbers of a board alone.
    Numbers,
    /// Its pencil marks, too; and a square whose marks lack its number, if the hint tells one.
    Marks { unmarked: Option<usize> },
}

impl Start {
    /// Its word.
    pub(crate) fn word(self) -> &'static str
        ensures { result.now ≡ start_word self }
    {
        match self {
            Start::Numbers => "numbers",
            Start::Marks { .. } => "marks",
        }
    }

    /// The square whose marks lack its number, if one is told.
    pub(crate) fn unmarked(self) -> Option<usize>
        ensures { count_or_null result ≡ unmarked_data self }
    {
        match self {
            Start::Numbers => None,
            Start::Marks { unmarked } => unmarked,
        }
    }
}
