//! The solver's answers: none, one or several solutions.
ghost use Rattle.std.specs.Prelude.{◌≡◌};
ghost use Rattle.trail_solver.specs.Inner.Added.{Adds};

use latin_board::Grid;

/// How many solutions a puzzle has.
#[derive(Clone, Copy, PartialEq, Eq, Debug)]
pub enum Answer {
    /// No grid solves it.
    None,
    /// This grid solves it, and no other does.
    One(Grid),
    /// These two grids differ, and both solve it.
    Several(Grid, Grid),
}

/// The answer with one solution more.
pub(crate) fn added(found: Answer, grid: Grid) -> Answer
    ensures { Adds (λ h. h ≡ grid) found result }
{
    match found {
        Answer::None => Answer::One(grid),
        Answer::One(first) => joined(first, grid),
        Answer::Several(_, _) => found,
    }
}

// Two solutions, which may be one.
fn joined(first: Grid, second: Grid) -> Answer
    ensures { Adds (λ h. h ≡ second) (Answer.One first) result }
{
    if first == second {
        Answer::One(first)
    } else {
        Answer::Several(first, second)
    }
}
