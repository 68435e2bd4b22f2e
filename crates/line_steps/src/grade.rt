//! Grades: which kinds of steps a puzzle asks for.
ghost use Rattle.std.specs.Prelude.{◌≡◌};
ghost use Rattle.line_steps.specs.Grades.{has_reason, least_grade, rank};

use crate::reason::Reason;

/// The grades, each with all kinds of steps of those before it.
#[derive(Clone, Copy, PartialEq, Eq, Debug)]
pub enum Grade {
    /// Rows and columns alone.
    Latin,
    /// One clue or sign at a time, without pencil marks.
    Easy,
    /// With pencil marks, and groups of squares.
    Hard,
}

impl Grade {
    /// Whether the grade has reasons of this one's kind.
    pub fn has(self, reason: Reason) -> bool
        ensures { result ≡ has_reason self reason }
    {
        least_grade(reason).rank() <= self.rank()
    }

    // Its place in the order.
    fn rank(self) -> u8
        ensures { result ≡ rank self }
    {
        match self {
            Grade::Latin => 0,
            Grade::Easy => 1,
            Grade::Hard => 2,
        }
    }
}

// The least grade that has reasons of this one's kind.
fn least_grade(reason: Reason) -> Grade
    ensures { result ≡ least_grade reason }
{
    match reason {
        Reason::Given { .. } | Reason::Peer { .. } | Reason::Place { .. } => Grade::Latin,
        Reason::Bound { .. } | Reason::Stand { .. } | Reason::Sign { .. } => Grade::Easy,
        Reason::Clue { .. } | Reason::Set { .. } => Grade::Hard,
    }
}
