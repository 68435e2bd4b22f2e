//! How a call ends, as a page is told of it.

ghost use Rattle.std.specs.Prelude.{◌≡◌};
ghost use Rattle.web_turn.specs.Turns.{outcome_number};

/// How a call ends.
#[derive(Clone, Copy, PartialEq, Eq)]
pub(crate) enum Outcome {
    /// The line was answered.
    Answered,
    /// The line was `quit`.
    Ended,
    /// The text before is no save of this game.
    Unread,
    /// There was no memory, whatever the text before and the line are.
    OutOfMemory,
    /// The answer has more bytes than there is room for.
    OutOfRoom,
}

impl Outcome {
    /// The outcome's number, which alone may cross to the page.
    pub(crate) fn number(self) -> u64
        ensures { result ≡ outcome_number self }
    {
        match self {
            Outcome::Answered => 0,
            Outcome::Ended => 1,
            Outcome::Unread => 2,
            Outcome::OutOfMemory => 3,
            Outcome::OutOfRoom => 4,
        }
    }
}
