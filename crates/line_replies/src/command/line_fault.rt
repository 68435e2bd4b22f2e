//! Why a line is refused before its command is tried.

ghost use Rattle.std.specs.Prelude.{◌≡◌};
ghost use Rattle.line_replies.specs.LineFault.{line_fault_number, line_fault_name};

use thiserror::Error;

/// Why a line was refused before its command was tried. It comes as a reply alone.
#[derive(Clone, Copy, Debug, PartialEq, Eq, Error)]
#[error("{}", self.name())]
pub enum LineFault {
    /// The line has more than `LINE_BYTES` bytes.
    LongLine,
    /// The line is no command.
    BadCommand,
    /// The command needs a session, and there is none.
    NoGame,
}

impl LineFault {
    /// The fault's number: 1 `LongLine`, 2 `BadCommand`, 3 `NoGame`.
    pub fn number(&self) -> u8
        ensures { result ≡ line_fault_number self.now }
    {
        *self as u8 + 1
    }

    /// The fault's name, as the reply shows it.
    pub fn name(&self) -> &'static str
        ensures { result.now ≡ line_fault_name self.now }
    {
        match self {
            LineFault::LongLine => "LongLine",
            LineFault::BadCommand => "BadCommand",
            LineFault::NoGame => "NoGame",
        }
    }
}
