//! Why a command line gives no game.

ghost use Rattle.std.specs.Prelude.{◌≡◌};
ghost use Rattle.puzzle_cli.specs.CommandFault.{command_fault_number, command_fault_name, command_fault_status};

use std::alloc::{AllocError, AllocFailed};
use thiserror::Error;

/// Why a command line gives no game. The texts are those of `clap`, whole, with their last LF; of refused words with a tip of our own
/// where one helps.
#[derive(Debug, PartialEq, Eq, Drop, Error)]
#[error("{}", self.name())]
pub enum CommandFault {
    /// The words are refused. The text says what was wrong, and what would be right.
    BadWords(String),
    /// Help or the version was asked for, and this is the text.
    HelpAsked(String),
    /// A growth was refused.
    OutOfMemory,
}

impl CommandFault {
    /// The fault's number: 1 `BadWords`, 2 `HelpAsked`, 3 `OutOfMemory`.
    pub fn number(&self) -> u8
        ensures { result ≡ command_fault_number self.now }
    {
        match self {
            CommandFault::BadWords(_) => 1,
            CommandFault::HelpAsked(_) => 2,
            CommandFault::OutOfMemory => 3,
        }
    }

    /// The fault's name.
    pub fn name(&self) -> &'static str
        ensures { result.now ≡ command_fault_name self.now }
    {
        match self {
            CommandFault::BadWords(_) => "BadWords",
            CommandFault::HelpAsked(_) => "HelpAsked",
            CommandFault::OutOfMemory => "OutOfMemory",
        }
    }

    /// The status that the program ends with: 2 for refused words, 0 for help, 1 where memory is refused.
    pub fn status(&self) -> u8
        ensures { result ≡ command_fault_status self.now }
    {
        match self {
            CommandFault::BadWords(_) => 2,
            CommandFault::HelpAsked(_) => 0,
            CommandFault::OutOfMemory => 1,
        }
    }
}

impl From<AllocError> for CommandFault {
    ghost use Rattle.std.specs.Prelude.{◌≡◌};
    ghost use Rattle.puzzle_cli.specs.declared.start.command_fault.CommandFault.TheVariants.{OutOfMemory};

    ghost from_gives = { λ _ fault. fault ≡ OutOfMemory };

    fn from(_: AllocError) -> CommandFault {
        CommandFault::OutOfMemory
    }
}

impl<T: Drop> From<AllocFailed<T>> for CommandFault {
    ghost use Rattle.std.specs.Prelude.{◌≡◌};
    ghost use Rattle.puzzle_cli.specs.declared.start.command_fault.CommandFault.TheVariants.{OutOfMemory};

    ghost from_gives = { λ _ fault. fault ≡ OutOfMemory };

    fn from(_: AllocFailed<T>) -> CommandFault {
        CommandFault::OutOfMemory
    }
}
