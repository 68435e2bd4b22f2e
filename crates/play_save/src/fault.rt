//! Why a save file isn't loaded.

ghost use Rattle.std.specs.Prelude.{◌≡◌};
ghost use Rattle.play_save.specs.Faults.{load_fault_number, load_fault_name};

use std::alloc::{AllocError, AllocFailed};
use thiserror::Error;

/// Why a text isn't loaded as a save file, or a save file couldn't be written.
#[derive(Clone, Copy, Debug, PartialEq, Eq, Error)]
#[error("{}", self.name())]
pub enum LoadFault {
    /// The first record isn't the one that names the format.
    NotASave,
    /// The text isn't a record where one has to follow.
    Malformed,
    /// The version isn't 1.
    Version,
    /// The save file is one of another game.
    WrongGame,
    /// A record that may stand once stands twice.
    Repeated,
    /// A state record before the two counts.
    EarlyState,
    /// A private description, a hint or a spent sign, which are left out here.
    Unsupported,
    /// Parameters that can't be read.
    BadParams,
    /// The description can't be read at the size of the parameters.
    BadDesc,
    /// A count that isn't a number from 1 to `MOST_STATES`, or a position after the last state.
    BadCount,
    /// A record that is needed isn't there.
    Missing,
    /// The state record with this number, counted from 1, is no move that can be made.
    BadState(u32),
    /// The text has more than `MOST_BYTES` bytes.
    TooLarge,
    /// Memory was refused.
    OutOfMemory,
}

impl LoadFault {
    /// The fault's number, from 1 to 14.
    pub fn number(&self) -> u8
        ensures { result ≡ load_fault_number self.now }
    {
        match self {
            LoadFault::NotASave => 1,
            LoadFault::Malformed => 2,
            LoadFault::Version => 3,
            LoadFault::WrongGame => 4,
            LoadFault::Repeated => 5,
            LoadFault::EarlyState => 6,
            LoadFault::Unsupported => 7,
            LoadFault::BadParams => 8,
            LoadFault::BadDesc => 9,
            LoadFault::BadCount => 10,
            LoadFault::Missing => 11,
            LoadFault::BadState(_) => 12,
            LoadFault::TooLarge => 13,
            LoadFault::OutOfMemory => 14,
        }
    }

    /// The fault's name, without the number of a state record.
    pub fn name(&self) -> &'static str
        ensures { result.now ≡ load_fault_name self.now }
    {
        match self {
            LoadFault::NotASave => "NotASave",
            LoadFault::Malformed => "Malformed",
            LoadFault::Version => "Version",
            LoadFault::WrongGame => "WrongGame",
            LoadFault::Repeated => "Repeated",
            LoadFault::EarlyState => "EarlyState",
            LoadFault::Unsupported => "Unsupported",
            LoadFault::BadParams => "BadParams",
            LoadFault::BadDesc => "BadDesc",
            LoadFault::BadCount => "BadCount",
            LoadFault::Missing => "Missing",
            LoadFault::BadState(_) => "BadState",
            LoadFault::TooLarge => "TooLarge",
            LoadFault::OutOfMemory => "OutOfMemory",
        }
    }
}

impl From<AllocError> for LoadFault {
    ghost use Rattle.std.specs.Prelude.{◌≡◌};
    ghost use Rattle.play_save.specs.declared.fault.LoadFault.TheVariants.{OutOfMemory};

    ghost from_gives = { λ _ fault. fault ≡ OutOfMemory };

    fn from(_memory: AllocError) -> LoadFault {
        LoadFault::OutOfMemory
    }
}

impl<T: Drop> From<AllocFailed<T>> for LoadFault {
    ghost use Rattle.std.specs.Prelude.{◌≡◌};
    ghost use Rattle.play_save.specs.declared.fault.LoadFault.TheVariants.{OutOfMemory};

    ghost from_gives = { λ _ fault. fault ≡ OutOfMemory };

    fn from(_memory: AllocFailed<T>) -> LoadFault {
        LoadFault::OutOfMemory
    }
}
