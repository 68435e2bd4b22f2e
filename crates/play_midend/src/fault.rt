//! The refusals of a session.

ghost use Rattle.std.specs.Prelude.{◌≡◌};
ghost use Rattle.play_midend.specs.declared.fault.PlayFault.TheVariants.{OutOfMemory};
ghost use Rattle.play_midend.specs.Faults.{play_fault_number, play_fault_name};

use latin_board::OutOfMemory;
use std::alloc::{AllocError, AllocFailed};
use thiserror::Error;

/// Why a move text, a move or another call of a session is refused.
#[derive(Clone, Copy, Debug, PartialEq, Eq, Error)]
#[error("{}", self.name())]
pub enum PlayFault {
    /// The text is no move.
    BadMove,
    /// The text is a hint, `H`, or a spent sign, `F`, which are left out here.
    Unsupported,
    /// The square isn't on the grid, or there is no clue at the edge place.
    OffGrid,
    /// The number is greater than the size.
    OffRange,
    /// The square is given.
    GivenSquare,
    /// A pencil mark for a square that holds a number.
    FilledSquare,
    /// The grid has another size, or is no solution.
    BadSolution,
    /// The position is the last that a history has.
    HistoryFull,
    /// Memory was refused.
    OutOfMemory,
    /// The first state is shown.
    NothingToUndo,
    /// The last state is shown.
    NothingToRedo,
    /// The first state is shown.
    NothingToRestart,
    /// The starting puzzle has no solution.
    NoSolution,
    /// The starting puzzle has more than one solution.
    SeveralSolutions,
}

impl PlayFault {
    /// The fault's number, from 1 to 14.
    pub fn number(&self) -> u8
        ensures { result ≡ play_fault_number self.now }
    {
        *self as u8 + 1
    }

    /// The fault's name.
    pub fn name(&self) -> &'static str
        ensures { result.now ≡ play_fault_name self.now }
    {
        match self {
            PlayFault::BadMove => "BadMove",
            PlayFault::Unsupported => "Unsupported",
            PlayFault::OffGrid => "OffGrid",
            PlayFault::OffRange => "OffRange",
            PlayFault::GivenSquare => "GivenSquare",
            PlayFault::FilledSquare => "FilledSquare",
            PlayFault::BadSolution => "BadSolution",
            PlayFault::HistoryFull => "HistoryFull",
            PlayFault::OutOfMemory => "OutOfMemory",
            PlayFault::NothingToUndo => "NothingToUndo",
            PlayFault::NothingToRedo => "NothingToRedo",
            PlayFault::NothingToRestart => "NothingToRestart",
            PlayFault::NoSolution => "NoSolution",
            PlayFault::SeveralSolutions => "SeveralSolutions",
        }
    }
}

impl From<OutOfMemory> for PlayFault {
    ghost from_gives = { λ _ fault. fault ≡ OutOfMemory };

    fn from(_memory: OutOfMemory) -> PlayFault {
        PlayFault::OutOfMemory
    }
}

impl From<AllocError> for PlayFault {
    ghost from_gives = { λ _ fault. fault ≡ OutOfMemory };

    fn from(_memory: AllocError) -> PlayFault {
        PlayFault::OutOfMemory
    }
}

impl<T: Drop> From<AllocFailed<T>> for PlayFault {
    ghost from_gives = { λ _ fault. fault ≡ OutOfMemory };

    fn from(_memory: AllocFailed<T>) -> PlayFault {
        PlayFault::OutOfMemory
    }
}
