//! Why a parameter string, a description or a game ID is refused.

ghost use Rattle.std.specs.Prelude.{◌≡◌};

use std::alloc::{AllocError, AllocFailed};
use thiserror::Error;

/// Why a parameter string, a description or a game ID is refused, or a description couldn't be written.
#[derive(Clone, Copy, Debug, PartialEq, Eq, Error)]
#[error("{}", self.name())]
pub enum IdFault {
    /// The run of digits at the front isn't one digit from 3 to 9.
    BadSize,
    /// The byte after `d` is missing or isn't a letter of the game.
    BadLetter,
    /// Unequal's adjacent mode, which isn't supported.
    AdjacentMode,
    /// Anything else that the parameters' grammar doesn't have.
    BadParams,
    /// A seed of the collection's own generator, after `#`.
    ForeignSeed,
    /// No separator, and so no description and no seed.
    NoDescription,
    /// The seed after `!` isn't a decimal number without leading zeros below 2 to the 64.
    BadSeed,
    /// Towers: a clue that isn't empty or one digit from 1 to the width. Unequal: a byte that is no sign.
    BadClue,
    /// A square's number that isn't a digit in range, or a byte that stands for no square.
    BadSquares,
    /// Fewer clues or squares than the size has.
    TooFew,
    /// More clues or squares than the size has.
    TooMany,
    /// A sign that points out of the grid.
    OffGrid,
    /// Two squares of which each is said to be the greater.
    Contradiction,
    /// Memory was refused.
    OutOfMemory,
}

impl IdFault {
    ghost use Rattle.game_texts.specs.IdFaults.{id_fault_number, id_fault_name};

    /// The fault's number, from 1 to 14.
    pub fn number(&self) -> u8
        ensures { result ≡ id_fault_number self.now }
    {
        *self as u8 + 1
    }

    /// The fault's name, as a program prints it.
    pub fn name(&self) -> &'static str
        ensures { result.now ≡ id_fault_name self.now }
    {
        match self {
            IdFault::BadSize => "BadSize",
            IdFault::BadLetter => "BadLetter",
            IdFault::AdjacentMode => "AdjacentMode",
            IdFault::BadParams => "BadParams",
            IdFault::ForeignSeed => "ForeignSeed",
            IdFault::NoDescription => "NoDescription",
            IdFault::BadSeed => "BadSeed",
            IdFault::BadClue => "BadClue",
            IdFault::BadSquares => "BadSquares",
            IdFault::TooFew => "TooFew",
            IdFault::TooMany => "TooMany",
            IdFault::OffGrid => "OffGrid",
            IdFault::Contradiction => "Contradiction",
            IdFault::OutOfMemory => "OutOfMemory",
        }
    }
}

impl From<AllocError> for IdFault {
    ghost use Rattle.std.specs.Prelude.{◌≡◌};
    ghost use Rattle.game_texts.specs.declared.id_fault.IdFault.TheVariants.{OutOfMemory};

    ghost from_gives = { λ _ e. e ≡ OutOfMemory };

    fn from(_: AllocError) -> IdFault {
        IdFault::OutOfMemory
    }
}

impl<T: Drop> From<AllocFailed<T>> for IdFault {
    ghost use Rattle.std.specs.Prelude.{◌≡◌};
    ghost use Rattle.game_texts.specs.declared.id_fault.IdFault.TheVariants.{OutOfMemory};

    ghost from_gives = { λ _ e. e ≡ OutOfMemory };

    fn from(_: AllocFailed<T>) -> IdFault {
        IdFault::OutOfMemory
    }
}
