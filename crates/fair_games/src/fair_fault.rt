//! Why there is no fair game.

ghost use Rattle.std.specs.Prelude.{◌≡◌};

use thiserror::Error;

/// Why there is no fair game.
#[derive(Clone, Copy, Debug, PartialEq, Eq, Error)]
pub enum FairFault {
    /// No games of this size and grade are offered.
    #[error("no games of this size and grade are offered")]
    NotOffered,
    /// None of the draws gave a game of the grade.
    #[error("no draw gave a game of this grade")]
    NoneFound,
}

impl FairFault {
    ghost use Rattle.fair_games.specs.FairFaults.{fair_fault_number, fair_fault_name};

    /// The fault's number: 1 for `NotOffered`, 2 for `NoneFound`.
    pub fn number(&self) -> u8
        ensures { result ≡ fair_fault_number self.now }
    {
        *self as u8 + 1
    }

    /// The fault's name, as a program prints it.
    pub fn name(&self) -> &'static str
        ensures { result.now ≡ fair_fault_name self.now }
    {
        match self {
            FairFault::NotOffered => "NotOffered",
            FairFault::NoneFound => "NoneFound",
        }
    }
}
