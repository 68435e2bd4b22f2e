//! The one fault of this crate.

ghost use Rattle.std.specs.Prelude.{◌≡◌, codes};

use std::alloc::{AllocError, AllocFailed};
use std::error::Error;
use std::fmt;

/// A growth was refused: the allocator gave no memory.
#[derive(Clone, Copy, Debug, PartialEq, Eq)]
pub struct OutOfMemory;

impl OutOfMemory {
    /// The fault's number, 1.
    pub fn number(&self) -> u8
        ensures { result ≡ 1 }
    {
        1
    }

    /// The fault's name, `OutOfMemory`.
    pub fn name(&self) -> &'static str
        ensures { result.now ≡ codes "OutOfMemory" }
    {
        "OutOfMemory"
    }
}

impl fmt::Display for OutOfMemory {
    ghost use Rattle.std.specs.Prelude.{Some, codes};

    ghost output = { λ _. Some (codes "out of memory") };

    fn fmt<W: fmt::Write>(&self, f: &mut fmt::Formatter<W>) -> fmt::Result {
        f.write_str("out of memory")
    }
}

impl Error for OutOfMemory {}

impl From<AllocError> for OutOfMemory {
    fn from(_e: AllocError) -> OutOfMemory {
        OutOfMemory
    }
}

impl<T: Drop> From<AllocFailed<T>> for OutOfMemory {
    fn from(_e: AllocFailed<T>) -> OutOfMemory {
        OutOfMemory
    }
}
