//! The duties of a source and a sink of bytes, and the fault that both answer.

ghost use Rattle.std.specs.Prelude.{◌≡◌, ℕ, ◌≤◌, Bool, true, Option, None, List, length, IfOk, OnOk, IsErr, is_err, is_some, codes};
ghost use Rattle.std.specs.Io.KnownBytes.{Keeps, ReadConsumes, WriteAppends};
ghost use Rattle.puzzle_io.specs.Device.{IsPassedOn, write_failed};

use thiserror::Error;

/// A read, a write or a flush failed.
#[derive(Clone, Copy, Debug, PartialEq, Eq, Error)]
#[error("{}", self.name())]
pub enum DeviceFault {
    DeviceFault,
}

impl DeviceFault {
    /// The fault's number: 1.
    pub fn number(&self) -> u8
        ensures { result ≡ 1 }
    {
        match self {
            DeviceFault::DeviceFault => 1,
        }
    }

    /// The fault's name: `DeviceFault`.
    pub fn name(&self) -> &'static str
        ensures { result.now ≡ codes "DeviceFault" }
    {
        match self {
            DeviceFault::DeviceFault => "DeviceFault",
        }
    }
}

/// Where bytes come from.
pub trait Source {
    // The bytes that are to come, where the source tells them. A source tells them always or never.
    ghost to_come: { Self → Option (List ℕ) };

    // Whether a read has failed.
    ghost has_failed: { Self → Bool };

    /// Moves bytes to the front of `buffer` and gives their number, 0 only where `buffer` is empty or no byte is to come.
    ///
    /// `DeviceFault` leaves the bytes that are to come, and every later read is answered by it too.
    fn read(&mut self, buffer: &mut [u8]) -> Result<usize, DeviceFault>
        ensures bound { IfOk result (λ n. n ≤ length buffer.new) }
        ensures bytes { ReadConsumes (to_come self.old) (to_come self.new) result buffer.new }
        ensures told { is_some (to_come self.new) ≡ is_some (to_come self.old) }
        ensures failed { has_failed self.new ≡ is_err result }
        ensures stays_failed { has_failed self.old ≡ true → IsErr result };
}

/// Where bytes go.
pub trait Sink {
    // The bytes that were taken, where the sink tells them. A sink tells them always or never.
    ghost taken: { Self → Option (List ℕ) };

    // The bytes that had been taken when it was last flushed, where the sink tells them too. It tells them always or never.
    ghost flushed: { Self → Option (List ℕ) } = { λ _. None };

    // Whether a write or a flush has failed, or a write of some bytes took none.
    ghost has_failed: { Self → Bool };

    /// Takes bytes from the front of `bytes` and gives their number.
    ///
    /// `DeviceFault` takes none. It, or 0 where `bytes` isn't empty, is a failure: every later call is `DeviceFault`.
    fn write(&mut self, bytes: &[u8]) -> Result<usize, DeviceFault>
        ensures bound { IfOk result (λ n. n ≤ length bytes.now) }
        ensures bytes { WriteAppends (taken self.old) (taken self.new) result bytes.now }
        ensures told { is_some (taken self.new) ≡ is_some (taken self.old) }
        ensures flushed { flushed self.new ≡ flushed self.old }
        ensures failed { has_failed self.new ≡ write_failed result (length bytes.now) }
        ensures stays_failed { has_failed self.old ≡ true → IsErr result };

    /// Passes on what was taken. After `DeviceFault` every later call is `DeviceFault`.
    fn flush(&mut self) -> Result<(), DeviceFault>
        ensures bytes { Keeps (taken self.old) (taken self.new) }
        ensures told { is_some (taken self.new) ≡ is_some (taken self.old) }
        ensures flushed { OnOk result (IsPassedOn (flushed self.new) (taken self.new)) }
        ensures flushed_told { is_some (flushed self.new) ≡ is_some (flushed self.old) }
        ensures failed { has_failed self.new ≡ is_err result }
        ensures stays_failed { has_failed self.old ≡ true → IsErr result };
}
