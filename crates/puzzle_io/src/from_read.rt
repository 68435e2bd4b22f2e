//! A source over a reader of `std`.

ghost use Rattle.std.specs.Prelude.{◌≡◌, ◌≤◌, true, false, None, length, IfOk, IsErr, is_err};
ghost use Rattle.std.specs.Io.KnownBytes.{ReadConsumes};
ghost use Rattle.puzzle_io.specs.Stream.{StreamState};

use crate::device::{DeviceFault, Source};
use std::io::Read;
use std::marker::Model;

/// The source that gives what a reader of `std` gives, and tells nothing of its bytes.
///
/// Every error of the reader is `DeviceFault`, `Interrupted` too. No clause of `std` tells when a reader has an error, so that is tested
/// only.
#[derive(Drop)]
pub struct FromRead<R> {
    reader: R,
    failed: bool,
}

impl<R> Model for FromRead<R> {
    ghost Value = { StreamState R };

    ghost view = { λ s. record { stream = s.reader; failed = s.failed } };
}

impl<R: Read> FromRead<R> {
    /// A source over the reader that hasn't failed.
    pub fn new(reader: R) -> FromRead<R>
        ensures { result ≡ record { stream = reader; failed = false } }
    {
        FromRead {
            reader,
            failed: false,
        }
    }
}

impl<R: Read> Source for FromRead<R> {
    ghost to_come = { λ _. None };

    ghost has_failed = { λ s. s.failed };

    fn read(&mut self, buffer: &mut [u8]) -> Result<usize, DeviceFault>
        ensures bound { IfOk result (λ n. n ≤ length buffer.new) }
        ensures failed { self.new.failed ≡ is_err result }
        ensures stays_failed { self.old.failed ≡ true → IsErr result }

        // The reader's own account of its bytes.
        ensures reader { ReadConsumes (R.remaining self.old.stream) (R.remaining self.new.stream)
            result buffer.new }
    {
        if self.failed {
            return Err(DeviceFault::DeviceFault);
        }
        let answer = self.reader.read(buffer);
        self.failed = answer.is_err();
        answer.map_err(|_| DeviceFault::DeviceFault)
    }
}
