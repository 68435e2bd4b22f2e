//! A sink over a writer of `std`.

ghost use Rattle.std.specs.Prelude.{◌≡◌, ◌≤◌, true, false, None, length, IfOk, IsErr, is_err};
ghost use Rattle.std.specs.Io.KnownBytes.{Keeps, WriteAppends};
ghost use Rattle.puzzle_io.specs.Device.{write_failed};
ghost use Rattle.puzzle_io.specs.Stream.{StreamState};

use crate::device::{DeviceFault, Sink};
use std::io::Write;
use std::marker::Model;

/// The sink that hands what it takes to a writer of `std`, and tells nothing of its bytes.
///
/// Every error of the writer is `DeviceFault`, `Interrupted` too. No clause of `std` tells when a writer has an error, so that is tested
/// only.
#[derive(Drop)]
pub struct ToWrite<W> {
    writer: W,
    failed: bool,
}

impl<W> Model for ToWrite<W> {
    ghost Value = { StreamState W };

    ghost view = { λ s. record { stream = s.writer; failed = s.failed } };
}

impl<W: Write> ToWrite<W> {
    /// A sink over the writer that hasn't failed.
    pub fn new(writer: W) -> ToWrite<W>
        ensures { result ≡ record { stream = writer; failed = false } }
    {
        ToWrite {
            writer,
            failed: false,
        }
    }
}

impl<W: Write> Sink for ToWrite<W> {
    ghost taken = { λ _. None };

    ghost has_failed = { λ s. s.failed };

    fn write(&mut self, bytes: &[u8]) -> Result<usize, DeviceFault>
        ensures bound { IfOk result (λ n. n ≤ length bytes.now) }
        ensures failed { self.new.failed ≡ write_failed result (length bytes.now) }
        ensures stays_failed { self.old.failed ≡ true → IsErr result }

        // The writer's own account of its bytes.
        ensures writer { WriteAppends (W.contents self.old.stream) (W.contents self.new.stream)
            result bytes.now }
    {
        if self.failed {
            return Err(DeviceFault::DeviceFault);
        }
        let answer = self.writer.write(bytes);
        self.failed = match &answer {
            Ok(count) => *count == 0 && !bytes.is_empty(),
            Err(_) => true,
        };
        answer.map_err(|_| DeviceFault::DeviceFault)
    }

    fn flush(&mut self) -> Result<(), DeviceFault>
        ensures failed { self.new.failed ≡ is_err result }
        ensures stays_failed { self.old.failed ≡ true → IsErr result }

        // The writer's own account of its bytes.
        ensures writer { Keeps (W.contents self.old.stream) (W.contents self.new.stream) }
    {
        if self.failed {
            return Err(DeviceFault::DeviceFault);
        }
        let answer = self.writer.flush();
        self.failed = answer.is_err();
        answer.map_err(|_| DeviceFault::DeviceFault)
    }
}
