//! A source over the bytes of a vector.

ghost use Rattle.std.specs.Prelude.{◌≡◌, ◌-◌, ◌≤◌, ◌==◌, ◌||◌, min, true, false, Some, length, drop, IfOk, IsErr, is_err, vec_len};
ghost use Rattle.std.specs.Io.KnownBytes.{ReadConsumes};
ghost use Rattle.puzzle_io.specs.Memory.{SourceState};

use crate::device::{DeviceFault, Source};
use crate::pace::Pace;
use std::marker::Model;

/// The source that gives the bytes of a vector, in pieces, and fails at one call.
#[derive(Drop)]
pub struct MemorySource {
    bytes: Vec<u8>,
    given: usize,
    pace: Pace,
}

impl Model for MemorySource {
    ghost Value = { SourceState };

    ghost view = { λ s. record {
      to_come = drop s.given s.bytes.items;
      piece = s.pace.piece;
      fails_in = s.pace.fails_in;
      failed = s.pace.failed;
    } };

    ghost invariant = { λ s. (s.given ≤ vec_len s.bytes) × (1 ≤ s.pace.piece) };
}

impl MemorySource {
    /// A source with all of `bytes` to come, at most `piece` in one read, which is at least 1.
    ///
    /// The read number `fails_at`, counted from 1, fails, and none does where that is 0.
    pub fn new(bytes: Vec<u8>, piece: usize, fails_at: u64) -> MemorySource
        requires { 1 ≤ piece }
        ensures { result ≡ record {
          to_come = bytes.items;
          piece = piece;
          fails_in = fails_at;
          failed = false;
        } }
    {
        MemorySource {
            bytes,
            given: 0,
            pace: Pace::new(piece, fails_at),
        }
    }
}

impl Source for MemorySource {
    ghost to_come = { λ s. Some s.to_come };

    ghost has_failed = { λ s. s.failed };

    fn read(&mut self, buffer: &mut [u8]) -> Result<usize, DeviceFault>
        ensures bound { IfOk result (λ n. n ≤ length buffer.new) }
        ensures bytes { ReadConsumes (Some self.old.to_come) (Some self.new.to_come)
            result buffer.new }
        ensures failed { self.new.failed ≡ is_err result }
        ensures stays_failed { self.old.failed ≡ true → IsErr result }

        // The causes of a failure: an earlier one, and the call's number.
        ensures fails { is_err result ≡ (self.old.failed || self.old.fails_in == 1) }
        ensures counts { self.new.fails_in ≡ self.old.fails_in - 1 }
        ensures piece { self.new.piece ≡ self.old.piece }
        ensures count { IfOk result (λ n. n
            ≡ min self.old.piece (min (length self.old.to_come) (length buffer.new))) }
    {
        self.pace.count_call()?;
        let count = self.pace.copy_piece(buffer, 0, &self.bytes[self.given..]);
        self.given += count;
        Ok(count)
    }
}
