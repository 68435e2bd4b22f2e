//! A sink over the bytes of a vector.

ghost use Rattle.std.specs.Prelude.{◌≡◌, ◌+◌, ◌-◌, ◌≤◌, ◌==◌, ◌||◌, ◌&&◌, not, min, true, false, [], Some, length};
ghost use Rattle.std.specs.Prelude.{take, IfOk, OnOk, IsErr, is_err, vec_len};
ghost use Rattle.std.specs.Io.KnownBytes.{Keeps, WriteAppends};
ghost use Rattle.puzzle_io.specs.Device.{write_failed};
ghost use Rattle.puzzle_io.specs.Memory.{SinkState};

use crate::device::{DeviceFault, Sink};
use crate::pace::Pace;
use std::marker::Model;

/// The sink that writes over the bytes of a vector from its front, in pieces, and fails at one call. It tells the bytes that it took
/// and, in contracts, those of them that it had when it was last flushed.
#[derive(Drop)]
pub struct MemorySink {
    bytes: Vec<u8>,
    used: usize,
    flushed: usize,
    pace: Pace,
}

impl Model for MemorySink {
    ghost Value = { SinkState };

    ghost view = { λ s. record {
      taken = take s.used s.bytes.items;
      flushed = take s.flushed (take s.used s.bytes.items);
      room = vec_len s.bytes - s.used;
      piece = s.pace.piece;
      fails_in = s.pace.fails_in;
      failed = s.pace.failed;
    } };

    ghost invariant = { λ s. (s.used ≤ vec_len s.bytes) × (s.flushed ≤ s.used) × (1 ≤ s.pace.piece) };
}

impl MemorySink {
    /// A sink that has taken nothing and takes as many bytes as `bytes` has, at most `piece` in one write, which is at least 1.
    ///
    /// The call number `fails_at`, counted from 1, fails, writes and flushes counted together, and none does where that is 0.
    pub fn new(bytes: Vec<u8>, piece: usize, fails_at: u64) -> MemorySink
        requires { 1 ≤ piece }
        ensures { result ≡ record {
          taken = [];
          flushed = [];
          room = vec_len bytes;
          piece = piece;
          fails_in = fails_at;
          failed = false;
        } }
    {
        MemorySink {
            bytes,
            used: 0,
            flushed: 0,
            pace: Pace::new(piece, fails_at),
        }
    }

    /// The bytes that were taken.
    pub fn taken(&self) -> &[u8]
        ensures { result.now ≡ self.now.taken }
    {
        &self.bytes[..self.used]
    }
}

impl Sink for MemorySink {
    ghost taken = { λ s. Some s.taken };

    ghost flushed = { λ s. Some s.flushed };

    ghost has_failed = { λ s. s.failed };

    /// `DeviceFault` also where `bytes` isn't empty and there is no room for a byte.
    fn write(&mut self, bytes: &[u8]) -> Result<usize, DeviceFault>
        ensures bound { IfOk result (λ n. n ≤ length bytes.now) }
        ensures bytes { WriteAppends (Some self.old.taken) (Some self.new.taken) result bytes.now }
        ensures flushed { self.new.flushed ≡ self.old.flushed }
        ensures failed { self.new.failed ≡ write_failed result (length bytes.now) }
        ensures stays_failed { self.old.failed ≡ true → IsErr result }

        // The causes of a failure: an earlier one, the call's number, and want of room.
        ensures fails { is_err result ≡ (self.old.failed || self.old.fails_in == 1
            || (self.old.room == 0 && not (length bytes.now == 0))) }
        ensures counts { self.new.fails_in ≡ self.old.fails_in - 1 }
        ensures piece { self.new.piece ≡ self.old.piece }
        ensures count { IfOk result (λ n. n
            ≡ min self.old.piece (min (length bytes.now) self.old.room)) }
        ensures room { length self.new.taken + self.new.room
            ≡ length self.old.taken + self.old.room }
    {
        self.pace.count_call()?;
        if self.used == self.bytes.len() && !bytes.is_empty() {
            self.pace.failed = true;
            return Err(DeviceFault::DeviceFault);
        }
        let count = self.pace.copy_piece(&mut self.bytes, self.used, bytes);
        self.used += count;
        Ok(count)
    }

    fn flush(&mut self) -> Result<(), DeviceFault>
        ensures bytes { Keeps (Some self.old.taken) (Some self.new.taken) }
        ensures flushed { OnOk result (self.new.flushed ≡ self.new.taken) }
        ensures failed { self.new.failed ≡ is_err result }
        ensures stays_failed { self.old.failed ≡ true → IsErr result }

        ensures fails { is_err result ≡ (self.old.failed || self.old.fails_in == 1) }
        ensures counts { self.new.fails_in ≡ self.old.fails_in - 1 }
        ensures piece { self.new.piece ≡ self.old.piece }
        ensures room { self.new.room ≡ self.old.room }
    {
        self.pace.count_call()?;
        self.flushed = self.used;
        Ok(())
    }
}
