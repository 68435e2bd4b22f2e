//! How many bytes a device over memory moves in a call, and which of its calls fails.

ghost use Rattle.std.specs.Prelude.{◌≡◌, ◌+◌, ◌-◌, ◌≤◌, ◌==◌, ◌||◌, ◌++◌, min, false, length, take, is_err};

use crate::device::DeviceFault;

/// How a device over memory goes about its calls: at most `piece` bytes in each, and a failure at one.
#[derive(Drop)]
pub(crate) struct Pace {
    pub(crate) piece: usize,
    // the number of the call that fails, counted from 1, among those to come; 0: none
    pub(crate) fails_in: u64,
    pub(crate) failed: bool,
}

impl Pace {
    pub(crate) fn new(piece: usize, fails_at: u64) -> Pace
        ensures { result ≡ record { piece = piece; fails_in = fails_at; failed = false } }
    {
        Pace {
            piece,
            fails_in: fails_at,
            failed: false,
        }
    }

    /// Counts a call, and fails it where it is the one to fail or an earlier one has failed.
    pub(crate) fn count_call(&mut self) -> Result<(), DeviceFault>
        ensures fails { is_err result ≡ (self.old.failed || self.old.fails_in == 1) }
        ensures failed { self.new.failed ≡ is_err result }
        ensures counts { self.new.fails_in ≡ self.old.fails_in - 1 }
        ensures piece { self.new.piece ≡ self.old.piece }
    {
        self.failed = self.failed || self.fails_in == 1;
        self.fails_in = self.fails_in.saturating_sub(1);
        if self.failed {
            return Err(DeviceFault::DeviceFault);
        }
        Ok(())
    }

    /// Copies a piece from the front of `bytes` to place `at` of `target`, as far as there are bytes and room.
    pub(crate) fn copy_piece(&self, target: &mut [u8], at: usize, bytes: &[u8]) -> usize
        requires { at ≤ length target.old }
        ensures count { result
            ≡ min self.now.piece (min (length bytes.now) (length target.old - at)) }
        ensures copied { take (at + result) target.new
            ≡ take at target.old ++ take result bytes.now }
    {
        let room = target.len() - at;
        let count = self.piece.min(bytes.len().min(room));
        target[at..at + count].copy_from_slice(&bytes[..count]);
        count
    }
}
