//! A source that gives one byte at a time.

use puzzle_io::{DeviceFault, Source};

/// The bytes that are still to come. It never fails.
#[derive(Drop, Debug)]
pub struct Tape<'a> {
    rest: &'a [u8],
}

impl<'a> Tape<'a> {
    ghost use Rattle.std.specs.Prelude.{◌≡◌, Some};

    /// A source of these bytes.
    pub fn of(bytes: &'a [u8]) -> Tape<'a>
        ensures { ⟦<Tape<'a> as Source>⟧.to_come result ≡ Some bytes.now }
    {
        Tape { rest: bytes }
    }
}

impl<'a> Source for Tape<'a> {
    ghost use Rattle.std.specs.Prelude.{Some, false};

    ghost to_come = { λ tape. Some tape.rest.now };

    ghost has_failed = { λ tape. false };

    fn read(&mut self, buffer: &mut [u8]) -> Result<usize, DeviceFault> {
        if buffer.is_empty() {
            return Ok(0);
        }
        let Some((byte, rest)) = self.rest.split_first() else {
            return Ok(0);
        };
        buffer[0] = *byte;
        self.rest = rest;
        Ok(1)
    }
}
