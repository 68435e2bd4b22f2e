//! The line that is being read, byte by byte.

ghost use Rattle.std.specs.Prelude.{◌≡◌, [], Some};
ghost use Rattle.std.specs.Option.{option_copied};
ghost use Rattle.line_replies.specs.Lines.{as_line, without_cr};
ghost use Rattle.puzzle_cli.specs.Inner.LineBuffer.{pushed};

use line_replies::LINE_BYTES;
use std::marker::Model;

/// A line, or the part of one that has come so far. Of one that is too long no byte is kept.
#[derive(Drop)]
pub(crate) struct LineBuffer {
    bytes: [u8; LINE_BYTES],
    len: usize,
    is_long: bool,
}

impl Model for LineBuffer {
    ghost use Rattle.std.specs.Prelude.{ℕ, ◌≤◌, List, Option, Some, None, take, if◌then◌else◌};
    ghost use Rattle.line_replies.specs.declared.machine.TheConstants.{LINE_BYTES};

    ghost Value = { Option (List ℕ) };

    ghost view = { λ l. if l.is_long then None else Some (take l.len l.bytes) };

    ghost invariant = { λ l. l.len ≤ LINE_BYTES };
}

impl LineBuffer {
    pub(crate) fn new() -> LineBuffer
        ensures { result ≡ Some [] }
    {
        LineBuffer {
            bytes: [0; LINE_BYTES],
            len: 0,
            is_long: false,
        }
    }

    pub(crate) fn push(&mut self, byte: u8)
        ensures { self.new ≡ pushed self.old byte }
    {
        if self.len < LINE_BYTES {
            self.bytes[self.len] = byte;
            self.len += 1;
        } else {
            self.is_long = true;
        }
    }

    pub(crate) fn clear(&mut self)
        ensures { self.new ≡ Some [] }
    {
        self.len = 0;
        self.is_long = false;
    }

    /// The line without one CR at its end, or `None` where it is too long.
    pub(crate) fn line(&self) -> Option<&[u8]>
        ensures { option_copied result ≡ as_line self.now }
    {
        if self.is_long {
            return None;
        }
        Some(without_cr(&self.bytes[..self.len]))
    }
}

/// The line without one CR at its end.
fn without_cr(line: &[u8]) -> &[u8]
    ensures { result.now ≡ without_cr line.now }
{
    match line {
        [front @ .., b'\r'] => front,
        _ => line,
    }
}
