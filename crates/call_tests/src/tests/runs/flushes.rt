//! Runs over std's devices: each reply is flushed, and nothing is read after `quit`.

use crate::tests::rows::{Row, check};
use clue_rules::Towers;
use puzzle_cli::{End, run};
use puzzle_io::{FromRead, ToWrite};
use std::alloc::Global;
use std::io;
use std::io::{ErrorKind, Read, Write};

// A writer that notes each flush by a bar.
#[derive(Drop)]
struct Log<'a> {
    bytes: &'a mut Vec<u8>,
}

impl Write for Log<'_> {
    fn write(&mut self, bytes: &[u8]) -> io::Result<usize> {
        self.bytes.extend_from_slice(bytes)?;
        Ok(bytes.len())
    }

    fn flush(&mut self) -> io::Result<()> {
        self.bytes.push(b'|')?;
        Ok(())
    }
}

// A reader of one piece that counts its reads, and fails after it.
#[derive(Drop)]
struct OnePiece<'a> {
    piece: &'a [u8],
    reads: u64,
}

impl Read for OnePiece<'_> {
    fn read(&mut self, buffer: &mut [u8]) -> io::Result<usize> {
        self.reads = self.reads.saturating_add(1);
        if self.reads > 1 || buffer.len() < self.piece.len() {
            return Err(io::Error::from(ErrorKind::Interrupted));
        }
        buffer[..self.piece.len()].copy_from_slice(self.piece);
        Ok(self.piece.len())
    }
}

// The piece, how the run ends, how often it reads, and what it writes.
struct Flushed(&'static [u8], End, u64, &'static [u8]);

impl Row for Flushed {
    fn holds(&self, alloc: Global) -> bool {
        let mut written = Vec::new(alloc);
        let mut reader = OnePiece {
            piece: self.0,
            reads: 0,
        };
        let mut source = FromRead::new(&mut reader);
        let mut sink = ToWrite::new(Log {
            bytes: &mut written,
        });
        let (_, end) = run::<Towers, _, _>(alloc, None, &mut source, &mut sink);
        end == self.1 && reader.reads == self.2 && written.as_slice() == self.3
    }
}

#[test]
fn each_reply_is_flushed_and_nothing_is_read_after_quit(rt: HostRuntime) {
    const ROWS: &[Flushed] = &[
        Flushed(
            b"undo\n\nundo\nquit\nundo\n",
            End::Finished,
            1,
            b"refused: NoGame\n|refused: NoGame\n|",
        ),
        Flushed(b"undo\nundo", End::ReadFault, 2, b"refused: NoGame\n|"),
        Flushed(b"", End::Finished, 1, b""),
    ];
    check(&rt, rt.alloc(), ROWS);
}
