//! Runs over devices in memory: pieces, faults, flushes, and an input without end. Games without faults are played from outside.

mod flushes;
mod input_limit;

use super::rows::{Row, check};
use clue_rules::Towers;
use play_midend::Session;
use puzzle_cli::{End, run, status_text};
use puzzle_io::{MemorySink, MemorySource};
use std::alloc::{AllocError, Global};

// How a run ends, what it writes, and the status of the session that it leaves, where it leaves one.
#[derive(Clone, Copy)]
struct Left(End, &'static [u8], Option<&'static str>);

// The first bytes of an input, then so many letters x, and its last bytes.
fn input_of(alloc: Global, front: &str, letters: usize, last: &str) -> Result<Vec<u8>, AllocError> {
    let mut input = Vec::new(alloc);
    input.extend_from_slice(front.as_bytes())?;
    for _ in 0..letters {
        input.push(b'x')?;
    }
    input.extend_from_slice(last.as_bytes())?;
    Ok(input)
}

// Whether the session that is left has this status, or none is left.
fn has_status(session: &Option<Session<Towers>>, status: Option<&str>) -> bool {
    match (session, status) {
        (Some(session), Some(status)) => status_text(session).as_str() == status,
        (None, None) => true,
        _ => false,
    }
}

// Whether the run of the input leaves that, over a source and a sink that give and take so many bytes in a call; which calls of
// theirs fail, or 0 for none; and the room of the sink.
fn leaves(
    alloc: Global,
    input: Vec<u8>,
    piece: usize,
    fails_at: (u64, u64),
    room: usize,
    left: &Left,
) -> bool {
    match vec![in alloc; 0; room] {
        Ok(room) if piece >= 1 => {
            let mut source = MemorySource::new(input, piece, fails_at.0);
            let mut sink = MemorySink::new(room, piece, fails_at.1);
            let (session, end) = run::<Towers, _, _>(alloc, None, &mut source, &mut sink);
            end == left.0 && sink.taken() == left.1 && has_status(&session, left.2)
        }
        _ => false,
    }
}

// The first bytes of an input, so many letters x, its last bytes, what is written, and the status that is left; in pieces.
struct Lines(
    &'static str,
    usize,
    &'static str,
    &'static [u8],
    Option<&'static str>,
);

impl Lines {
    fn are_answered(&self, alloc: Global, piece: usize) -> bool {
        let left = Left(End::Finished, self.3, self.4);
        match input_of(alloc, self.0, self.1, self.2) {
            Ok(input) => leaves(alloc, input, piece, (0, 0), self.3.len(), &left),
            Err(_) => false,
        }
    }
}

impl Row for Lines {
    fn holds(&self, alloc: Global) -> bool {
        self.are_answered(alloc, 1) && self.are_answered(alloc, 512)
    }
}

const NEW: &str = "new 3:3//////3/////\n";

const BEGUN: Option<&str> = Some("playing 1/1");

// A line has at most 1,024 bytes: the CR is counted, the LF is not. The last one needs no LF.
#[test]
fn lines_are_answered_in_pieces(rt: HostRuntime) {
    const ROWS: &[Lines] = &[
        Lines("\n\r\nundo", 0, "", b"refused: NoGame\n", None),
        Lines(
            NEW,
            0,
            "status\r\nquit\nstatus\n",
            b"ok\nplaying 1/1\n",
            BEGUN,
        ),
        Lines("", 1_024, "\n", b"refused: BadCommand\n", None),
        Lines("", 1_025, "", b"refused: LongLine\n", None),
        Lines("", 1_023, "\r\n", b"refused: BadCommand\n", None),
        Lines("", 1_024, "\r\n", b"refused: LongLine\n", None),
        Lines(
            NEW,
            9_000,
            "\nundo\n",
            b"ok\nrefused: LongLine\nrefused: NothingToUndo\n",
            BEGUN,
        ),
    ];
    check(&rt, rt.alloc(), ROWS);
}

// The read and the write or flush that fail, or 0 for none, the room of the sink, and what is left of the game below.
struct Broken(u64, u64, usize, Left);

const GAME: &str = "new 3:3//////3/////\nmove R0,0,1\nundo\nund";

const MOVED: Option<&str> = Some("playing 2/2");

impl Row for Broken {
    fn holds(&self, alloc: Global) -> bool {
        match input_of(alloc, GAME, 0, "") {
            Ok(input) => leaves(alloc, input, 20, (self.0, self.1), self.2, &self.3),
            Err(_) => false,
        }
    }
}

// A line that a fault cuts has no reply. Of a reply whose write fails nothing is written, and its move is made all the same.
#[test]
fn a_run_ends_at_a_fault(rt: HostRuntime) {
    const ROWS: &[Broken] = &[
        Broken(1, 0, 512, Left(End::ReadFault, b"", None)),
        Broken(2, 0, 512, Left(End::ReadFault, b"ok\n", BEGUN)),
        Broken(0, 3, 512, Left(End::WriteFault, b"ok\n", MOVED)),
        Broken(0, 4, 512, Left(End::WriteFault, b"ok\nok\n", MOVED)),
        Broken(0, 0, 4, Left(End::WriteFault, b"ok\no", MOVED)),
    ];
    check(&rt, rt.alloc(), ROWS);
}
