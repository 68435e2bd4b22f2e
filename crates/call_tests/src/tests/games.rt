//! Games from the words of a command line to the file that is saved, over files of the tests' own, in the plain format and in
//! another one.

ghost use Rattle.std.specs.Prelude.{◌≡◌, false};

use super::rows::{Row, check};
use play_midend::Session;
use puzzle_cli::{
    Draw, Facts, Fault, Format, GameFiles, Plain, Response, Text, Unwritten, play, read_words,
};
use puzzle_io::{MemorySink, MemorySource, Sink, Source};
use std::alloc::Global;
use std::io;
use std::io::ErrorKind;

const LOADED: &str = "SAVEFILE:41:Simon Tatham's Portable Puzzle Collection
VERSION :1:1
GAME    :6:Towers
PARAMS  :1:3
CPARAMS :1:3
DESC    :13:3//////3/////
NSTATES :1:2
STATEPOS:1:2
MOVE    :6:R0,0,1
";

const SAVED: &str = "SAVEFILE:41:Simon Tatham's Portable Puzzle Collection
VERSION :1:1
GAME    :6:Towers
PARAMS  :1:3
CPARAMS :1:3
DESC    :13:3//////3/////
NSTATES :1:3
STATEPOS:1:3
MOVE    :6:R0,0,1
MOVE    :6:R1,0,2
";

// Files that give one text, at `old.sav`, and take one, at `new.sav`.
#[derive(Drop)]
struct TwoFiles {
    alloc: Global,
}

impl GameFiles for TwoFiles {
    ghost reads = { λ _ _ _ _ _. Unit {0} };

    ghost writes = { λ _ _ _ _ _. Unit {0} };

    fn read(&mut self, path: &str, most: usize) -> io::Result<Vec<u8>> {
        if path != "old.sav" || most < LOADED.len() {
            return Err(io::Error::from(ErrorKind::NotFound));
        }
        match Vec::from_slice(self.alloc, LOADED.as_bytes()) {
            Ok(bytes) => Ok(bytes),
            Err(_) => Err(io::Error::from(ErrorKind::OutOfMemory)),
        }
    }

    fn write(&mut self, path: &str, bytes: &[u8]) -> Result<(), Unwritten> {
        if path == "new.sav" && bytes == SAVED.as_bytes() {
            Ok(())
        } else {
            Err(Unwritten::Failed(io::Error::from(ErrorKind::Other)))
        }
    }
}

// Answers by a dot where the plain reply has any bytes.
enum Dots {}

impl<P: Draw> Format<P> for Dots {
    ghost use Rattle.std.specs.Prelude.{ℕ, List};
    ghost use Rattle.puzzle_cli.specs.Replies.{Reply};

    ghost reply = { λ old line _ new.
        (said : List ℕ) × Reply ⟦<P as Facts>⟧.facts old line said new };

    ghost leaves_as_answers = { λ _ _ line _ told. (line, (told.1.0, told.1.1, told.1.3)) };

    fn answer(alloc: Global, session: &mut Option<Session<P>>, line: Option<&[u8]>) -> Response {
        match <Plain as Format<P>>::answer(alloc, session, line) {
            Response::Reply(_) => Response::Reply(Text::line(".")),
            silent => silent,
        }
    }
}

// The words, whether the answers are dots, the input, the output, and the status and the line at the end.
struct Played(
    &'static [&'static str],
    bool,
    &'static [u8],
    &'static [u8],
    u8,
    &'static str,
);

impl Played {
    fn has_ended(&self, ended: Result<(), Fault>) -> bool {
        match ended {
            Ok(()) => self.4 == 0 && self.5.is_empty(),
            Err(fault) => fault.status() == self.4 && fault.line().as_str() == self.5,
        }
    }

    fn is_played(&self, alloc: Global, mut source: MemorySource, mut sink: MemorySink) -> bool
        requires source { ⟦<MemorySource as Source>⟧.has_failed source ≡ false }
        requires sink { ⟦<MemorySink as Sink>⟧.has_failed sink ≡ false }
    {
        let mut files = TwoFiles { alloc };
        let Ok(args) = read_words(alloc, self.0) else {
            return false;
        };
        let ended = if self.1 {
            play::<Dots, _, _, _>(alloc, &args, &mut files, &mut source, &mut sink)
        } else {
            play::<Plain, _, _, _>(alloc, &args, &mut files, &mut source, &mut sink)
        };
        sink.taken() == self.3 && self.has_ended(ended)
    }
}

impl Row for Played {
    fn holds(&self, alloc: Global) -> bool {
        match (Vec::from_slice(alloc, self.2), vec![in alloc; 0; 512]) {
            (Ok(input), Ok(room)) => self.is_played(
                alloc,
                MemorySource::new(input, 512, 0),
                MemorySink::new(room, 512, 0),
            ),
            _ => false,
        }
    }
}

// Another session than the one that is left, or another file, would be refused by the files above.
#[test]
fn games_are_played_and_saved(rt: HostRuntime) {
    const LOADS: &[&str] = &[
        "puzzles", "towers", "--load", "old.sav", "--save", "new.sav",
    ];
    const UNWRITTEN: &str = "cannot write the file";
    const ROWS: &[Played] = &[
        Played(LOADS, false, b"move R1,0,2\n", b"ok\n", 0, ""),
        Played(LOADS, false, b"undo\n", b"ok\n", 1, UNWRITTEN),
        Played(
            LOADS,
            true,
            b"move R1,0,2\n\nshow\nundo it\nquit\nundo\n",
            b".\n.\n.\n",
            0,
            "",
        ),
    ];
    check(&rt, rt.alloc(), ROWS);
}
