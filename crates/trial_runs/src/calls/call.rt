//! The calls that take memory, and some that are refused by their own names before they take any.

use crate::calls::fixture::{Start, play};
use crate::calls::made::Made;
use clue_rules::Params;
use latin_board::Change;
use play_midend::{Extras, PlayFault, Session, change_of, read_move, write_move};
use play_save::{load, save};
use puzzle_cli::{Draw, begin, marks_text, picture, read_words};
use std::alloc::Global;
use trail_solver::solutions;

/// A call.
pub(crate) enum Call {
    New,
    /// The move that a text spells.
    Play(&'static str),
    Restart,
    Solve,
    /// The change that makes the move of a text.
    ChangeOf(&'static str),
    Whole,
    /// The text of a move, which is read first.
    WriteMove(&'static str),
    WriteDesc,
    Draw,
    Picture,
    MarksText,
    Save,
    /// The session's own save.
    Load,
    /// The first session of the game ID, or of a seed of size 4.
    Begin,
    BeginSeed,
    /// The first session of the session's own save.
    BeginFile,
    ReadWords,
    Solutions,
}

/// The words that are read.
static WORDS: [&str; 6] = [
    "puzzles",
    "towers",
    "--id",
    "3:3//////3/////",
    "--save",
    "a.sav",
];

/// The calls by name, each with the place where its session stands. The names of those that are refused by names of their own
/// begin with `wrong-` or `full-`.
pub(crate) static CALLS: [(&str, Start, Call); 35] = [
    ("new", Start::Undone, Call::New),
    ("play-number", Start::AtEnd, Call::Play("R2,2,2")),
    ("play-pencil", Start::AtEnd, Call::Play("P2,2,1")),
    ("play-marks", Start::Undone, Call::Play("M")),
    ("play-solution", Start::Undone, Call::Play("S123231312")),
    ("restart", Start::Undone, Call::Restart),
    ("solve", Start::Undone, Call::Solve),
    ("change-of-marks", Start::Undone, Call::ChangeOf("M")),
    (
        "change-of-solution",
        Start::Undone,
        Call::ChangeOf("S123231312"),
    ),
    ("whole", Start::Undone, Call::Whole),
    ("write-number", Start::Undone, Call::WriteMove("R0,0,1")),
    ("write-pencil", Start::Undone, Call::WriteMove("P0,0,1")),
    ("write-marks", Start::Undone, Call::WriteMove("M")),
    (
        "write-solution",
        Start::Undone,
        Call::WriteMove("S123231312"),
    ),
    ("write-done", Start::Undone, Call::WriteMove("D-1,0")),
    ("write-desc", Start::Undone, Call::WriteDesc),
    ("draw", Start::Undone, Call::Draw),
    ("picture", Start::Undone, Call::Picture),
    ("marks-text", Start::Undone, Call::MarksText),
    ("save", Start::Undone, Call::Save),
    ("load", Start::Undone, Call::Load),
    ("begin", Start::Undone, Call::Begin),
    ("begin-seed", Start::Undone, Call::BeginSeed),
    ("begin-file", Start::Undone, Call::BeginFile),
    ("read-words", Start::Undone, Call::ReadWords),
    ("solutions", Start::Undone, Call::Solutions),
    ("wrong-square", Start::AtEnd, Call::Play("R9,0,1")),
    ("wrong-number", Start::AtEnd, Call::Play("R0,0,4")),
    ("wrong-pencil", Start::AtEnd, Call::Play("P0,0,1")),
    ("wrong-clue", Start::AtEnd, Call::Play("D1,1")),
    ("wrong-solution", Start::AtEnd, Call::Play("S213132321")),
    ("full-number", Start::Full, Call::Play("R2,2,2")),
    ("full-marks", Start::Full, Call::Play("M")),
    ("full-restart", Start::Full, Call::Restart),
    ("full-solve", Start::Full, Call::Solve),
];

/// The call of this name, and where its session stands.
pub(crate) fn call_named(name: &str) -> Option<(Start, &'static Call)> {
    for (own, start, call) in CALLS.iter() {
        if *own == name {
            return Some((*start, call));
        }
    }
    None
}

/// Stands for the name of a refusal where memory was refused before the call.
pub(crate) const FIXTURE: &str = "fixture";

/// Makes a call in a session of the puzzle of a game ID, or gives the name of its refusal.
pub(crate) fn make<P: Draw>(
    alloc: Global,
    id: &str,
    session: &mut Session<P>,
    call: &Call,
) -> Result<Made<P>, &'static str> {
    match call {
        Call::Play(text) => play(session, text.as_bytes()).map_err(|fault| fault.name())?,
        Call::Restart => session.restart().map_err(|fault| fault.name())?,
        Call::Solve => session.solve().map_err(|fault| fault.name())?,
        call => return made(alloc, id, session, call),
    }
    Ok(Made::Nothing)
}

// The calls that leave the session as it is.
fn made<P: Draw>(
    alloc: Global,
    id: &str,
    session: &Session<P>,
    call: &Call,
) -> Result<Made<P>, &'static str> {
    match call {
        Call::New => begun_again(alloc, session),
        Call::Begin => first_session(alloc, id.as_bytes()),
        Call::BeginSeed => first_session(alloc, b"4!7"),
        Call::BeginFile => session_of_file(alloc, session),
        Call::Load => loaded(alloc, session),
        Call::ReadWords => match read_words(alloc, WORDS.as_slice()) {
            Ok(args) => Ok(Made::Words(args)),
            Err(fault) => Err(fault.name()),
        },
        Call::ChangeOf(text) => changed(alloc, session, text),
        Call::Whole => match Change::whole(alloc, *session.board()) {
            Ok(_change) => Ok(Made::Nothing),
            Err(fault) => Err(fault.name()),
        },
        Call::Solutions => match solutions(alloc, session.puzzle(), 12) {
            Ok(grids) => Ok(Made::Grids(grids)),
            Err(fault) => Err(fault.name()),
        },
        call => Ok(Made::Text(text_of(alloc, session, call)?)),
    }
}

fn begun_again<P: Draw>(alloc: Global, session: &Session<P>) -> Result<Made<P>, &'static str> {
    let puzzle = *session.puzzle();
    let params = Params {
        size: puzzle.size(),
        letter: None,
    };
    let next_params = params;
    let extras = Extras {
        seed: None,
        auxinfo: None,
        ui: None,
        time: None,
    };
    match Session::new(alloc, params, next_params, puzzle, extras) {
        Ok(session) => Ok(Made::Session(session)),
        Err(fault) => Err(fault.name()),
    }
}

fn first_session<P: Draw>(alloc: Global, id: &[u8]) -> Result<Made<P>, &'static str> {
    match begin::<P>(alloc, Some(id), None) {
        Ok(session) => Ok(Made::First(session)),
        Err(fault) => Err(fault.name()),
    }
}

fn session_of_file<P: Draw>(alloc: Global, session: &Session<P>) -> Result<Made<P>, &'static str> {
    let file = save(alloc, session).map_err(|_| FIXTURE)?;
    match begin::<P>(alloc, None, Some(&file)) {
        Ok(session) => Ok(Made::First(session)),
        Err(fault) => Err(fault.name()),
    }
}

fn loaded<P: Draw>(alloc: Global, session: &Session<P>) -> Result<Made<P>, &'static str> {
    let file = save(alloc, session).map_err(|_| FIXTURE)?;
    match load::<P>(alloc, &file) {
        Ok(session) => Ok(Made::Session(session)),
        Err(fault) => Err(fault.name()),
    }
}

fn changed<P: Draw>(
    alloc: Global,
    session: &Session<P>,
    text: &str,
) -> Result<Made<P>, &'static str> {
    let m = read_move(text.as_bytes()).map_err(|fault| fault.name())?;
    match change_of(alloc, session.puzzle(), session.board(), &m) {
        Ok(_change) => Ok(Made::Nothing),
        Err(fault) => Err(fault.name()),
    }
}

// The calls that make a text.
fn text_of<P: Draw>(
    alloc: Global,
    session: &Session<P>,
    call: &Call,
) -> Result<Vec<u8>, &'static str> {
    let puzzle = session.puzzle();
    match call {
        Call::WriteMove(text) => written(alloc, text).map_err(|fault| fault.name()),
        Call::WriteDesc => puzzle.write_desc(alloc).map_err(|fault| fault.name()),
        Call::Draw => puzzle
            .draw(alloc, session.board())
            .map_err(|fault| fault.name()),
        Call::Picture => picture(alloc, session).map_err(|fault| fault.name()),
        Call::MarksText => marks_text(alloc, session).map_err(|fault| fault.name()),
        _ => save(alloc, session).map_err(|fault| fault.name()),
    }
}

fn written(alloc: Global, text: &str) -> Result<Vec<u8>, PlayFault> {
    write_move(alloc, &read_move(text.as_bytes())?)
}
