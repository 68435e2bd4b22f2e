//! The calls on a session or a puzzle, each with what it says as text.

use crate::tests::worked::grid_of;
use client::Latin;
use clue_rules::{Game, GameId, Params, read_id};
use latin_board::{Grid, Size};
use play_midend::{Extras, Session, change_of, read_move, write_move};
use play_save::{load, next_record, save};
use puzzle_cli::{Draw, begin, read_words};
use puzzle_gen::{generate, square};
use std::alloc::Global;
use trail_solver::{Answer, Rules, solutions, solve, solves};

/// The value that a call gives, or the name of its refusal.
pub(crate) type Said<T> = Result<T, &'static str>;

const MEMORY: &str = "OutOfMemory";

pub(crate) fn copied(alloc: Global, bytes: &[u8]) -> Said<Vec<u8>> {
    Vec::from_slice(alloc, bytes).map_err(|_| MEMORY)
}

// One more part, with a bar after it.
fn add(text: &mut Vec<u8>, part: &[u8]) -> Said<()> {
    if text.extend_from_slice(part).is_err() || text.push(b'|').is_err() {
        return Err(MEMORY);
    }
    Ok(())
}

pub(crate) fn begun(alloc: Global, id: &str) -> Said<Session<Latin>> {
    match begin::<Latin>(alloc, Some(id.as_bytes()), None) {
        Ok(Some(session)) => Ok(session),
        Ok(None) => Err("none"),
        Err(fault) => Err(fault.name()),
    }
}

// The description of the puzzle of the ID that a command line names.
pub(crate) fn begun_by_words(alloc: Global, words: &[&str]) -> Said<Vec<u8>> {
    let args = read_words(alloc, words).map_err(|fault| fault.name())?;
    match &args.id {
        Some(id) => described(alloc, begun(alloc, id.as_str())?.puzzle()),
        None => Err("no ID"),
    }
}

pub(crate) fn described(alloc: Global, puzzle: &Latin) -> Said<Vec<u8>> {
    puzzle.write_desc(alloc).map_err(|fault| fault.name())
}

pub(crate) fn id_read(alloc: Global, id: &str) -> Said<Vec<u8>> {
    match read_id::<Latin>(id.as_bytes()) {
        Ok(GameId::Described(_, puzzle)) => described(alloc, &puzzle),
        Ok(GameId::Seeded(_, _)) => copied(alloc, b"seeded"),
        Err(fault) => Err(fault.name()),
    }
}

// Parameters as they are written again.
pub(crate) fn params_written(alloc: Global, text: &str) -> Said<Vec<u8>> {
    let params = Params::read::<Latin>(text.as_bytes()).map_err(|fault| fault.name())?;
    copied(alloc, &params.write())
}

// A session of the puzzle that keeps a seed.
pub(crate) fn kept(alloc: Global, puzzle: Latin, seed: &[u8]) -> Said<Session<Latin>> {
    let params = Params {
        size: puzzle.size(),
        letter: Some(b'n'),
    };
    let extras = Extras {
        seed: Some(copied(alloc, seed)?),
        auxinfo: None,
        ui: None,
        time: None,
    };
    Session::new(alloc, params, params, puzzle, extras).map_err(|fault| fault.name())
}

// The text of the move as it is written again.
pub(crate) fn moved(alloc: Global, session: &mut Session<Latin>, text: &str) -> Said<Vec<u8>> {
    let made = read_move(text.as_bytes()).map_err(|fault| fault.name())?;
    session.play(made).map_err(|fault| fault.name())?;
    write_move(alloc, &made).map_err(|fault| fault.name())
}

// The picture of the board as the move changes it, where a second exchange gives back the board that there was.
pub(crate) fn changed(alloc: Global, session: &Session<Latin>, text: &str) -> Said<Vec<u8>> {
    let made = read_move(text.as_bytes()).map_err(|fault| fault.name())?;
    let mut board = *session.board();
    let mut change = match change_of(alloc, session.puzzle(), &board, &made) {
        Ok(change) => change,
        Err(fault) => return Err(fault.name()),
    };
    board.swap(&mut change);
    let drawn = session.puzzle().draw(alloc, &board);
    board.swap(&mut change);
    match drawn {
        Ok(text) if board == *session.board() => Ok(text),
        Ok(_) => Err("another board"),
        Err(fault) => Err(fault.name()),
    }
}

pub(crate) fn reloaded(alloc: Global, session: &Session<Latin>) -> Said<Session<Latin>> {
    let text = save(alloc, session).map_err(|fault| fault.name())?;
    load::<Latin>(alloc, &text).map_err(|fault| fault.name())
}

// The game's name and letters, the session's parameters, those of the next game, and the seed that is kept.
pub(crate) fn facts(alloc: Global, session: &Session<Latin>) -> Said<Vec<u8>> {
    let mut text = Vec::new(alloc);
    add(&mut text, Latin::name().as_bytes())?;
    add(&mut text, Latin::letters().as_bytes())?;
    add(&mut text, &session.params().write())?;
    add(&mut text, &session.next_params().write())?;
    match &session.extras().seed {
        Some(seed) => add(&mut text, seed)?,
        None => add(&mut text, b"none")?,
    }
    Ok(text)
}

// The key, the value and what follows.
pub(crate) fn first_record(alloc: Global, text: &[u8]) -> Said<Vec<u8>> {
    match next_record(text) {
        Ok(Some((record, rest))) => {
            let mut told = Vec::new(alloc);
            add(&mut told, record.key)?;
            add(&mut told, record.value)?;
            add(&mut told, rest)?;
            Ok(told)
        }
        Ok(None) => copied(alloc, b"none"),
        Err(fault) => Err(fault.name()),
    }
}

pub(crate) fn listed(alloc: Global, puzzle: &Latin) -> Said<Vec<u8>> {
    let grids = solutions(alloc, puzzle, 100).map_err(|_| MEMORY)?;
    let mut text = Vec::new(alloc);
    for grid in &grids {
        if !grid.is_latin() {
            return Err("no square");
        }
        let part = described(alloc, &Latin::full(grid))?;
        if text.extend_from_slice(&part).is_err() || text.push(b';').is_err() {
            return Err(MEMORY);
        }
    }
    Ok(text)
}

// Whether the grid of width 3 with these digits solves the puzzle.
pub(crate) fn is_solved_by(puzzle: &Latin, digits: &str) -> bool {
    match grid_of(digits) {
        Some(grid) if grid.size().get() == puzzle.size().get() => solves(puzzle, &grid),
        _ => false,
    }
}

// Whether the puzzle of a seed has that seed's square as its only solution.
fn is_lawful(puzzle: &Latin, wanted: &Grid) -> bool {
    match solve(puzzle) {
        Answer::One(grid) => grid == *wanted,
        _ => false,
    }
}

pub(crate) fn generated(alloc: Global, width: u8, seed: u64) -> Said<Vec<u8>> {
    let Some(size) = Size::new(width) else {
        return Err("no size");
    };
    match generate::<Latin>(&Params { size, letter: None }, seed) {
        Ok(puzzle) if is_lawful(&puzzle, &square(size, seed)) => copied(alloc, b"one"),
        Ok(_) => Err("not one"),
        Err(fault) => Err(fault.name()),
    }
}
