//! Squares and games of seeds, fair ones too.

use crate::calls::made::add_digits;
use clue_rules::{Game, Params, Towers, Unequal};
use fair_games::{FairFault, FairGame, fair, grade_of_letter};
use latin_board::Size;
use puzzle_gen::{generate, square};
use std::alloc::Global;
use std::io;

/// The numbers of the seed's square.
fn square_text(alloc: Global, size: Size, seed: u64) -> io::Result<Vec<u8>> {
    let mut text = Vec::new(alloc);
    add_digits(&mut text, &square(size, seed))?;
    Ok(text)
}

/// The ID of the seed's game, or the name of the refusal.
fn game_text<P: Game>(alloc: Global, size: Size, seed: u64) -> io::Result<Vec<u8>> {
    let params = Params { size, letter: None };
    let puzzle = match generate::<P>(&params, seed) {
        Ok(puzzle) => puzzle,
        Err(fault) => return Ok(fault.name().as_bytes().to_vec(alloc)?),
    };
    id_text(alloc, &params, &puzzle)
}

/// The ID of a puzzle.
fn id_text<P: Game>(alloc: Global, params: &Params, puzzle: &P) -> io::Result<Vec<u8>> {
    let mut text = Vec::new(alloc);
    text.extend_from_slice(params.write().as_slice())?;
    text.push(b':')?;
    if let Ok(desc) = puzzle.write_desc(alloc) {
        text.extend_from_slice(&desc)?;
    }
    Ok(text)
}

/// The ID of the seed's fair game, or the name of the refusal.
fn fair_text<P: FairGame>(alloc: Global, size: Size, letter: u8, seed: u64) -> io::Result<Vec<u8>> {
    let Some(grade) = grade_of_letter::<P>(letter) else {
        return Ok(FairFault::NotOffered.name().as_bytes().to_vec(alloc)?);
    };
    let letter = Some(letter);
    match fair::<P>(size, grade, seed) {
        Ok(puzzle) => id_text(alloc, &Params { size, letter }, &puzzle),
        Err(fault) => Ok(fault.name().as_bytes().to_vec(alloc)?),
    }
}

/// The words of a line: what is asked for, a size, a letter where a fair game is, and a seed.
fn read_line(line: &str) -> Option<(&str, Size, Option<u8>, u64)> {
    let (kind, rest) = line.strip_prefix("fair ").unwrap_or(line).split_once(' ')?;
    let (width, rest) = rest.split_once(' ')?;
    let (letter, seed) = match rest.split_once(' ') {
        Some((letter, seed)) => (letter.as_bytes().first().copied(), seed),
        None => (None, rest),
    };
    let size = Size::new(width.parse::<u8>().ok()?)?;
    Some((kind, size, letter, seed.parse::<u64>().ok()?))
}

/// The answer to a line: a square's numbers in reading order, or a game's ID; a question mark where nothing is asked.
pub(crate) fn seeded_answer(alloc: Global, line: &str) -> io::Result<Vec<u8>> {
    let Some((kind, size, letter, seed)) = read_line(line) else {
        return Ok(b"?".to_vec(alloc)?);
    };
    match (kind, letter) {
        ("square", None) => square_text(alloc, size, seed),
        ("towers", None) => game_text::<Towers>(alloc, size, seed),
        ("unequal", None) => game_text::<Unequal>(alloc, size, seed),
        ("towers", Some(letter)) => fair_text::<Towers>(alloc, size, letter, seed),
        ("unequal", Some(letter)) => fair_text::<Unequal>(alloc, size, letter, seed),
        _ => Ok(b"?".to_vec(alloc)?),
    }
}
