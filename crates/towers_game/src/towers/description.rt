//! The descriptions of Towers puzzles.
//!
//! First come the clues with `/` between them, a digit or nothing for each; then, where a square is given, `,` and the
//! squares in reading order: a letter for a run of 1 to 26 blank squares, a digit for a given, and `_` between two
//! givens that stand side by side. This is the collection's form.

ghost use Rattle.byte_text.specs.Bytes.{slash};
ghost use Rattle.std.specs.Prelude.{◌≡◌, ◌+◌, ◌*◌, ◌<◌, ◌≤◌, ◌==◌, ◌++◌, ◌&&◌, not, false, count_by, true, take};
ghost use Rattle.std.specs.Prelude.{length, if◌then◌else◌, Some, None, Result, Ok, Err, IfOk, IfErr, OnOk, IfSome, IfNone, All};
ghost use Rattle.std.specs.List.{flat_map, list_any};
ghost use Rattle.byte_text.specs.Reading.{Gives};
ghost use Rattle.game_texts.specs.IdFaults.{exactly};
ghost use Rattle.line_steps.specs.Inner.Filled.{IsFilledTo};
ghost use Rattle.towers_game.specs.TowersText.{clue_field, clue_part, given_written, blank_letters, squares_written};
ghost use Rattle.towers_game.specs.TowersText.{towers_text, fields, is_clue_field, clue_in, clues_in, clues_at};
ghost use Rattle.towers_game.specs.TowersText.{is_square_byte, is_square_part, squares_of, givens_at, towers_at};

use crate::towers::{PLACES, Towers};
use byte_text::{begins_with_digit, cut};
use game_texts::IdFault;
use latin_board::{Grid, Size};
use std::alloc::{AllocError, Global};

/// The puzzle of this size that the text describes.
///
/// Refused, in this order, as `TooFew` or `TooMany` clues, `BadClue`, `BadSquares`, `TooFew` or `TooMany` squares.
#[tactic(auto, unfolding(crate::specs::TowersText::towers_at))]
pub(crate) fn read_towers(size: Size, text: &[u8]) -> Result<Towers, IdFault>
    ensures { result ≡ towers_at size text.now }
{
    let (clue_part, square_part) = cut(text, b',');
    let clues = read_clues(size, clue_part)?;
    let givens = match square_part {
        Some(part) => read_givens(size, part)?,
        None => Grid::blank(size),
    };
    Ok(Towers { clues, givens })
}

#[tactic(auto, unfolding(crate::specs::TowersText::clues_at))]
fn read_clues(size: Size, part: &[u8]) -> Result<[u8; PLACES], IdFault>
    ensures value { Gives (λ clues. take (4 * size) clues) result (clues_at size part.now) }
    ensures filled { IfOk result (IsFilledTo 0 36 (4 * size)) }
{
    let wanted = 4 * size.get() as usize;
    let count = field_count(part);
    if count < wanted {
        return Err(IdFault::TooFew);
    }
    if count > wanted {
        return Err(IdFault::TooMany);
    }
    fill_clues(size, part)
}

#[tactic(auto, using(crate::proofs::CluePartLemmas::field_count_by))]
fn field_count(part: &[u8]) -> usize
    ensures { result ≡ length (fields part.now) }
{
    slash_count(part) + 1
}

fn slash_count(part: &[u8]) -> usize
    ensures value { result ≡ count_by (λ b. b == slash) part.now }
    ensures bound { result ≤ length part.now }
{
    part.iter().filter(|b| **b == b'/').count()
}

fn fill_clues(size: Size, part: &[u8]) -> Result<[u8; PLACES], IdFault>
    requires { length (fields part.now) ≡ 4 * size }
    ensures value { Gives (λ clues. take (4 * size) clues) result
        (clues_in size (fields part.now)) }
    ensures filled { IfOk result (IsFilledTo 0 36 (4 * size)) }
{
    let mut clues = [0; PLACES];
    let mut place = 0;
    let mut rest = Some(part);
    while let Some(fields) = rest {
        let (field, more) = cut(fields, b'/');
        clues[place] = read_clue(size, field).ok_or(IdFault::BadClue)?;
        place += 1;
        rest = more;
    }
    Ok(clues)
}

fn read_clue(size: Size, field: &[u8]) -> Option<u8>
    ensures { result ≡ (if is_clue_field size field.now then Some (clue_in field.now) else None) }
{
    match field {
        [] => Some(0),
        [digit @ b'1'..=b'9'] if *digit - b'0' <= size.get() => Some(*digit - b'0'),
        _ => None,
    }
}

#[tactic(auto, unfolding(crate::specs::TowersText::givens_at))]
fn read_givens(size: Size, part: &[u8]) -> Result<Grid, IdFault>
    ensures value { Gives (λ givens. givens.numbers) result (givens_at size part.now) }
    ensures size { IfOk result (λ givens. givens.size ≡ size) }
{
    if !is_square_part(size, part) {
        return Err(IdFault::BadSquares);
    }
    fill_givens(size, part)
}

fn is_square_part(size: Size, part: &[u8]) -> bool
    ensures { result ≡ is_square_part size part.now }
{
    let mut rest = part;
    while let [byte, after @ ..] = rest {
        if !is_square_byte(size, *byte, after) {
            return false;
        }
        rest = after;
    }
    true
}

fn is_square_byte(size: Size, byte: u8, after: &[u8]) -> bool
    ensures { result ≡ is_square_byte size byte after.now }
{
    match byte {
        b'_' | b'a'..=b'z' => true,
        b'1'..=b'9' => byte - b'0' <= size.get() && !begins_with_digit(after),
        _ => false,
    }
}

fn fill_givens(size: Size, part: &[u8]) -> Result<Grid, IdFault>
    requires { is_square_part size part.now ≡ true }
    ensures value { Gives (λ givens. givens.numbers) result
        (exactly (size * size) (flat_map squares_of part.now)) }
    ensures size { IfOk result (λ givens. givens.size ≡ size) }
{
    let width = size.get() as usize;
    let mut givens = Grid::blank(size);
    let mut cell = 0;
    let mut rest = part;
    while let [byte, after @ ..] = rest {
        cell = put_squares(&mut givens, cell, *byte).ok_or(IdFault::TooMany)?;
        rest = after;
    }
    if cell < width * width {
        return Err(IdFault::TooFew);
    }
    Ok(givens)
}

// Puts the squares of a byte from `cell` on, and gives the cell after them; `None` where they don't fit.
#[tactic(auto, using(crate::proofs::GivensFilled::digit_filled, crate::proofs::GivensFilled::letter_filled, crate::proofs::GivensFilled::letter_taken))]
fn put_squares(givens: &mut Grid, cell: usize, byte: u8) -> Option<usize>
    requires filled { IsFilledTo 0 (givens.old.size * givens.old.size) cell givens.old.numbers }
    requires within { All (λ n. n ≤ givens.old.size) (squares_of byte) }
    ensures size { givens.new.size ≡ givens.old.size }
    ensures next { IfSome result (λ next. next ≡ cell + length (squares_of byte)) }
    ensures filled { IfSome result (λ next.
        IsFilledTo 0 (givens.old.size * givens.old.size) next givens.new.numbers) }
    ensures numbers { IfSome result (λ next.
        take next givens.new.numbers ≡ take cell givens.old.numbers ++ squares_of byte) }
    ensures full { IfNone result
        (givens.old.size * givens.old.size < cell + length (squares_of byte)) }
{
    let width = givens.size().get() as usize;
    let left = width * width - cell;
    match byte {
        b'a'..=b'z' => {
            let run = (byte - b'a' + 1) as usize;
            if run <= left { Some(cell + run) } else { None }
        }
        b'0'..=b'9' => {
            if left == 0 {
                return None;
            }
            givens.set(cell, byte - b'0');
            Some(cell + 1)
        }
        _ => Some(cell),
    }
}

// The longest text that is written: 36 clues with 35 slashes, a comma, and 81 squares, each a given after `_`.
const LONGEST: usize = 36 + 35 + 1 + 2 * 81;

/// The written form of a puzzle's description.
///
/// `OutOfMemory` where there is no memory for the text.
pub(crate) fn write_towers(alloc: Global, puzzle: &Towers) -> Result<Vec<u8>, IdFault>
    ensures written { IfOk result (λ text. text.items ≡ towers_text puzzle.now) }
    ensures refused { IfErr result (λ fault. fault ≡ IdFault.OutOfMemory) }
{
    let mut text = Vec::with_capacity(alloc, LONGEST)?;
    push_clues(&mut text, puzzle.clues())?;
    if has_given(puzzle.givens()) {
        text.push(b',')?;
        push_squares(&mut text, puzzle.givens())?;
    }
    Ok(text)
}

fn push_clues(text: &mut Vec<u8>, clues: &[u8]) -> Result<(), AllocError>
    requires { All (λ clue. clue ≤ 9) clues.now }
    ensures { OnOk result (text.new.items ≡ text.old.items ++ clue_part clues.now) }
{
    let Some((first, others)) = clues.split_first() else {
        return Ok(());
    };
    push_clue(text, *first)?;
    for clue in others {
        text.push(b'/')?;
        push_clue(text, *clue)?;
    }
    Ok(())
}

fn push_clue(text: &mut Vec<u8>, clue: u8) -> Result<(), AllocError>
    requires { clue ≤ 9 }
    ensures { OnOk result (text.new.items ≡ text.old.items ++ clue_field clue) }
{
    if clue > 0 {
        text.push(b'0' + clue)?;
    }
    Ok(())
}

fn has_given(givens: &Grid) -> bool
    ensures { result ≡ list_any (λ n. not (n == 0)) givens.now.numbers }
{
    let width = givens.size().get() as usize;
    for cell in 0..width * width {
        if givens.get(cell) != 0 {
            return true;
        }
    }
    false
}

fn push_squares(text: &mut Vec<u8>, givens: &Grid) -> Result<(), AllocError>
    ensures { OnOk result (text.new.items
        ≡ text.old.items ++ squares_written 0 false givens.now.numbers) }
{
    let width = givens.size().get() as usize;
    let mut blanks = 0;
    let mut after_given = false;
    for cell in 0..width * width {
        let square = givens.get(cell);
        if square == 0 {
            blanks += 1;
        } else {
            push_given(text, blanks, after_given, square)?;
            blanks = 0;
            after_given = true;
        }
    }
    push_blanks(text, blanks)
}

// Writes a given after its run of blank squares, or after another given.
fn push_given(
    text: &mut Vec<u8>,
    blanks: usize,
    after_given: bool,
    square: u8,
) -> Result<(), AllocError>
    requires { square ≤ 9 }
    ensures { OnOk result (text.new.items
        ≡ text.old.items ++ given_written blanks after_given square) }
{
    push_blanks(text, blanks)?;
    if blanks == 0 && after_given {
        text.push(b'_')?;
    }
    text.push(b'0' + square)?;
    Ok(())
}

fn push_blanks(text: &mut Vec<u8>, blanks: usize) -> Result<(), AllocError>
    ensures { OnOk result (text.new.items ≡ text.old.items ++ blank_letters blanks) }
{
    if blanks == 0 {
        return Ok(());
    }
    for _written in 0..(blanks - 1) / 26 {
        text.push(b'z')?;
    }
    text.push(b'a' + ((blanks - 1) % 26) as u8)?;
    Ok(())
}
