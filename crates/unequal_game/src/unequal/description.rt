//! The descriptions of Unequal puzzles.
//!
//! Each square in reading order has a piece: its number, 0 where none is given, and a letter `U`, `R`, `D` or `L` for
//! each neighbour than which it is greater. Commas separate the pieces. This is the collection's form.

ghost use Rattle.std.specs.Prelude.{◌≡◌, ◌*◌, ◌<◌, ◌++◌, [], ◌∷◌, true, false, length, IfSome, IfNone, Some, None};
ghost use Rattle.std.specs.Prelude.{IfOk, IfErr, OnOk, Ok, if◌then◌else◌};
ghost use Rattle.std.specs.List.{list_all, list_any, range_with_len};
ghost use Rattle.unequal_game.specs.Unequal.{sign_towards};
ghost use Rattle.unequal_game.specs.Inner.UnequalFields.{HoldsSignsOf};
ghost use Rattle.unequal_game.specs.UnequalText.{letter_of, is_greater_towards, piece_written, unequal_text, begins_with_number};
ghost use Rattle.unequal_game.specs.UnequalText.{grid_in, has_letters, points_inside, piece_at, says_greater, sign_said};
ghost use Rattle.unequal_game.specs.UnequalText.{contradicts, puzzle_at, unequal_at};
ghost use Rattle.unequal_game.specs.Inner.UnequalPieces.{texts_of, contradicts_towards};

use crate::unequal::direction::Direction;
use crate::unequal::pieces::{has_letters, number_in, pieces_of, points_inside, says};
use crate::unequal::sign::Sign;
use crate::unequal::{Unequal, square_count};
use game_texts::IdFault;
use latin_board::{CELLS, Grid, Size};
use std::alloc::{AllocError, Global};
use trail_solver::Rules;

/// Reads the description of a puzzle of this size. Letters may stand in any order and repeat, and the last comma may be
/// missing.
///
/// The refusals are, over the whole text and in this order: `TooFew` or `TooMany` pieces; `BadSquares`, where a piece
/// doesn't begin with one digit from 0 to the width; `BadClue`, where a byte after it is none of the letters;
/// `OffGrid`, where a letter points out of the grid; `Contradiction`, where two squares are each said to be the greater.
#[tactic(auto, unfolding(crate::specs::UnequalText::unequal_at))]
pub(crate) fn read_unequal(size: Size, text: &[u8]) -> Result<Unequal, IdFault>
    ensures { result ≡ unequal_at size text.now }
{
    let pieces = pieces_of(text, square_count(size))?;
    puzzle_in(size, pieces.as_slice())
}

// Each class of faults is looked for in all pieces before the next.
#[tactic(auto, using(crate::proofs::UnequalGivens::letters_of_texts, crate::specs::Laws::SaidSigns::neighbours_agree))]
fn puzzle_in(size: Size, pieces: &[&[u8]]) -> Result<Unequal, IdFault>
    requires { length pieces.now ≡ size * size }
    ensures { result ≡ puzzle_at size (texts_of pieces.now) }
{
    let Some(givens) = givens_in(size, pieces) else {
        return Err(IdFault::BadSquares);
    };
    if !have_letters(pieces) {
        return Err(IdFault::BadClue);
    }
    if !point_inside(size, pieces) {
        return Err(IdFault::OffGrid);
    }
    let Some(right) = signs_in(size, pieces, Direction::Right) else {
        return Err(IdFault::Contradiction);
    };
    let Some(below) = signs_in(size, pieces, Direction::Down) else {
        return Err(IdFault::Contradiction);
    };
    Ok(Unequal {
        right,
        below,
        givens,
    })
}

// The grid of the pieces' numbers, or `None` where some piece begins with none.
fn givens_in(size: Size, pieces: &[&[u8]]) -> Option<Grid>
    requires { length pieces.now ≡ size * size }
    ensures { result ≡ (if list_all (begins_with_number size) (texts_of pieces.now)
        then Some (grid_in size (texts_of pieces.now)) else None) }
{
    let mut givens = Grid::blank(size);
    for (cell, piece) in pieces.iter().enumerate() {
        givens.set(cell, number_in(size, piece)?);
    }
    Some(givens)
}

fn have_letters(pieces: &[&[u8]]) -> bool
    ensures { result ≡ list_all (λ piece. has_letters piece.now) pieces.now }
{
    pieces.iter().all(|piece| has_letters(piece))
}

fn point_inside(size: Size, pieces: &[&[u8]]) -> bool
    requires { length pieces.now ≡ size * size }
    ensures { result ≡ list_all (points_inside size (texts_of pieces.now))
        (range_with_len 0 (size * size)) }
{
    (0..pieces.len()).all(|cell| points_inside(size, cell, piece_at(pieces, cell)))
}

#[tactic(auto, using(crate::proofs::UnequalGivens::text_at))]
fn piece_at<'a>(pieces: &[&'a [u8]], cell: usize) -> &'a [u8]
    requires { cell < length pieces.now }
    ensures { result.now ≡ piece_at (texts_of pieces.now) cell }
{
    pieces[cell]
}

// The signs towards the neighbours in a direction, or `None` where the pieces of two of them contradict each other.
#[tactic(auto, using(crate::proofs::UnequalTables::signs_filled, crate::specs::Laws::SaidSigns::squares_contradict))]
fn signs_in(size: Size, pieces: &[&[u8]], direction: Direction) -> Option<[Sign; CELLS]>
    requires { length pieces.now ≡ size * size }
    ensures agree { IfSome result (λ signs. list_any
        (contradicts_towards size (texts_of pieces.now) direction)
        (range_with_len 0 (size * size)) ≡ false) }
    ensures signs { IfSome result
        (HoldsSignsOf size (sign_said size (texts_of pieces.now)) direction) }
    ensures none { IfNone result (contradicts size (texts_of pieces.now) ≡ true) }
{
    let mut signs = [Sign::Absent; CELLS];
    for cell in 0..square_count(size) {
        signs[cell] = sign_in(size, pieces, cell, direction)?;
    }
    Some(signs)
}

// The sign that the pieces of a square and of its neighbour, where it has one, say, or `None` where each says that its
// square is the greater one.
fn sign_in(size: Size, pieces: &[&[u8]], cell: usize, direction: Direction) -> Option<Sign>
    requires size { length pieces.now ≡ size * size }
    requires inside { cell < size * size }
    ensures agree { IfSome result (λ sign.
        contradicts_towards size (texts_of pieces.now) direction cell ≡ false) }
    ensures sign { IfSome result (λ sign.
        sign ≡ sign_towards size (sign_said size (texts_of pieces.now)) direction cell) }
    ensures none { IfNone result
        (contradicts_towards size (texts_of pieces.now) direction cell ≡ true) }
{
    let Some(other) = direction.neighbour(size, cell) else {
        return Some(Sign::Absent);
    };
    match (
        says_greater(size, pieces, cell, other),
        says_greater(size, pieces, other, cell),
    ) {
        (true, true) => None,
        (true, false) => Some(Sign::FirstGreater),
        (false, true) => Some(Sign::SecondGreater),
        (false, false) => Some(Sign::Absent),
    }
}

// Whether a letter at the square a says that it is greater than b.
fn says_greater(size: Size, pieces: &[&[u8]], a: usize, b: usize) -> bool
    requires size { length pieces.now ≡ size * size }
    requires inside { a < size * size }
    ensures { result ≡ says_greater size (texts_of pieces.now) a b }
{
    let piece = piece_at(pieces, a);
    Direction::ALL.iter().any(|direction| {
        says(piece, *direction)
            && match direction.neighbour(size, a) {
                Some(other) => other == b,
                None => false,
            }
    })
}

/// The written form of a puzzle's description: for each square its number and, at the greater square of each sign, its
/// letter, in the order `U`, `R`, `D`, `L`, and a comma.
///
/// `OutOfMemory` where there is no memory for the text.
#[tactic(auto, using(crate::proofs::UnequalWritten::pieces_more))]
pub(crate) fn write_unequal(alloc: Global, puzzle: &Unequal) -> Result<Vec<u8>, IdFault>
    ensures written { IfOk result (λ text. text.items ≡ unequal_text puzzle.now) }
    ensures refused { IfErr result (λ fault. fault ≡ IdFault.OutOfMemory) }
{
    let mut text = Vec::new(alloc);
    for cell in 0..square_count(puzzle.size()) {
        push_piece(&mut text, puzzle, cell)?;
    }
    Ok(text)
}

// A square's number, its letters and a comma.
fn push_piece(text: &mut Vec<u8>, puzzle: &Unequal, cell: usize) -> Result<(), AllocError>
    requires { cell < puzzle.now.size * puzzle.now.size }
    ensures { OnOk result (text.new.items ≡ text.old.items ++ piece_written puzzle.now cell) }
{
    let _size = puzzle.size().get();
    text.push(b'0' + puzzle.given(cell))?;
    for direction in Direction::ALL {
        push_letter(text, puzzle, cell, direction)?;
    }
    text.push(b',')?;
    Ok(())
}

// The letter of a direction, where the square is greater than its neighbour there.
fn push_letter(
    text: &mut Vec<u8>,
    puzzle: &Unequal,
    cell: usize,
    direction: Direction,
) -> Result<(), AllocError>
    requires { cell < puzzle.now.size * puzzle.now.size }
    ensures { OnOk result (text.new.items ≡ text.old.items
        ++ (if is_greater_towards puzzle.now cell direction
        then (letter_of direction ∷ []) else [])) }
{
    if is_greater_towards(puzzle, cell, direction) {
        text.push(direction.letter())?;
    }
    Ok(())
}

fn is_greater_towards(puzzle: &Unequal, cell: usize, direction: Direction) -> bool
    requires { cell < puzzle.now.size * puzzle.now.size }
    ensures { result ≡ is_greater_towards puzzle.now cell direction }
{
    match direction.neighbour(puzzle.size(), cell) {
        Some(other) => puzzle.greater(cell, other),
        None => false,
    }
}
