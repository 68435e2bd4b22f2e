//! The picture of an Unequal board: the squares, and the signs between them.
ghost use Rattle.std.specs.Prelude.{◌≡◌, ◌+◌, ◌-◌, ◌*◌, ◌<◌, ◌≤◌, ◌++◌, OnOk};
ghost use Rattle.line_replies.specs.UnequalPicture.{sign_before, sign_above, squares_line, signs_line, unequal_picture};

use crate::draw::Draw;
use crate::draw::symbols::{push_spaced_line, square_at};
use arrayvec::ArrayVec;
use latin_board::{Board, OutOfMemory};
use std::alloc::{AllocError, Global};
use trail_solver::Rules;
use unequal_game::Unequal;

impl Draw for Unequal {
    ghost drawing = { unequal_picture };

    fn draw(&self, alloc: Global, board: &Board) -> Result<Vec<u8>, OutOfMemory> {
        let width = usize::from(self.size().get());
        let symbols = 2 * width - 1;
        let mut picture = Vec::with_capacity(alloc, symbols * (symbols + 1))?;
        push_squares(&mut picture, self, board, 0)?;
        for y in 1..width {
            push_signs(&mut picture, self, y * width)?;
            push_squares(&mut picture, self, board, y * width)?;
        }
        Ok(picture)
    }
}

// Appends the row of squares that begins with the first square, and the signs in it.
fn push_squares(
    picture: &mut Vec<u8>,
    puzzle: &Unequal,
    board: &Board,
    first: usize,
) -> Result<(), AllocError>
    requires inside { first + puzzle.now.size ≤ puzzle.now.size * puzzle.now.size }
    requires size { board.now.size ≡ puzzle.now.size }
    ensures { OnOk result (picture.new.items
        ≡ picture.old.items ++ squares_line puzzle.now board.now first) }
{
    let width = usize::from(puzzle.size().get());
    picture.push(square_at(board, first))?;
    for x in 1..width {
        picture.push(sign_before(puzzle, first + x))?;
        picture.push(square_at(board, first + x))?;
    }
    picture.push(b'\n')?;
    Ok(())
}

// Appends the signs above the row of squares that begins with the first square.
fn push_signs(picture: &mut Vec<u8>, puzzle: &Unequal, first: usize) -> Result<(), AllocError>
    requires above { puzzle.now.size ≤ first }
    requires inside { first + puzzle.now.size ≤ puzzle.now.size * puzzle.now.size }
    ensures { OnOk result (picture.new.items ≡ picture.old.items ++ signs_line puzzle.now first) }
{
    let mut signs: ArrayVec<u8, 9> = ArrayVec::new();
    for x in 0..usize::from(puzzle.size().get()) {
        signs.push(sign_above(puzzle, first + x));
    }
    push_spaced_line(picture, &signs)
}

// The sign between a square and the one at its left.
fn sign_before(puzzle: &Unequal, right: usize) -> u8
    requires inside { right < puzzle.now.size * puzzle.now.size }
    requires has_left { 1 ≤ right }
    ensures { result ≡ sign_before puzzle.now right }
{
    let left = right - 1;
    if puzzle.greater(right, left) {
        b'<'
    } else if puzzle.greater(left, right) {
        b'>'
    } else {
        b' '
    }
}

// The sign between a square and the one above it.
fn sign_above(puzzle: &Unequal, lower: usize) -> u8
    requires inside { lower < puzzle.now.size * puzzle.now.size }
    requires has_upper { puzzle.now.size ≤ lower }
    ensures { result ≡ sign_above puzzle.now lower }
{
    let upper = lower - usize::from(puzzle.size().get());
    if puzzle.greater(lower, upper) {
        b'^'
    } else if puzzle.greater(upper, lower) {
        b'v'
    } else {
        b'-'
    }
}
