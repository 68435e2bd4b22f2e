//! The picture of a Towers board: the clues round the grid, and the squares.
ghost use Rattle.std.specs.Prelude.{◌≡◌, ◌+◌, ◌*◌, ◌<◌, ◌≤◌};
ghost use Rattle.line_replies.specs.TowersPicture.{clue_at, clue_row, towers_row, towers_picture};

use crate::draw::Draw;
use crate::draw::symbols::{push_spaced_line, square_at};
use arrayvec::ArrayVec;
use latin_board::{Board, OutOfMemory};
use std::alloc::Global;
use towers_game::Towers;
use trail_solver::Rules;

// The symbols of a line: two more than the greatest width.
type Symbols = ArrayVec<u8, 11>;

impl Draw for Towers {
    ghost drawing = { towers_picture };

    fn draw(&self, alloc: Global, board: &Board) -> Result<Vec<u8>, OutOfMemory> {
        let width = self.size().get();
        let symbols = usize::from(width) + 2;
        let mut picture = Vec::with_capacity(alloc, 2 * symbols * symbols)?;
        push_spaced_line(&mut picture, &clue_row(self, 0))?;
        for y in 0..width {
            push_spaced_line(&mut picture, &towers_row(self, board, y))?;
        }
        push_spaced_line(&mut picture, &clue_row(self, width))?;
        Ok(picture)
    }
}

fn clue_row(puzzle: &Towers, first: u8) -> Symbols
    requires { first + puzzle.now.size ≤ 4 * puzzle.now.size }
    ensures { result.items ≡ clue_row puzzle.now first }
{
    let mut symbols = ArrayVec::new();
    symbols.push(b'+');
    for x in 0..puzzle.size().get() {
        symbols.push(clue_at(puzzle, first + x));
    }
    symbols.push(b'+');
    symbols
}

fn towers_row(puzzle: &Towers, board: &Board, y: u8) -> Symbols
    requires inside { y < puzzle.now.size }
    requires size { board.now.size ≡ puzzle.now.size }
    ensures { result.items ≡ towers_row puzzle.now board.now y }
{
    let width = puzzle.size().get();
    let first = usize::from(y) * usize::from(width);
    let mut symbols = ArrayVec::new();
    symbols.push(clue_at(puzzle, 2 * width + y));
    for x in 0..width {
        symbols.push(square_at(board, first + usize::from(x)));
    }
    symbols.push(clue_at(puzzle, 3 * width + y));
    symbols
}

fn clue_at(puzzle: &Towers, place: u8) -> u8
    requires { place < 4 * puzzle.now.size }
    ensures { result ≡ clue_at puzzle.now place }
{
    // A clue is at most the width, and that is one digit.
    let _width = puzzle.size().get();
    match puzzle.clue(place) {
        0 => b'-',
        clue => b'0' + clue,
    }
}
