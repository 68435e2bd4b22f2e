//! The moves of a session.

use latin_board::Grid;

/// A move of a session, as the manual of the collection has it for Towers and Unequal.
#[derive(Clone, Copy, PartialEq, Eq, Debug)]
pub enum Move {
    /// The square at column `x` and row `y`, counted from 0, is to hold `n`, or nothing where `n` is 0.
    Real { x: u8, y: u8, n: u8 },
    /// The pencil mark `n` of the square is flipped; `n` of 0 is the same as in `Real`.
    Pencil { x: u8, y: u8, n: u8 },
    /// Each square without a number gets all pencil marks.
    MarkAll,
    /// The grid, a solution, is filled in.
    Solve(Grid),
    /// The board is as at the start. It has no text.
    Restart,
    /// The done mark of the edge clue at (x, y) is flipped.
    Done { x: i8, y: i8 },
}
