//! The symbols of pictures and grids, and lines of them.
ghost use Rattle.std.specs.Prelude.{◌≡◌, ◌*◌, ◌<◌, ◌++◌, OnOk};
ghost use Rattle.line_replies.specs.Symbols.{square_at, spaced_line};
ghost use Rattle.line_replies.specs.SolutionTexts.{grid_digits};

use arrayvec::ArrayVec;
use latin_board::{Board, CELLS, Grid};
use std::alloc::AllocError;

/// The symbol of a square: its number, or a dot where it is empty.
pub(crate) fn square_at(board: &Board, cell: usize) -> u8
    requires { cell < board.now.size * board.now.size }
    ensures { result ≡ square_at board.now cell }
{
    // A number is at most the width, and that is one digit.
    let _width = board.size().get();
    match board.digit(cell) {
        0 => b'.',
        number => b'0' + number,
    }
}

/// The digits of a grid in reading order.
pub(crate) fn grid_digits(grid: &Grid) -> ArrayVec<u8, CELLS>
    ensures { result.items ≡ grid_digits grid.now }
{
    let width = usize::from(grid.size().get());
    let mut digits = ArrayVec::new();
    for cell in 0..width * width {
        digits.push(b'0' + grid.get(cell));
    }
    digits
}

/// Appends a line of symbols with one space between.
pub(crate) fn push_spaced_line(text: &mut Vec<u8>, symbols: &[u8]) -> Result<(), AllocError>
    ensures { OnOk result (text.new.items ≡ text.old.items ++ spaced_line symbols.now) }
{
    for (i, symbol) in symbols.iter().enumerate() {
        if i > 0 {
            text.push(b' ')?;
        }
        text.push(*symbol)?;
    }
    text.push(b'\n')?;
    Ok(())
}
