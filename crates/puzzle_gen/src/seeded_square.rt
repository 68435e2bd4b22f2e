//! The Latin square of a seed.

ghost use Rattle.std.specs.Prelude.{◌≡◌};
ghost use Rattle.latin_board.specs.Squares.{IsLatin};
ghost use Rattle.puzzle_gen.specs.Orders.{IsOrder};
ghost use Rattle.puzzle_gen.specs.SeededSquares.{combined, drawn_square, square_of};

use crate::draws::{draw_numbers, rng_of};
use latin_board::{Grid, Size};
use rand_core::Rng;

/// The Latin square of a size and a seed.
pub fn square(size: Size, seed: u64) -> Grid
    ensures value { result ≡ square_of size seed }
    ensures latin { IsLatin result }
{
    draw_square(size, &mut rng_of(seed))
}

/// Draws a Latin square: an order of the rows, one of the columns and one of the symbols.
pub(crate) fn draw_square<R: Rng>(size: Size, rng: &mut R) -> Grid
    ensures drawn { (result, R.stream rng.new) ≡ drawn_square size (R.stream rng.old) }
    ensures size { result.size ≡ size }
    ensures latin { IsLatin result }
{
    let width = size.get() as usize;
    let rows = draw_numbers(rng, width);
    let columns = draw_numbers(rng, width);
    let symbols = draw_numbers(rng, width);
    combine(
        size,
        rows.as_slice(),
        columns.as_slice(),
        symbols.as_slice(),
    )
}

// The square with the symbol at place (rows[r] + columns[c]) mod w in row r, column c.
fn combine(size: Size, rows: &[u8], columns: &[u8], symbols: &[u8]) -> Grid
    requires rows { IsOrder size rows.now }
    requires columns { IsOrder size columns.now }
    requires symbols { IsOrder size symbols.now }
    ensures value { result ≡ combined size rows.now columns.now symbols.now }
    ensures latin { IsLatin result }
{
    let width = size.get() as usize;
    let mut grid = Grid::blank(size);
    for cell in 0..width * width {
        let _size = grid.size();
        let row = rows[cell / width] as usize;
        let column = columns[cell % width] as usize;
        grid.set(cell, symbols[(row + column) % width] + 1);
    }
    let _size = grid.size();
    grid
}
