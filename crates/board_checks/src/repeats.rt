//! Numbers that stand twice in a row or column.

ghost use Rattle.std.specs.Prelude.{◌*◌, ◌<◌, ◌↔◌, IsTrue};
ghost use Rattle.board_checks.specs.Demands.{IsRepeated};
ghost use Rattle.board_checks.specs.Inner.Repeats.{IsElsewhere};

use latin_board::{Grid, line_cell};

/// Whether the square has a number that another square of its row or column has too.
#[tactic(auto, using(crate::proofs::RepeatedNumbers::blank_unrepeated))]
pub fn is_repeated(grid: &Grid, cell: usize) -> bool
    requires { cell < grid.now.size * grid.now.size }
    ensures { IsTrue result ↔ IsRepeated grid.now cell }
{
    let width = grid.size().get() as usize;
    let row = (cell / width) as u8;
    let column = (width + cell % width) as u8;
    if grid.get(cell) == 0 {
        return false;
    }
    is_elsewhere(grid, cell, row) || is_elsewhere(grid, cell, column)
}

// Whether the square's number stands in another square of a line.
fn is_elsewhere(grid: &Grid, cell: usize, line: u8) -> bool
    requires cell { cell < grid.now.size * grid.now.size }
    requires line { line < 2 * grid.now.size }
    ensures { IsTrue result ↔ IsElsewhere grid.now cell line }
{
    let size = grid.size();
    let number = grid.get(cell);
    for place in 0..size.get() {
        let other = line_cell(size, line, place);
        if other != cell && grid.get(other) == number {
            return true;
        }
    }
    false
}
