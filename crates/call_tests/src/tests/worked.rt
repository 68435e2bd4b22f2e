//! Grids from digits.

use latin_board::{Grid, Size};

/// The grid of width 3 with these numbers in reading order, as digits; the squares after the last are blank.
pub(crate) fn grid_of(digits: &str) -> Option<Grid> {
    let mut grid = Grid::blank(Size::new(3)?);
    for (cell, digit) in digits.as_bytes().iter().enumerate() {
        let number = digit.wrapping_sub(b'0');
        let width = grid.size().get();
        if cell >= width as usize * width as usize || number > width {
            return None;
        }
        grid.set(cell, number);
    }
    Some(grid)
}
