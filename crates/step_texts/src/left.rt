//! The numbers that are left of a square, by its number and by its place on a line.

use latin_board::line_cell;
use number_sets::NumberSet;
use trail_solver::Candidates;

/// The set of one number below 16, or of none.
pub(crate) fn one(value: u8) -> NumberSet {
    if value < 16 {
        NumberSet::one(value)
    } else {
        NumberSet::empty()
    }
}

/// The numbers that are left of a square of the grid; none of any other.
pub(crate) fn left_of(candidates: &Candidates, cell: usize) -> NumberSet {
    let width = candidates.size().get() as usize;
    if cell < width * width {
        candidates.values(cell)
    } else {
        NumberSet::empty()
    }
}

/// The numbers that are left at a place of a row or column; none at any other.
pub(crate) fn left_on(candidates: &Candidates, line: usize, index: usize) -> NumberSet {
    let size = candidates.size();
    let width = size.get() as usize;
    if line < 2 * width && index < width {
        candidates.values(line_cell(size, line as u8, index as u8))
    } else {
        NumberSet::empty()
    }
}
