//! The sentence of squares of a line that share some numbers: told by them, or by the other squares where those are fewer.

use crate::left::left_on;
use crate::names::{GridLine, Joined, Square, numbers, squares_on};
use crate::told::Strike;
use crate::writing::Writing;
use latin_board::{Size, line_cell};
use number_sets::NumberSet;
use std::fmt::{self, Write};
use trail_solver::Candidates;

/// Why some squares of a line that have only these values between them strike.
pub(crate) fn say_set(
    text: &mut Writing,
    candidates: &Candidates,
    at: usize,
    squares: NumberSet,
    values: NumberSet,
    strikes: &[Strike],
) -> fmt::Result {
    let size = candidates.size();
    let line = GridLine { size, index: at };
    if let Some(index) = squares.single() {
        let square = Square::on(size, at, index as usize);
        return write!(text, "{square} is {}", numbers(values, Joined::And));
    }
    let others = Others::of(candidates, at, squares, values);
    if others.are_told(candidates, at, squares, strikes) {
        let free = squares_on(size, at, others.squares);
        write!(
            text,
            "In {line} only {free} can be {}",
            numbers(others.values, Joined::Or)
        )
    } else {
        let taken = squares_on(size, at, squares);
        write!(
            text,
            "In {line} {taken} take {} among them",
            numbers(values, Joined::And)
        )
    }
}

// The rest of a line beside a set: its other open squares, and the numbers that neither the set takes nor a
// square has alone.
#[derive(Clone, Copy)]
struct Others {
    squares: NumberSet,
    values: NumberSet,
}

impl Others {
    fn of(candidates: &Candidates, line: usize, squares: NumberSet, values: NumberSet) -> Others {
        let width = candidates.size().get();
        let mut others = Others {
            squares: NumberSet::empty(),
            values: NumberSet::up_to(width).difference(values),
        };
        for index in 0..width {
            let left = left_on(candidates, line, index as usize);
            if left.is_single() {
                others.values = others.values.difference(left);
            } else if !squares.has(index) {
                others.squares = others.squares.union(NumberSet::one(index));
            }
        }
        others
    }

    // Whether the others are told in place of the set: they are fewer, and lose all but their own numbers.
    fn are_told(
        &self,
        candidates: &Candidates,
        line: usize,
        squares: NumberSet,
        strikes: &[Strike],
    ) -> bool {
        self.squares.len() == self.values.len()
            && self.squares.len() < open_of(candidates, line, squares).len()
            && self.are_alone(candidates, line)
            && strikes.iter().all(|strike| {
                strike.values.is_disjoint(self.values)
                    && has_cell(candidates.size(), line, self.squares, strike.cell)
            })
    }

    // Whether their numbers are left nowhere else on the line.
    fn are_alone(&self, candidates: &Candidates, line: usize) -> bool {
        let width = candidates.size().get();
        for index in 0..width {
            let left = left_on(candidates, line, index as usize);
            if !self.squares.has(index) && !left.is_disjoint(self.values) {
                return false;
            }
        }
        true
    }
}

// The open squares among some of a line: those of which more than one number is left.
fn open_of(candidates: &Candidates, line: usize, squares: NumberSet) -> NumberSet {
    let mut open = NumberSet::empty();
    for index in 0..candidates.size().get() {
        if squares.has(index) && left_on(candidates, line, index as usize).len() > 1 {
            open = open.union(NumberSet::one(index));
        }
    }
    open
}

/// Whether a cell is one of some squares of a line.
pub(crate) fn has_cell(size: Size, line: usize, squares: NumberSet, cell: u8) -> bool {
    let width = size.get();
    if line >= 2 * width as usize {
        return false;
    }
    for index in 0..width {
        if squares.has(index) && line_cell(size, line as u8, index) == cell as usize {
            return true;
        }
    }
    false
}
