//! Sets of values for squares: what is needed of a chain, and where reasons look.
//! Nothing here ensures anything: `short_chain` follows what comes of it step by step, and tells it only where it is a chain.

use crate::aims::Aim;
use arrayvec::ArrayVec;
use latin_board::{CELLS, Size, line_cell};
use line_steps::view_cell;
use named_steps::{Goal, Reason};
use number_sets::NumberSet;
use trail_solver::Candidates;

/// A set of values for each square.
#[derive(Clone, Copy, Debug)]
pub(crate) struct Values {
    sets: [NumberSet; CELLS],
}

impl Values {
    /// No value in any square.
    pub(crate) fn none() -> Values {
        Values {
            sets: [NumberSet::empty(); CELLS],
        }
    }

    /// The numbers that are left of each square.
    pub(crate) fn left(candidates: &Candidates) -> Values {
        let mut values = Values::none();
        for cell in 0..CELLS {
            values.add(cell, left(candidates, cell));
        }
        values
    }

    /// The values of a square; none where there is no such square.
    pub(crate) fn of(&self, cell: usize) -> NumberSet {
        if cell < CELLS {
            self.sets[cell]
        } else {
            NumberSet::empty()
        }
    }

    /// With these values of a square, too.
    pub(crate) fn add(&mut self, cell: usize, values: NumberSet) {
        if cell < CELLS {
            self.sets[cell] = self.sets[cell].union(values);
        }
    }

    /// Without these values of a square.
    pub(crate) fn remove(&mut self, cell: usize, values: NumberSet) {
        if cell < CELLS {
            self.sets[cell] = self.sets[cell].difference(values);
        }
    }
}

/// The values that are gone of some squares and that are needed anyhow.
pub(crate) fn needed_in(cells: &ArrayVec<u8, 9>, gone: &Values, needs: &Values) -> Values {
    let mut needed = Values::none();
    for cell in cells.as_slice() {
        let at = *cell as usize;
        needed.add(at, gone.of(at).intersection(needs.of(at)));
    }
    needed
}

/// The numbers that have to be struck from candidates so that they come to the aim.
pub(crate) fn needs_of(candidates: &Candidates, aim: Aim) -> Values {
    match aim {
        Aim::Number(Goal::OnlyValue { cell, value }) => needs_of_value(
            candidates,
            cell,
            single(value),
        ),
        Aim::Number(Goal::OnlyPlace { line, index, value }) => needs_of_place(
            candidates, line, index, value,
        ),
        Aim::Nothing { cell } => needs_of_value(candidates, cell, NumberSet::empty()),
    }
}

fn needs_of_value(candidates: &Candidates, cell: usize, stays: NumberSet) -> Values {
    let mut needs = Values::none();
    needs.add(cell, left(candidates, cell).difference(stays));
    needs
}

fn needs_of_place(candidates: &Candidates, line: usize, index: usize, value: u8) -> Values {
    let mut needs = Values::none();
    for cell in squares_but(candidates.size(), line, index) {
        needs.add(
            cell as usize,
            left(candidates, cell as usize).intersection(single(value)),
        );
    }
    needs
}

/// The set of one number, or of none where it is too great.
pub(crate) fn single(value: u8) -> NumberSet {
    if value < 16 {
        NumberSet::one(value)
    } else {
        NumberSet::empty()
    }
}

/// The numbers that are left of a square; none where there is no such square.
pub(crate) fn left(candidates: &Candidates, cell: usize) -> NumberSet {
    let width = candidates.size().get() as usize;
    if cell < width * width {
        candidates.values(cell)
    } else {
        NumberSet::empty()
    }
}

/// The squares at whose candidates a reason looks.
pub(crate) fn looked_at(size: Size, reason: &Reason) -> ArrayVec<u8, 9> {
    match *reason {
        Reason::Given { .. } => ArrayVec::new(),
        Reason::Peer { cell } => just(cell),
        Reason::Place { line, index, .. } => squares_but(size, line, index),
        Reason::Bound { .. } => ArrayVec::new(),
        Reason::Stand { place } => squares_from(size, place),
        Reason::Clue { place } => squares_from(size, place),
        Reason::Sign { from, .. } => just(from),
        Reason::Set { line, squares, .. } => squares_among(size, line, squares),
    }
}

/// Steps whose reasons look at a square, or at others of its row or column: those of clues, which are dear to ask for, or the others.
#[derive(Clone, Copy, Debug)]
pub(crate) struct Asked {
    pub(crate) cell: u8,
    pub(crate) is_dear: bool,
}

impl Asked {
    /// Whether steps by the reason are among them.
    pub(crate) fn has(self, size: Size, reason: &Reason) -> bool {
        let width = size.get() as usize;
        let cell = self.cell as usize;
        let (row, column) = (cell / width, width + cell % width);
        match *reason {
            Reason::Given { .. } | Reason::Bound { .. } => false,
            Reason::Peer { cell: at } | Reason::Sign { from: at, .. } => !self.is_dear
                && at == cell,
            Reason::Place { line, .. } | Reason::Set { line, .. } => {
                !self.is_dear && (line == row || line == column)
            }
            Reason::Stand { place } | Reason::Clue { place } => {
                let end = if place < 2 * width {
                    column
                } else {
                    width + row
                };
                self.is_dear && width + place % width == end
            }
        }
    }
}

fn just(cell: usize) -> ArrayVec<u8, 9> {
    let mut cells = ArrayVec::new();
    if cell < CELLS {
        cells.push(cell as u8);
    }
    cells
}

/// The squares of a row or column.
pub(crate) fn squares_of(size: Size, line: usize) -> ArrayVec<u8, 9> {
    squares_among(size, line, NumberSet::up_to(size.get()).lowered())
}

// The squares of a row or column but for one place.
fn squares_but(size: Size, line: usize, index: usize) -> ArrayVec<u8, 9> {
    let all = NumberSet::up_to(size.get()).lowered();
    let one = if index < 16 {
        NumberSet::one(index as u8)
    } else {
        NumberSet::empty()
    };
    squares_among(size, line, all.difference(one))
}

// Some squares of a row or column.
fn squares_among(size: Size, line: usize, squares: NumberSet) -> ArrayVec<u8, 9> {
    let mut cells = ArrayVec::new();
    for k in 0..size.get() {
        if line < 2 * size.get() as usize && squares.has(k) {
            let _pushed = cells.try_push(line_cell(size, line as u8, k) as u8);
        }
    }
    cells
}

/// The squares from a place at the edge.
pub(crate) fn squares_from(size: Size, place: usize) -> ArrayVec<u8, 9> {
    let mut cells = ArrayVec::new();
    for k in 0..size.get() as usize {
        if place < 4 * size.get() as usize {
            let _pushed = cells.try_push(view_cell(size, place as u8, k) as u8);
        }
    }
    cells
}
