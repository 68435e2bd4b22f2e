//! The pairings of a Latin square: the places of each line with the values there, and the rows with the
//! columns of each value.

ghost use Rattle.std.specs.Prelude.{◌≡◌, ℕ, ◌*◌, ◌<◌, ◌≤◌, true};
ghost use Rattle.number_sets.specs.Sets.{has_number};
ghost use Rattle.trail_solver.specs.Candidates.{may_be};
ghost use Rattle.latin_board.specs.Lines.{line_cell};

use crate::candidates::Candidates;
use latin_board::{Size, line_cell};
use number_sets::NumberSet;

/// The most lefts, and rights: both are numbers below it.
pub(crate) const SIDES: usize = 16;

/// Which rights each left may have.
pub(crate) type Sides = [NumberSet; SIDES];

/// A pairing: as many lefts and rights as the width, each numbered from 0. A Latin square gives each left a
/// right of its own.
#[derive(Clone, Copy)]
pub(crate) enum Pairing {
    /// The places of a line, and the values that may stand there, less 1.
    Line(u8),
    /// The rows, and the columns where the value may stand.
    Value(u8),
}

impl Pairing {
    ghost use Rattle.trail_solver.specs.Pairs.{IsPair};
    ghost use Rattle.trail_solver.specs.Inner.Pairings.{Covers, IsPairing, MayPair, pair_cell, pair_value};

    /// The square and the value that it has where the left has the right.
    #[tactic(auto, using(crate::proofs::PairedSquares::pair_is_one))]
    pub fn pair(self, size: Size, left: u8, right: u8) -> (usize, u8)
        requires pairing { IsPairing size self }
        requires left { left < size }
        requires right { right < size }
        ensures cell { result.0 ≡ pair_cell size self left right }
        ensures value { result.1 ≡ pair_value self right }
        ensures pair { IsPair size result.0 result.1 }
    {
        match self {
            Pairing::Line(line) => (line_cell(size, line, left), right + 1),
            Pairing::Value(value) => (line_cell(size, left, right), value),
        }
    }

    /// For each left a set with all rights that it may have.
    pub fn sides(self, candidates: &Candidates) -> Sides
        requires { IsPairing candidates.now.size self }
        ensures { Covers candidates.now self result }
    {
        let width = candidates.size().get();
        let mut sides = [NumberSet::empty(); SIDES];
        for left in 0..width {
            sides[left as usize] = self.side(candidates, left);
        }
        sides
    }

    // A set with all rights that a left may have.
    #[tactic(auto, using(crate::proofs::PairedSquares::place_side))]
    fn side(self, candidates: &Candidates, left: u8) -> NumberSet
        requires pairing { IsPairing candidates.now.size self }
        requires left { left < candidates.now.size }
        ensures { (right : ℕ) → right < candidates.now.size → MayPair candidates.now self left right
            → has_number result right ≡ true }
    {
        match self {
            Pairing::Line(line) => {
                let cell = line_cell(candidates.size(), line, left);
                candidates.values(cell).lowered()
            }
            Pairing::Value(value) => columns_of(candidates, left, value),
        }
    }
}

// The columns where a value may stand in a row.
fn columns_of(candidates: &Candidates, row: u8, value: u8) -> NumberSet
    requires row { row < candidates.now.size }
    requires low { 1 ≤ value }
    requires high { value ≤ candidates.now.size }
    ensures { (column : ℕ) → column < candidates.now.size
        → may_be candidates.now (line_cell candidates.now.size row column) value ≡ true
        → has_number result column ≡ true }
{
    let size = candidates.size();
    let mut columns = NumberSet::empty();
    for column in 0..size.get() {
        if candidates.may(line_cell(size, row, column), value) {
            columns = columns.union(NumberSet::one(column));
        }
    }
    columns
}
