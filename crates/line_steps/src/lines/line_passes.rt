//! Values taken away along a row or column, square by square.
ghost use Rattle.std.specs.Prelude.{◌≡◌, ℕ, ◌*◌, ◌<◌, true, slice_index};
ghost use Rattle.number_sets.specs.Sets.{has_number};
ghost use Rattle.latin_board.specs.Lines.{line_cell};
ghost use Rattle.line_steps.specs.Takes.{Strikes, Takes, AreChanged};
ghost use Rattle.line_steps.specs.Inner.LineSets.{AreLineSets};
ghost use Rattle.trail_solver.specs.Candidates.{AreCandidates};

use crate::lines::striking::strike;
use latin_board::line_cell;
use number_sets::NumberSet;
use trail_solver::Candidates;

/// Takes away from each square of a line the values of its set, and gives the places of those of which something went.
pub fn strike_row(candidates: &mut Candidates, line: u8, row: &[NumberSet; 9]) -> NumberSet
    requires { line < 2 * candidates.old.size }
    ensures takes { Takes (λ cell v. (k : ℕ) × (k < candidates.old.size) × (cell ≡ line_cell candidates.old.size line k)
        × (has_number (slice_index row.now k) v ≡ true)) candidates.old candidates.new }
    ensures changed { AreChanged line result candidates.old candidates.new }
{
    let size = candidates.size();
    let mut changed = NumberSet::empty();
    for k in 0..size.get() {
        let count = candidates.trail_len();
        strike(candidates, line_cell(size, line, k), row[k as usize]);
        if candidates.trail_len() != count {
            changed = changed.union(NumberSet::one(k));
        }
    }
    changed
}

/// Takes away values that are left of a square, and gives its place on a line where there are any.
pub fn take_at(candidates: &mut Candidates, place: u8, cell: usize, values: NumberSet) -> NumberSet
    requires place { place < candidates.old.size }
    requires left { AreCandidates candidates.old cell values }
    ensures strikes { Strikes candidates.old candidates.new cell values }
    ensures changed { (line : ℕ) → cell ≡ line_cell candidates.old.size line place
        → AreChanged line result candidates.old candidates.new }
{
    let _size = candidates.size();
    if values.is_empty() {
        return NumberSet::empty();
    }
    candidates.remove_all(cell, values);
    NumberSet::one(place)
}

/// The numbers that are left of each square of a line, as sets.
pub(crate) fn line_sets(candidates: &Candidates, line: u8) -> [NumberSet; 9]
    requires { line < 2 * candidates.now.size }
    ensures { AreLineSets candidates.now line candidates.now.size result }
{
    let size = candidates.size();
    let mut sets = [NumberSet::empty(); 9];
    for k in 0..size.get() {
        sets[k as usize] = candidates.values(line_cell(size, line, k));
    }
    sets
}
