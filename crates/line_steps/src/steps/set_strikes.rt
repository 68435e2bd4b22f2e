//! The strikes of a group of squares in one square.
ghost use Rattle.std.specs.Prelude.{◌≡◌, ◌↔◌, ℕ, ◌*◌, ◌<◌, true, IsTrue};
ghost use Rattle.number_sets.specs.Sets.{has_number, IsSubset};
ghost use Rattle.trail_solver.specs.Pairs.{IsPair};
ghost use Rattle.line_steps.specs.Reasons.{IsBySet};
ghost use Rattle.line_steps.specs.Inner.Groups.{AreAmong, IsOther};

use latin_board::{Size, line_cell};
use number_sets::NumberSet;
use trail_solver::Candidates;

/// The values of the size that a group of a line's squares, with the values that these take among them, rules out in a square;
/// a line or squares that the grid doesn't have strike nothing.
#[tactic(auto, using(crate::proofs::GroupSets::set_struck, crate::proofs::GroupSets::set_idle))]
pub(crate) fn by_set(
    candidates: &Candidates,
    line: usize,
    squares: NumberSet,
    values: NumberSet,
    cell: usize,
) -> NumberSet
    requires { cell < candidates.now.size * candidates.now.size }
    ensures { (v : ℕ) → (has_number result v ≡ true)
        ↔ (IsPair candidates.now.size cell v × IsBySet candidates.now.size candidates.now line squares values cell v) }
{
    let size = candidates.size();
    if line >= 2 * size.get() as usize || !are_places(squares, size.get()) {
        return NumberSet::empty();
    }
    let line = line as u8;
    if values.len() == squares.len()
        && is_other(size, line, squares, cell)
        && are_among(candidates, line, squares, values)
    {
        values.intersection(NumberSet::up_to(size.get()))
    } else {
        NumberSet::empty()
    }
}

// Whether nothing but the values is left of the line's squares.
fn are_among(candidates: &Candidates, line: u8, squares: NumberSet, values: NumberSet) -> bool
    requires line { line < 2 * candidates.now.size }
    requires squares { (k : ℕ) → has_number squares k ≡ true → k < candidates.now.size }
    ensures { IsTrue result ↔ AreAmong candidates.now line squares values }
{
    let size = candidates.size();
    for k in 0..size.get() {
        if squares.has(k) && !is_within(candidates.values(line_cell(size, line, k)), values) {
            return false;
        }
    }
    true
}

// Whether each number of the first set is in the second.
#[tactic(auto, using(crate::proofs::GroupSets::within_none, crate::proofs::GroupSets::within_some))]
fn is_within(set: NumberSet, values: NumberSet) -> bool
    ensures { IsTrue result ↔ IsSubset set values }
{
    set.difference(values).is_empty()
}

// Whether a square is one of the line's, and none of these.
fn is_other(size: Size, line: u8, squares: NumberSet, cell: usize) -> bool
    requires { line < 2 * size }
    ensures { IsTrue result ↔ IsOther size line squares cell }
{
    for k in 0..size.get() {
        if !squares.has(k) && line_cell(size, line, k) == cell {
            return true;
        }
    }
    false
}

// Whether each number of the set is below the width.
fn are_places(set: NumberSet, width: u8) -> bool
    ensures { IsTrue result ↔ ((k : ℕ) → has_number set k ≡ true → k < width) }
{
    match set.greatest() {
        Some(last) => last < width,
        None => true,
    }
}
