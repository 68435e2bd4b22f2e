//! The strikes of givens, rows and columns in one square.
ghost use Rattle.std.specs.Prelude.{◌≡◌, ◌↔◌, ℕ, ◌*◌, ◌<◌, ◌≤◌, true, IsTrue};
ghost use Rattle.number_sets.specs.Sets.{has_number};
ghost use Rattle.latin_board.specs.Lines.{ArePeers, line_cell};
ghost use Rattle.trail_solver.specs.Pairs.{IsPair};
ghost use Rattle.line_steps.specs.Left.{HasNoOther, HasNoOtherPlace};
ghost use Rattle.line_steps.specs.Reasons.{IsByGiven, IsByPeer, IsByPlace};

use latin_board::{Size, line_cell};
use number_sets::NumberSet;
use trail_solver::{Candidates, Rules};

/// The values that a given strikes in a square, in every game: the sizes are equal, the grid has the square.
#[tactic(auto, using(crate::proofs::GivenSets::given_struck))]
pub(crate) fn given_strikes<P: Rules>(
    p: &P,
    candidates: &Candidates,
    at: usize,
    cell: usize,
) -> NumberSet
    requires size { candidates.now.size ≡ (P.puzzle p.now).size }
    requires inside { cell < candidates.now.size * candidates.now.size }
    ensures { (v : ℕ) → (has_number result v ≡ true)
        ↔ (IsPair candidates.now.size cell v × IsByGiven (P.puzzle p.now) at cell v) }
{
    let size = candidates.size();
    if at != cell {
        return NumberSet::empty();
    }
    let given = p.given(cell);
    if given == 0 {
        return NumberSet::empty();
    }
    NumberSet::up_to(size.get()).difference(NumberSet::one(given))
}

/// The values of the size that one square rules out in another because nothing else is left of it. A square
/// that the grid doesn't have strikes nothing.
#[tactic(auto, using(crate::proofs::AloneSets::peer_struck))]
pub(crate) fn by_peer(candidates: &Candidates, by: usize, cell: usize) -> NumberSet
    requires { cell < candidates.now.size * candidates.now.size }
    ensures { (v : ℕ) → (has_number result v ≡ true)
        ↔ (IsPair candidates.now.size cell v × IsByPeer candidates.now.size candidates.now by cell v) }
{
    let width = candidates.size().get() as usize;
    if by >= width * width {
        return NumberSet::empty();
    }
    if are_peers(candidates.size(), by, cell) {
        alone_values(candidates, by)
    } else {
        NumberSet::empty()
    }
}

// Whether two squares share a row or a column.
fn are_peers(size: Size, a: usize, b: usize) -> bool
    requires first { a < size * size }
    requires second { b < size * size }
    ensures { IsTrue result ↔ ArePeers size a b }
{
    let width = size.get() as usize;
    if a == b {
        return false;
    }
    a / width == b / width || a % width == b % width
}

/// The values but for which nothing is left of a square.
#[tactic(auto, using(crate::proofs::AloneSets::alone_none, crate::proofs::AloneSets::alone_one, crate::proofs::AloneSets::alone_several))]
pub fn alone_values(candidates: &Candidates, cell: usize) -> NumberSet
    requires { cell < candidates.now.size * candidates.now.size }
    ensures { (v : ℕ) → (has_number result v ≡ true)
        ↔ (IsPair candidates.now.size cell v × HasNoOther candidates.now cell v) }
{
    let values = candidates.values(cell);
    if values.is_empty() {
        return NumberSet::up_to(candidates.size().get());
    }
    match candidates.only(cell) {
        Some(_) => values,
        None => NumberSet::empty(),
    }
}

/// The values of the size that are ruled out in a square because it is another value's last place in a line.
/// A line, a place or a value that the grid doesn't have strikes nothing.
#[tactic(auto, using(crate::proofs::AloneSets::place_struck))]
pub(crate) fn by_place(
    candidates: &Candidates,
    line: usize,
    index: usize,
    other: u8,
    cell: usize,
) -> NumberSet
    requires { cell < candidates.now.size * candidates.now.size }
    ensures { (v : ℕ) → (has_number result v ≡ true)
        ↔ (IsPair candidates.now.size cell v × IsByPlace candidates.now.size candidates.now line index other cell v) }
{
    let size = candidates.size();
    let width = size.get();
    if line >= 2 * width as usize || index >= width as usize || other < 1 || other > width {
        return NumberSet::empty();
    }
    let (line, index) = (line as u8, index as u8);
    if cell == line_cell(size, line, index) && has_no_other_place(candidates, line, other, index) {
        NumberSet::up_to(size.get()).difference(NumberSet::one(other))
    } else {
        NumberSet::empty()
    }
}

/// Whether a value is left in no place of a line but one.
pub fn has_no_other_place(candidates: &Candidates, line: u8, value: u8, index: u8) -> bool
    requires line { line < 2 * candidates.now.size }
    requires low { 1 ≤ value }
    requires high { value ≤ candidates.now.size }
    ensures { IsTrue result ↔ HasNoOtherPlace candidates.now line value index }
{
    let size = candidates.size();
    for k in 0..size.get() {
        if k != index && candidates.may(line_cell(size, line, k), value) {
            return false;
        }
    }
    true
}
