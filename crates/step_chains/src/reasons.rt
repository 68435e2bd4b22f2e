//! The list of all reasons that may strike something in a grid, in the order of the search.
ghost use Rattle.std.specs.Prelude.{◌≡◌, ◌↔◌, ℕ, ◌+◌, ◌*◌, ◌^◌, ◌<◌, true, count_ones, Some};
ghost use Rattle.number_sets.specs.Sets.{has_number};
ghost use Rattle.latin_board.specs.Lines.{line_cell};
ghost use Rattle.line_steps.specs.Left.{IsLeft};
ghost use Rattle.line_steps.specs.declared.reason.Reason.TheVariants.{Given, Peer, Place, Bound, Stand, Clue, Sign, Set};
ghost use Rattle.step_chains.specs.Inner.Listed.{IsFoundAt, IsSignAt, IsGroup, place_count};

use latin_board::{Size, line_cell};
use named_steps::Reason;
use number_sets::NumberSet;
use trail_solver::Candidates;

/// The parts of the list.
#[derive(Clone, Copy, Debug)]
pub(crate) enum Part {
    /// By turns a square's given, and the square as a peer.
    Squares,
    /// Each value in each place of a row or column.
    Places,
    /// By turns a clue by itself, with the numbers that stand in its line, and with all left there.
    Clues,
    /// The signs of each square from those above, to the left, to the right and below.
    Signs,
    /// The groups of squares of a row or column of which as many values are left as they are.
    Groups,
}

/// All parts, in their order.
pub(crate) const PARTS: [Part; 5] = [
    Part::Squares,
    Part::Places,
    Part::Clues,
    Part::Signs,
    Part::Groups,
];

impl Part {
    /// How many places it has for a size.
    pub(crate) fn count(self, size: Size) -> usize
        ensures { result ≡ place_count size self }
    {
        let width = size.get() as usize;
        let squares = width * width;
        match self {
            Part::Squares => 2 * squares,
            Part::Places => 2 * width * squares,
            Part::Clues => 12 * width,
            Part::Signs => 4 * squares,
            Part::Groups => 2 * width * group_count(size.get()) as usize,
        }
    }

    /// The reason at a place of it, if one is there.
    pub(crate) fn nth(self, candidates: &Candidates, place: usize) -> Option<Reason>
        ensures { IsFoundAt candidates.now self place result }
    {
        match self {
            Part::Squares => by_square(place),
            Part::Places => by_place(candidates, place),
            Part::Clues => by_clue(place),
            Part::Signs => by_sign(candidates, place),
            Part::Groups => by_group(candidates, place),
        }
    }
}

// A square's given, or the square as a peer.
fn by_square(place: usize) -> Option<Reason>
    ensures given { (cell : ℕ) → place ≡ 2 * cell → result ≡ Some (Given cell) }
    ensures peer { (cell : ℕ) → place ≡ 2 * cell + 1 → result ≡ Some (Peer cell) }
{
    let cell = place / 2;
    match place % 2 {
        0 => Some(Reason::Given { cell }),
        _ => Some(Reason::Peer { cell }),
    }
}

// A value in a place of a row or column.
fn by_place(candidates: &Candidates, place: usize) -> Option<Reason>
    ensures { (line index other : ℕ) → index < candidates.now.size → other < candidates.now.size
        → place ≡ (line * candidates.now.size + index) * candidates.now.size + other
        → result ≡ Some (Place line index (other + 1)) }
{
    let width = candidates.size().get() as usize;
    let index = place / width;
    Some(Reason::Place {
        line: index / width,
        index: index % width,
        value: (place % width) as u8 + 1,
    })
}

// A clue by itself, with the numbers that stand in its line, or with all that is left there.
fn by_clue(place: usize) -> Option<Reason>
    ensures bound { (at : ℕ) → place ≡ 3 * at → result ≡ Some (Bound at) }
    ensures stand { (at : ℕ) → place ≡ 3 * at + 1 → result ≡ Some (Stand at) }
    ensures clue { (at : ℕ) → place ≡ 3 * at + 2 → result ≡ Some (Clue at) }
{
    let clue = place / 3;
    match place % 3 {
        0 => Some(Reason::Bound { place: clue }),
        1 => Some(Reason::Stand { place: clue }),
        _ => Some(Reason::Clue { place: clue }),
    }
}

// A sign in a square, from the one above, to the left, to the right or below.
fn by_sign(candidates: &Candidates, place: usize) -> Option<Reason>
    ensures { (from to : ℕ) → IsSignAt candidates.now.size place from to
        → result ≡ Some (Sign from to) }
{
    let width = candidates.size().get() as usize;
    let to = place / 4;
    let from = match place % 4 {
        0 => to.checked_sub(width)?,
        1 => to.checked_sub(1)?,
        2 => to + 1,
        _ => to + width,
    };
    Some(Reason::Sign { from, to })
}

// A group of squares of a row or column.
fn by_group(candidates: &Candidates, place: usize) -> Option<Reason>
    ensures { (line squares values : ℕ) → line < 2 * candidates.now.size
        → squares < 2 ^ candidates.now.size → place ≡ line * 2 ^ candidates.now.size + squares
        → IsGroup candidates.now line squares values → result ≡ Some (Set line squares values) }
{
    let groups = group_count(candidates.size().get());
    group_on(
        candidates,
        place / groups as usize,
        NumberSet::from_bits((place % groups as usize) as u16),
    )
}

// How many groups of squares a line of this width has.
fn group_count(width: u8) -> u16
    requires { width < 16 }
    ensures { result ≡ 2 ^ width }
{
    1 << width
}

// The group of these squares of a row or column, if as many values are left of them as they are.
fn group_on(candidates: &Candidates, line: usize, squares: NumberSet) -> Option<Reason>
    ensures { (values : ℕ) → line < 2 * candidates.now.size → squares < 2 ^ candidates.now.size
        → IsGroup candidates.now line squares values → result ≡ Some (Set line squares values) }
{
    if line >= 2 * candidates.size().get() as usize {
        return None;
    }
    group(line, squares, left_of(candidates, line as u8, squares))
}

/// The group of some squares of a row or column and the values that are left of them, if these are as many.
pub(crate) fn group(line: usize, squares: NumberSet, values: NumberSet) -> Option<Reason>
    ensures { count_ones values ≡ count_ones squares → result ≡ Some (Set line squares values) }
{
    if values.len() != squares.len() {
        return None;
    }
    Some(Reason::Set {
        line,
        squares,
        values,
    })
}

// The values that are left of some squares of a row or column.
fn left_of(candidates: &Candidates, line: u8, squares: NumberSet) -> NumberSet
    requires { line < 2 * candidates.now.size }
    ensures { (v : ℕ) → (has_number result v ≡ true) ↔ ((k : ℕ) × (k < candidates.now.size)
        × ((has_number squares k ≡ true) × IsLeft candidates.now (line_cell candidates.now.size line k) v)) }
{
    let size = candidates.size();
    let mut found = NumberSet::empty();
    for k in 0..size.get() {
        if squares.has(k) {
            found = found.union(candidates.values(line_cell(size, line, k)));
        }
    }
    found
}
