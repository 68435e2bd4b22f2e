//! The strikes of groups of a line's squares: those that have only as many values left as they have squares.
ghost use Rattle.std.specs.Prelude.{◌≡◌, ◌↔◌, ℕ, ◌*◌, ◌^◌, ◌⊎◌, ◌<◌, ◌≤◌, Bool, true, false, length, slice_index, count_ones};
ghost use Rattle.std.specs.Bool.{OnFalse, OnTrue};
ghost use Rattle.number_sets.specs.Sets.{has_number, IsEmpty};
ghost use Rattle.line_steps.specs.Reasons.{IsByLine};
ghost use Rattle.line_steps.specs.Chains.{LeadsTo};
ghost use Rattle.line_steps.specs.Inner.Groups.{IsUnionOf, IsStruckBelow, IsGroupQuiet};
ghost use Rattle.line_steps.specs.Inner.LineLooks.{AreMore, waiting_for};
ghost use Rattle.line_steps.specs.Along.{LosesAt};
ghost use Rattle.line_steps.specs.declared.grade.Grade.TheVariants.{Hard};

use crate::lines::line_passes::{line_sets, strike_row};
use crate::lines::waiting::Waiting;
use number_sets::NumberSet;
use trail_solver::Candidates;

/// Takes away what groups strike, line after line, and notes where something went; tells whether anything did.
pub(crate) fn look_for_groups(candidates: &mut Candidates, waiting: &mut Waiting) -> bool
    ensures leads { LeadsTo (IsByLine candidates.old.size) Hard candidates.old candidates.new }
    ensures more { (what : Bool)
        → AreMore (waiting_for what waiting.old) (waiting_for what waiting.new) candidates.old candidates.new }
    ensures went { OnTrue result (length candidates.old.trail < length candidates.new.trail) }
    ensures same { OnFalse result (candidates.new ≡ candidates.old) }
    ensures quiet { OnFalse result ((line : ℕ) → line < 2 * candidates.new.size → IsGroupQuiet line candidates.new) }
{
    let width = candidates.size().get();
    let count = candidates.trail_len();
    for line in 0..2 * width {
        let changed = strike_groups_on(candidates, line);
        waiting.note(line, changed, width);
    }
    if candidates.trail_len() == count {
        return false;
    }
    true
}

// Takes away what the groups of a line's squares strike, and gives the places of those of which something went. Squares of which one
// value is left are in none of the groups: once that value is gone elsewhere in the line, a group strikes no less without such a square.
#[tactic(auto, using(crate::proofs::StayingLines::loses_changed))]
fn strike_groups_on(candidates: &mut Candidates, line: u8) -> NumberSet
    requires { line < 2 * candidates.old.size }
    ensures leads { LeadsTo (IsByLine candidates.old.size) Hard candidates.old candidates.new }
    ensures loses { LosesAt line result candidates.old candidates.new }
    ensures quiet { IsEmpty result → IsGroupQuiet line candidates.old }
{
    let sets = line_sets(candidates, line);
    let width = candidates.size().get();
    let several = open_places(&sets, width);
    let struck = struck_by_groups(&sets, several, width);
    strike_row(candidates, line, &struck)
}

// The places of the sets with several numbers.
fn open_places(sets: &[NumberSet; 9], width: u8) -> NumberSet
    requires { width ≤ 9 }
    ensures { (k : ℕ) → (has_number result k ≡ true) ↔ ((k < width) × (1 < count_ones (slice_index sets.now k))) }
{
    let mut open = NumberSet::empty();
    for k in 0..width {
        if sets[k as usize].len() > 1 {
            open = open.union(NumberSet::one(k));
        }
    }
    open
}

// The values that the groups among some places strike in each place. All sets of these places are gone
// through, as the numbers that stand for them.
fn struck_by_groups(sets: &[NumberSet; 9], several: NumberSet, width: u8) -> [NumberSet; 9]
    requires width { width ≤ 9 }
    requires inside { (k : ℕ) → has_number several k ≡ true → k < width }
    ensures { (k v : ℕ) → k < 9 → (has_number (slice_index result k) v ≡ true)
        ↔ IsStruckBelow sets.now several (2 ^ width) k v }
{
    let mut struck = [NumberSet::empty(); 9];
    for bits in 0..1 << width {
        let squares = NumberSet::from_bits(bits);
        if squares.is_subset(several) {
            add_elsewhere(squares, values_of(sets, squares), &mut struck);
        }
    }
    struck
}

// The numbers of the sets at some places.
fn values_of(sets: &[NumberSet; 9], squares: NumberSet) -> NumberSet
    requires { (k : ℕ) → has_number squares k ≡ true → k < 9 }
    ensures { IsUnionOf sets.now squares result }
{
    let mut values = NumberSet::empty();
    for k in 0..9 {
        values = values.union(values_at(sets, squares, k));
    }
    values
}

// The numbers of the set at one place, if it is among the squares, and otherwise none.
fn values_at(sets: &[NumberSet; 9], squares: NumberSet, k: u8) -> NumberSet
    requires { k < 9 }
    ensures { (v : ℕ) → (has_number result v ≡ true)
        ↔ ((has_number squares k ≡ true) × (has_number (slice_index sets.now k) v ≡ true)) }
{
    if squares.has(k) {
        sets[k as usize]
    } else {
        NumberSet::empty()
    }
}

// Adds the values in each place outside the squares, if they are as many as the squares.
fn add_elsewhere(squares: NumberSet, values: NumberSet, struck: &mut [NumberSet; 9])
    ensures { (k v : ℕ) → k < 9 → (has_number (slice_index struck.new k) v ≡ true)
        ↔ ((has_number (slice_index struck.old k) v ≡ true)
        ⊎ ((count_ones values ≡ count_ones squares) × (has_number squares k ≡ false) × (has_number values v ≡ true))) }
{
    if values.len() != squares.len() {
        return;
    }
    for k in 0..9u8 {
        if !squares.has(k) {
            struck[k as usize] = struck[k as usize].union(values);
        }
    }
}
