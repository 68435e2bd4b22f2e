//! The values that each square of a line with a clue can take.

ghost use Rattle.std.specs.Prelude.{◌≡◌, ℕ, ◌+◌, ◌<◌, ◌≤◌, ◌↔◌, true, false, [], length, replicate, slice_index, slice_index_or, IsTrue, List};
ghost use Rattle.number_sets.specs.Sets.{has_number, no_numbers};
ghost use Rattle.tower_lines.specs.LineFillings.{IsFilling, IsSupported};
ghost use Rattle.tower_lines.specs.Inner.MaskSets.{has_at};
ghost use Rattle.tower_lines.specs.Inner.Levels.{AreReached};

use crate::levels::{Levels, add_levels, first_levels, no_levels, pass_back};
use crate::likely_lines::likely_line;
use crate::line_checks::is_filling;
use number_sets::NumberSet;

/// For each square of a line, from the clue on, the values that it has in some filling of the line:
/// a filling takes each square's value from its candidates and from 1 to the line's length, has no
/// value twice, and shows as many towers as the clue says. Places past the line are empty.
///
/// Masks of used values stand for the starts of the line, by levels: how many towers a start shows. A first pass finds the masks
/// of all starts, a second pass, from the whole line back, those of them that a filling begins with.
pub fn supported(sets: &[NumberSet], clue: u8) -> [NumberSet; 9]
    requires short { length sets.now ≤ 9 }
    requires clue { clue ≤ 9 }
    ensures { (place value : ℕ) → (has_number (slice_index result place) value ≡ true)
        ↔ IsSupported sets.now clue place value }
{
    match sets.len() {
        0 => no_values(),
        1..=8 => supported_by::<1>(sets, usize::from(clue)),
        _ => supported_by::<2>(sets, usize::from(clue)),
    }
}

/// Whether a line has a filling: as for `supported`, which would keep some value in each square.
///
/// A likely line tells it at once where it is a filling, and otherwise the first pass does.
pub fn has_filling(sets: &[NumberSet], clue: u8) -> bool
    requires short { length sets.now ≤ 9 }
    requires clue { clue ≤ 9 }
    ensures { IsTrue result ↔ ((line : List ℕ) × IsFilling sets.now clue line) }
{
    let likely = likely_line(sets, clue);
    is_filling(sets, clue, &likely[..sets.len()]) || is_reached(sets, clue)
}

// Whether a line has a filling, by the first pass alone.
fn is_reached(sets: &[NumberSet], clue: u8) -> bool
    requires short { length sets.now ≤ 9 }
    requires clue { clue ≤ 9 }
    ensures { IsTrue result ↔ ((line : List ℕ) × IsFilling sets.now clue line) }
{
    match sets.len() {
        0 => clue == 0,
        1..=8 => is_reached_by::<1>(sets, usize::from(clue)),
        _ => is_reached_by::<2>(sets, usize::from(clue)),
    }
}

// Whether a line has a filling, by sets of masks in `W` words.
fn is_reached_by<const W: usize>(sets: &[NumberSet], clue: usize) -> bool
    requires some { 0 < length sets.now }
    requires short { length sets.now ≤ 9 }
    requires clue { clue ≤ 9 }
    requires room { length sets.now ≤ 7 + W }
    requires words { 0 < W }
    requires small { W ≤ 2 }
    ensures { IsTrue result ↔ ((line : List ℕ) × IsFilling sets.now clue line) }
{
    let mut starts = [no_levels(); 10];
    add_starts::<W>(sets, clue, &mut starts);
    let whole = &starts[sets.len()];
    !whole[clue].is_empty()
}

// The values that each square has in some filling, by sets of masks in `W` words.
fn supported_by<const W: usize>(sets: &[NumberSet], clue: usize) -> [NumberSet; 9]
    requires some { 0 < length sets.now }
    requires short { length sets.now ≤ 9 }
    requires clue { clue ≤ 9 }
    requires room { length sets.now ≤ 7 + W }
    requires words { 0 < W }
    requires small { W ≤ 2 }
    ensures { (place value : ℕ) → (has_number (slice_index result place) value ≡ true)
        ↔ IsSupported sets.now clue place value }
{
    let width = sets.len() as u8;
    let mut starts = [no_levels(); 10];
    add_starts::<W>(sets, clue, &mut starts);
    let whole = &starts[sets.len()];
    // Where there is no filling, there is nothing to go back from.
    if whole[clue].is_empty() {
        return no_values();
    }
    let mut after = starts[sets.len()];
    let mut kept = no_values();
    for place in (0..sets.len()).rev() {
        kept[place] = pass_back(&starts[place], place, &mut after, width, clue, sets[place]);
    }
    kept
}

// Fills in for each number of values the levels of the starts that have so many. No level has a mask before.
fn add_starts<const W: usize>(sets: &[NumberSet], clue: usize, starts: &mut [Levels<W>; 10])
    requires some { 0 < length sets.now }
    requires short { length sets.now ≤ 9 }
    requires clue { clue ≤ 9 }
    requires room { length sets.now ≤ 7 + W }
    requires words { 0 < W }
    requires small { W ≤ 2 }
    requires blank { (place level mask : ℕ) → place < 10
        → has_at (slice_index_or starts.old place []) level mask ≡ false }
    ensures { (place : ℕ) → place ≤ length sets.now
        → AreReached sets.now clue place (slice_index_or starts.new place []) }
{
    let width = sets.len() as u8;
    starts[0] = first_levels(clue);
    for place in 0..sets.len() {
        let (done, next) = starts.split_at_mut(place + 1);
        add_levels(&done[place], place, width, clue, sets[place], &mut next[0]);
    }
}

// No value for any square.
fn no_values() -> [NumberSet; 9]
    ensures { result ≡ replicate 9 no_numbers }
{
    [NumberSet::empty(); 9]
}
