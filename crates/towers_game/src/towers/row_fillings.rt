//! Which numbers the fillings of a row of sets have, where a filling has one number of each set and shows what the clue says.
//!
//! `EachRow`, for the search, looks every row through anew. `RowCache`, for steps, remembers those that it has looked through
//! (`row_cache`).

ghost use Rattle.std.specs.Prelude.{ℕ, ◌≤◌, take, slice_index};
ghost use Rattle.std.specs.Bool.{OnTrue};
ghost use Rattle.number_sets.specs.Sets.{IsEmpty};
ghost use Rattle.towers_game.specs.Inner.RowSets.{AreKept, AreSupported, HoldValuesTo};

use number_sets::NumberSet;
use tower_lines::{seen, supported};

/// A way to find the numbers that the fillings of a row have.
pub(crate) trait RowFillings {
    /// As `tower_lines::supported` of the first sets of a row, so many as the width, where the others are empty.
    fn supported(&mut self, sets: &[NumberSet; 9], width: u8, clue: u8) -> [NumberSet; 9]
        requires width { width ≤ 9 }
        requires clue { clue ≤ 9 }
        requires values { HoldValuesTo width sets.now }
        requires rest { (k : ℕ) → width ≤ k → IsEmpty (slice_index sets.now k) }
        ensures { AreKept (take width sets.now) clue result };
}

/// Looks each row through when it is asked for.
#[derive(Clone, Copy, Debug)]
pub struct EachRow;

impl RowFillings for EachRow {
    fn supported(&mut self, sets: &[NumberSet; 9], width: u8, clue: u8) -> [NumberSet; 9] {
        if shows_alone(sets, width as usize, clue) {
            return *sets;
        }
        supported(&sets[..width as usize], clue)
    }
}

// Whether each set has one value, all different, and these show as many towers as the clue says.
#[tactic(auto, using(crate::proofs::SettledLines::settled_more))]
fn shows_alone(sets: &[NumberSet; 9], width: usize, clue: u8) -> bool
    requires width { width ≤ 9 }
    requires values { HoldValuesTo width sets.now }
    ensures { OnTrue result (AreSupported width clue sets.now sets.now) }
{
    let mut line = [0; 9];
    let mut used = NumberSet::empty();
    for k in 0..width {
        let set = sets[k];
        let Some(value) = set.single() else {
            return false;
        };
        if !used.is_disjoint(set) {
            return false;
        }
        used = used.union(set);
        line[k] = value;
    }
    seen(&line[..width]) as u8 == clue
}
