//! A row: a set for each square of a line, in the order in which a clue sees them, and whether one row is within another.
//!
//! The values of such a row's fillings are in `row_fillings`, those that are remembered in `row_cache`, and
//! `low_towers` uses no row.

ghost use Rattle.std.specs.Bool.{MatchBool};
ghost use Rattle.towers_game.specs.Inner.RowSets.{AreWithin};

use number_sets::NumberSet;

/// Whether each set of a row is within that of another row. The sets are compared without a branch, so that a processor takes several at
/// once.
pub(crate) fn are_within(some: &[NumberSet; 9], all: &[NumberSet; 9]) -> bool
    ensures { MatchBool result (AreWithin some.now all.now) (AreWithin some.now all.now → ⊥) }
{
    let mut beyond = NumberSet::empty();
    for k in 0..9 {
        beyond = beyond.union(some[k].difference(all[k]));
    }
    beyond.is_empty()
}
