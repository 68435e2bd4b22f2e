//! Items that are tried in turn: each stays or goes by a test of the puzzle without it.

ghost use Rattle.std.specs.Prelude.{◌≡◌, ℕ, ◌<◌, Bool, [], ◌∷◌, length, slice_index};
ghost use Rattle.std.specs.Bool.{OnFalse, OnTrue};
ghost use Rattle.needed_items.specs.Needed.{all_but};
ghost use Rattle.needed_items.specs.InTurn.{IsLeftInTurn, items_in};

use crate::order::Order;
use trail_solver::Rules;

/// A test of puzzles, by which an item stays or goes.
pub trait Test<P: Rules> {
    // Which puzzles pass, and which fail.
    ghost passes: { Self → P → Type 0 };

    ghost fails: { Self → P → Type 0 };

    /// Whether the puzzle, which passes, fails without the item; it passes without it otherwise.
    fn fails_without(&self, puzzle: &P, item: usize) -> bool
        requires inside { item < P.items_of (P.puzzle puzzle.now).size }
        requires passes { passes self.now puzzle.now }
        ensures fails { OnTrue result (fails self.now (P.cut puzzle.now (all_but item))) }
        ensures passes { OnFalse result (passes self.now (P.cut puzzle.now (all_but item))) };

    // No puzzle both passes and fails.
    ghost apart: { (test : Self) (p : P) → passes test p → fails test p → ⊥ };
}

/// The puzzle that is left of one that passes, where the items are tried in this order. It passes, too.
pub fn left_in_turn<P: Rules, T: Test<P>>(puzzle: &P, order: &Order, test: &T) -> P
    requires inside { (k : ℕ) → k < length (items_in order.now)
        → slice_index (items_in order.now) k < P.items_of (P.puzzle puzzle.now).size }
    requires passes { T.passes test.now puzzle.now }
    ensures in_turn { IsLeftInTurn ⟦<P as Rules>⟧ (T.fails test.now) (items_in order.now) puzzle.now result }
    ensures passes { T.passes test.now result }
{
    let mut left = *puzzle;
    for k in 0..order.len() {
        left = tried(left, order.item(k), test);
    }
    left
}

// The puzzle without the item, where that passes, or otherwise the puzzle itself.
fn tried<P: Rules, T: Test<P>>(puzzle: P, item: usize, test: &T) -> P
    requires inside { item < P.items_of (P.puzzle puzzle).size }
    requires passes { T.passes test.now puzzle }
    ensures in_turn { IsLeftInTurn ⟦<P as Rules>⟧ (T.fails test.now) (item ∷ []) puzzle result }
    ensures passes { T.passes test.now result }
    ensures size { (P.puzzle result).size ≡ (P.puzzle puzzle).size }
{
    let _size = puzzle.size();
    if !puzzle.has_item(item) || test.fails_without(&puzzle, item) {
        return puzzle;
    }
    let mut fewer = puzzle;
    fewer.drop_item(item);
    fewer
}
