//! The removal of items: each is tried once, and goes where the rest still has just one solution.

ghost use Rattle.latin_board.specs.Squares.{IsLatin};
ghost use Rattle.puzzle_gen.specs.Orders.{IsOrder};
ghost use Rattle.needed_items.specs.Needed.{HasOnly};
ghost use Rattle.needed_items.specs.InTurn.{HasSeveral};
ghost use Rattle.puzzle_gen.specs.Inner.OnePruned.{IsOnePruned};

use latin_board::Grid;
use needed_items::{Order, Test, is_needed, left_in_turn};
use trail_solver::Rules;

// Whether a grid stays the only solution.
#[derive(Clone, Copy)]
struct OnlySquare<'a>(&'a Grid);

impl<'a, P: Rules> Test<P> for OnlySquare<'a> {
    ghost passes = { λ test. HasOnly ⟦<P as Rules>⟧ test.0.now };

    ghost fails = { λ test. HasSeveral ⟦<P as Rules>⟧ };

    fn fails_without(&self, puzzle: &P, item: usize) -> bool {
        is_needed(puzzle, self.0, item)
    }

    ghost use Rattle.std.proofs.Common.{◌∙◌, sym};

    ghost apart = { λ _ _ only two.
        two.differ (only.only two.one two.one_solves ∙ sym (only.only two.other two.other_solves)) };
}

/// The pruned puzzle of a Latin square, where the items are tried in this order.
pub(crate) fn pruned<P: Rules>(grid: &Grid, order: &[u8]) -> P
    requires latin { IsLatin grid.now }
    requires order { IsOrder (P.items_of grid.now.size) order.now }
    ensures { IsOnePruned ⟦<P as Rules>⟧ grid.now order.now result }
{
    let _size = grid.size();
    left_in_turn(&P::full(grid), &Order::Listed(order), &OnlySquare(grid))
}
