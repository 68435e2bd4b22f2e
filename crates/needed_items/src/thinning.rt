//! A puzzle without what it can do without.

ghost use Rattle.std.specs.Prelude.{◌≡◌};
ghost use Rattle.trail_solver.specs.Solutions.{IsOnlySolution};
ghost use Rattle.needed_items.specs.Needed.{HasOnly, IsThinned};
ghost use Rattle.needed_items.specs.InTurn.{HasSeveral, IsLeftInTurn, falling};

use crate::in_turn::{Test, left_in_turn};
use crate::needed::is_needed;
use crate::order::Order;
use latin_board::Grid;
use trail_solver::Rules;

// Whether a grid stays the only solution.
#[derive(Clone, Copy)]
struct OnlySolution<'a>(&'a Grid);

impl<'a, P: Rules> Test<P> for OnlySolution<'a> {
    ghost passes = { λ test. HasOnly ⟦<P as Rules>⟧ test.0.now };

    ghost fails = { λ test. HasSeveral ⟦<P as Rules>⟧ };

    fn fails_without(&self, puzzle: &P, item: usize) -> bool {
        is_needed(puzzle, self.0, item)
    }

    ghost use Rattle.std.proofs.Common.{◌∙◌, sym};

    ghost apart = { λ _ _ only two.
        two.differ (only.only two.one two.one_solves ∙ sym (only.only two.other two.other_solves)) };
}

/// The puzzle without items that it can do without: each is tried once, from the last to the first, and goes where the grid, the
/// only solution, stays the only one. The puzzle that is left needs each of its items.
pub fn thinned<P: Rules>(puzzle: &P, grid: &Grid) -> P
    requires only { IsOnlySolution (P.puzzle puzzle.now) grid.now }
    ensures thinned { IsThinned ⟦<P as Rules>⟧ (HasOnly ⟦<P as Rules>⟧ grid.now) puzzle.now result }

    // Which of such puzzles it is.
    ensures in_turn { IsLeftInTurn ⟦<P as Rules>⟧ (HasSeveral ⟦<P as Rules>⟧)
        (falling (P.items_of (P.puzzle puzzle.now).size)) puzzle.now result }
{
    let count = P::item_count(puzzle.size());
    left_in_turn(puzzle, &Order::Falling(count), &OnlySolution(grid))
}
