//! The removal of items: each is tried in turn, and goes if the rest still follows by the grade.

ghost use Rattle.latin_board.specs.Squares.{IsLatin};
ghost use Rattle.line_steps.specs.Reasons.{StruckBy};
ghost use Rattle.named_steps.specs.Following.{Follows};
ghost use Rattle.fair_games.specs.Pruned.{IsTrial, IsPrunedBy};
ghost use Rattle.fair_games.specs.Fair.{FailsBy};

use crate::thinning::ByGrade;
use latin_board::Grid;
use named_steps::{Grade, Steps};
use needed_items::{Order, left_in_turn};
use trail_solver::Rules;

/// The pruned puzzle of a Latin square, where the items are tried in this order. It follows by the grade.
pub(crate) fn pruned<P: Steps>(grid: &Grid, order: &[u8], grade: Grade) -> P
    requires latin { IsLatin grid.now }
    requires trial { IsTrial (P.items_of grid.now.size) order.now }
    ensures pruned { IsPrunedBy ⟦<P as Rules>⟧ (FailsBy (StruckBy P.puzzle P.own) grade grid.now) grid.now order.now result }
    ensures follows { Follows (StruckBy P.puzzle P.own result) grade grid.now }
{
    let _size = grid.size();
    left_in_turn(&P::full(grid), &Order::Listed(order), &ByGrade(grade))
}
