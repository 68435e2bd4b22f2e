//! Whether a puzzle with one solution needs an item.

ghost use Rattle.std.specs.Prelude.{◌≡◌, ◌<◌, ◌↔◌, IsTrue};
ghost use Rattle.std.specs.Bool.{OnTrue, OnFalse};
ghost use Rattle.trail_solver.specs.Solutions.{HasSeveralSolutions, IsOnlySolution};
ghost use Rattle.needed_items.specs.Needed.{HasOnly, IsSpare, all_but};

use latin_board::Grid;
use trail_solver::{Candidates, Rules, has_other};

/// Whether two different grids solve the puzzle without the item. The grid is the only solution with it, and stays it
/// otherwise. A second one doesn't meet the item, so it is sought where the item is denied.
pub fn is_needed<P: Rules>(puzzle: &P, grid: &Grid, item: usize) -> bool
    requires inside { item < P.items_of (P.puzzle puzzle.now).size }
    requires only { IsOnlySolution (P.puzzle puzzle.now) grid.now }
    ensures several { OnTrue result (HasSeveralSolutions (P.puzzle (P.cut puzzle.now (all_but item)))) }
    ensures only { OnFalse result (HasOnly ⟦<P as Rules>⟧ grid.now (P.cut puzzle.now (all_but item))) }
{
    let mut candidates = Candidates::all(puzzle.size());
    let denied = puzzle.deny_item(item, &mut candidates);
    has_other(&denied, candidates, grid)
}

/// Whether the puzzle has the item and could do without it: the grid, its only solution, stays the only one.
#[tactic(auto, using(crate::proofs::SecondSolutions::not_two_of_only))]
pub fn is_spare<P: Rules>(puzzle: &P, grid: &Grid, item: usize) -> bool
    requires inside { item < P.items_of (P.puzzle puzzle.now).size }
    requires only { IsOnlySolution (P.puzzle puzzle.now) grid.now }
    ensures { IsTrue result ↔ IsSpare ⟦<P as Rules>⟧ (HasOnly ⟦<P as Rules>⟧ grid.now) puzzle.now item }
{
    if !puzzle.has_item(item) {
        return false;
    }
    !is_needed(puzzle, grid, item)
}
