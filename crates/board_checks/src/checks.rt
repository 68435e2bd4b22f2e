//! The errors of a board, square by square and spot by spot.

ghost use Rattle.std.specs.Prelude.{◌≡◌, ℕ, ◌↔◌, false, IsTrue, slice_index_or};
ghost use Rattle.latin_board.specs.Squares.{GridValue, IsFull};
ghost use Rattle.trail_solver.specs.Completions.{Completes};
ghost use Rattle.trail_solver.specs.Puzzles.{HoldsGivens, Solves};
ghost use Rattle.board_checks.specs.declared.spot.Spot.{Spot};
ghost use Rattle.board_checks.specs.declared.spot.Spot.TheVariants.{Edge, RightOf, Below};
ghost use Rattle.board_checks.specs.Demands.{IsRepeated};
ghost use Rattle.board_checks.specs.Spots.{IsBrokenAt};
ghost use Rattle.board_checks.specs.Errors.{has_repeated, has_broken, HasError};

use crate::board_errors::BoardErrors;
use crate::demands::Demands;
use crate::repeats::is_repeated;
use crate::spot::Spot;
use latin_board::{CELLS, Grid};

/// The errors of a board's grid, which is of the puzzle's size.
///
/// A repeated number is one that stands twice in a row or column. A broken spot is one whose demand can't be met by any
/// numbers in the blank squares of its line. Where there is an error, no solution has all the grid's numbers; a full grid
/// with the puzzle's givens has none just where it is a solution.
pub fn errors<P: Demands>(p: &P, grid: &Grid) -> BoardErrors
    requires { grid.now.size ≡ (P.puzzle p.now).size }
    ensures repeated { (cell : ℕ) → IsTrue (has_repeated result cell) ↔ IsRepeated grid.now cell }
    ensures broken { (spot : Spot) → IsTrue (has_broken result spot) ↔ IsBrokenAt (P.demand p.now) grid.now spot }
    ensures wrong { HasError result → (h : GridValue) → Completes (P.puzzle p.now) grid.now h → ⊥ }
    ensures solved { IsFull grid.now → HoldsGivens (P.puzzle p.now) grid.now
        → (HasError result → ⊥) ↔ Solves (P.puzzle p.now) grid.now }
{
    let _size = p.size();
    let _valid = grid.size();
    let edges = broken_edges(p, grid);
    let width = p.size().get() as usize;
    let mut repeated = [false; CELLS];
    let mut right = [false; CELLS];
    let mut below = [false; CELLS];
    for cell in 0..width * width {
        repeated[cell] = is_repeated(grid, cell);
        right[cell] = p.is_broken(grid, Spot::RightOf { cell });
        below[cell] = p.is_broken(grid, Spot::Below { cell });
    }
    BoardErrors {
        repeated,
        edges,
        right,
        below,
    }
}

// For each edge place whether what is demanded there is broken.
fn broken_edges<P: Demands>(p: &P, grid: &Grid) -> [bool; CELLS]
    requires { grid.now.size ≡ (P.puzzle p.now).size }
    ensures { (place : ℕ) → IsTrue (slice_index_or result place false)
        ↔ IsBrokenAt (P.demand p.now) grid.now (Edge place) }
{
    let width = p.size().get();
    let mut found = [false; CELLS];
    for place in 0..4 * width {
        found[place as usize] = p.is_broken(grid, Spot::Edge { place });
    }
    found
}
