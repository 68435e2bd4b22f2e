//! The solutions that keep what stands on a grid.
ghost use Rattle.std.specs.Prelude.{◌≡◌};
ghost use Rattle.trail_solver.specs.Answers.{Fits};
ghost use Rattle.trail_solver.specs.Candidates.{IsCandidates};
ghost use Rattle.trail_solver.specs.Completions.{AreOfGrid, Completes};

use crate::answer::Answer;
use crate::candidates::Candidates;
use crate::rules::Rules;
use crate::search::Search;
use crate::squares::keep_only;
use latin_board::Grid;

/// The candidates that the grid's numbers leave: a square with a number has that number alone, and an empty one has each
/// number of the size.
pub fn grid_candidates(grid: &Grid) -> Candidates
    ensures exact { AreOfGrid grid.now result }
    ensures valid { IsCandidates result }
{
    let size = grid.size();
    let width = size.get() as usize;
    let mut candidates = Candidates::all(size);
    for cell in 0..width * width {
        let number = grid.get(cell);
        if number != 0 {
            keep_only(&mut candidates, cell, number);
        }
    }
    let _valid = candidates.size();
    candidates
}

/// How many solutions keep the numbers that stand on the grid, with the only one or with two of them. The grid has the
/// puzzle's size, and need not have its givens. It takes no memory.
#[tactic(auto, using(crate::proofs::GridCandidates::completions_fit))]
pub fn completion<P: Rules>(p: &P, grid: &Grid) -> Answer
    requires { grid.now.size ≡ (P.puzzle p.now).size }
    ensures { Fits (Completes (P.puzzle p.now) grid.now) result }
{
    let mut search = Search::among(p, grid_candidates(grid));
    search.settled_answer()
}
