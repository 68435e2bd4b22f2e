//! Which puzzles follow by a grade.
ghost use Rattle.line_steps.specs.Reasons.{StruckBy};
ghost use Rattle.std.specs.Prelude.{◌↔◌, ◌*◌, ◌<◌, IsTrue, MatchOption};
ghost use Rattle.named_steps.specs.Graded.{FollowsBy, IsGradeOf, IsSolutionBy};
ghost use Rattle.trail_solver.specs.Inner.Squares.{IsFilled};
ghost use Rattle.named_steps.specs.Inner.Fills.{HasOpen};

use latin_board::Grid;
use line_steps::{Grade, Steps, settle};
use trail_solver::{Candidates, Rules, solves};

/// The solution of a puzzle, where it follows by the reasons of a grade: they leave nothing else of all pairs.
pub fn solution_by<P: Steps>(p: &P, grade: Grade) -> Option<Grid>
    ensures { MatchOption result (FollowsBy (P.puzzle p.now) (StruckBy P.puzzle P.own p.now) grade → ⊥)
        (IsSolutionBy (P.puzzle p.now) (StruckBy P.puzzle P.own p.now) grade) }
{
    solution_knowing(p, grade, &mut P::Cache::default())
}

// As `solution_by`, with `cache`, which is used and added to.
fn solution_knowing<P: Steps>(p: &P, grade: Grade, cache: &mut P::Cache) -> Option<Grid>
    ensures { MatchOption result (FollowsBy (P.puzzle p.now) (StruckBy P.puzzle P.own p.now) grade → ⊥)
        (IsSolutionBy (P.puzzle p.now) (StruckBy P.puzzle P.own p.now) grade) }
{
    let mut candidates = Candidates::all(p.size());
    if !settle(p, grade, &mut candidates, cache) {
        return None;
    }
    let Some(grid) = filled(&candidates) else {
        return None;
    };
    if solves(p, &grid) { Some(grid) } else { None }
}

/// Whether a puzzle follows by the reasons of a grade.
pub fn follows<P: Steps>(p: &P, grade: Grade) -> bool
    ensures { IsTrue result ↔ FollowsBy (P.puzzle p.now) (StruckBy P.puzzle P.own p.now) grade }
{
    follows_knowing(p, grade, &mut P::Cache::default())
}

// As `follows`, with `cache`, which is used and added to.
fn follows_knowing<P: Steps>(p: &P, grade: Grade, cache: &mut P::Cache) -> bool
    ensures { IsTrue result ↔ FollowsBy (P.puzzle p.now) (StruckBy P.puzzle P.own p.now) grade }
{
    solution_knowing(p, grade, cache).is_some()
}

/// The least grade by which a puzzle follows, if it follows by any.
pub fn grade_of<P: Steps>(p: &P) -> Option<Grade>
    ensures { IsGradeOf (P.puzzle p.now) (StruckBy P.puzzle P.own p.now) result }
{
    let mut cache = P::Cache::default();
    if follows_knowing(p, Grade::Latin, &mut cache) {
        return Some(Grade::Latin);
    }
    if follows_knowing(p, Grade::Easy, &mut cache) {
        return Some(Grade::Easy);
    }
    if follows_knowing(p, Grade::Hard, &mut cache) {
        return Some(Grade::Hard);
    }
    None
}

// The grid of the only values that are left, where one is left of each square.
fn filled(candidates: &Candidates) -> Option<Grid>
    ensures { MatchOption result (HasOpen candidates.now) (IsFilled candidates.now) }
{
    let size = candidates.size();
    let width = size.get() as usize;
    let mut grid = Grid::blank(size);
    for cell in 0..width * width {
        let value = candidates.only(cell)?;
        grid.set(cell, value);
    }
    Some(grid)
}
