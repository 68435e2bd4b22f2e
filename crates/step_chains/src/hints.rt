//! The next hint of a grid: by the steps of the least grade that lead to one.
ghost use Rattle.line_steps.specs.Reasons.{StruckBy};
ghost use Rattle.std.specs.Prelude.{◌≡◌, IfOk};
ghost use Rattle.step_chains.specs.NextHints.{IsHint, IsHintFrom, IsRightWithin};
ghost use Rattle.step_chains.specs.Inner.Views.{seen};
ghost use Rattle.step_chains.specs.Inner.FromEachView.{IsNextHint, IsTimelyHint, IsNeededHint, SaysAllForced};

use crate::aims::Aim;
use crate::chain::{Chain, Refutation};
use crate::explaining::{chain_to, refutation_at};
use crate::first_aims::first_aim;
use crate::view::view_of;
use latin_board::{Grid, OutOfMemory};
use named_steps::{Grade, Steps, laws};
use std::alloc::Global;
use trail_solver::{Candidates, Rules};

/// The next hint of a grid by steps.
#[derive(Debug, Drop)]
pub enum NextHint {
    /// These steps of the grade show a number of an empty square, and those of no grade below show any.
    Follows {
        grade: Grade,
        chain: Chain,
    },
    /// These steps of the grade refute the grid's numbers, and those of no grade below do: some number is wrong.
    Refuted {
        grade: Grade,
        refutation: Refutation,
    },
    /// No steps show a number of an empty square, and none refute the grid's numbers.
    Nothing,
}

/// The next hint of a grid: where steps refute the numbers, the steps of the least grade that do; otherwise the number that steps of the
/// least grade show. `OutOfMemory` where a growth was refused. The grid has the puzzle's size.
#[inline(never)]
pub fn next_hint<P: Steps>(alloc: Global, p: &P, grid: &Grid) -> Result<NextHint, OutOfMemory>
    requires { grid.now.size ≡ (P.puzzle p.now).size }
    ensures { IfOk result (IsHint (P.puzzle p.now) (StruckBy P.puzzle P.own p.now) grid.now) }
{
    next_hint_from(alloc, p, grid, &view_of(grid))
}

/// The same from candidates that are in view: the steps begin from these, and what they show is so in each solution within them.
#[inline(never)]
pub fn next_hint_from<P: Steps>(
    alloc: Global,
    p: &P,
    grid: &Grid,
    view: &Candidates,
) -> Result<NextHint, OutOfMemory>
    requires grid { grid.now.size ≡ (P.puzzle p.now).size }
    requires view { view.now.size ≡ grid.now.size }
    ensures { IfOk result (IsHintFrom (P.puzzle p.now) (StruckBy P.puzzle P.own p.now) grid.now view.now) }
{
    // `cache` serves all that follows, since it takes ten kilobytes of the stack.
    let mut cache = P::Cache::default();
    hint_knowing(alloc, p, grid, view, &mut cache)
}

// The next hint of a grid, with `cache`, which is used and added to.
fn hint_knowing<P: Steps>(
    alloc: Global,
    p: &P,
    grid: &Grid,
    view: &Candidates,
    cache: &mut P::Cache,
) -> Result<NextHint, OutOfMemory>
    requires grid { grid.now.size ≡ (P.puzzle p.now).size }
    requires view { view.now.size ≡ grid.now.size }
    ensures least { IfOk result (IsNextHint (StruckBy P.puzzle P.own p.now) (seen grid.now view.now)) }
    ensures timely { IfOk result (IsTimelyHint (seen grid.now view.now)) }
    ensures needed { IfOk result (IsNeededHint (StruckBy P.puzzle P.own p.now) (seen grid.now view.now)) }
    ensures right { IfOk result (IsRightWithin (P.puzzle p.now) grid.now view.now) }
    ensures forced { IfOk result (SaysAllForced (StruckBy P.puzzle P.own p.now) (seen grid.now view.now)) }
{
    laws::<P>();
    let _valid = p.size();
    let Some(first) = first_aim(p, grid, view, cache) else {
        return Ok(NextHint::Nothing);
    };
    match first.aim {
        Aim::Number(goal) => {
            let chain = chain_to(alloc, p, grid, view, first.grade, goal, cache)?;
            Ok(NextHint::Follows {
                grade: first.grade,
                chain,
            })
        }
        Aim::Nothing { cell } => {
            let refutation = refutation_at(alloc, p, grid, view, first.grade, cell, cache)?;
            Ok(NextHint::Refuted {
                grade: first.grade,
                refutation,
            })
        }
    }
}
