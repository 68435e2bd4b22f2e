//! The chains of hints: to a number of an empty square, or to a square that is left nothing.
ghost use Rattle.line_steps.specs.Reasons.{StruckBy};
ghost use Rattle.std.specs.Prelude.{◌≡◌, ◌*◌, ◌<◌, IfOk, IfSome};
ghost use Rattle.line_steps.specs.declared.grade.Grade.TheVariants.{Hard};
ghost use Rattle.named_steps.specs.declared.goal.Goal.TheVariants.{OnlyValue};
ghost use Rattle.step_chains.specs.ChainValues.{steps_of};
ghost use Rattle.step_chains.specs.Inner.FromEachView.{IsExplainedFrom, IsRefutation, AreNeededFrom, IsRefutedGrid, IsTimelyFrom};
ghost use Rattle.step_chains.specs.Inner.Views.{seen};
ghost use Rattle.step_chains.specs.Inner.Aims.{IsAimOf, IsAimOrRefuted, IsReached, aim_goal};
ghost use Rattle.step_chains.specs.Inner.Goals.{IsOfEmptySquare, IsShownByAll};

use crate::aims::{Aim, Aimed};
use crate::chain::{Chain, Refutation};
use crate::goals::is_open;
use crate::kinds::Sought;
use crate::next_steps::all_steps;
use crate::shortest::short_chain;
use crate::tightening::tighten;
use crate::view::copy_of;
use latin_board::{Grid, OutOfMemory};
use named_steps::{Goal, Grade, Steps};
use std::alloc::Global;
use trail_solver::{Candidates, Rules};

/// A chain that shows a number of an empty square, and rather a short one. All steps together show this one.
#[inline(never)]
pub(crate) fn chain_to<P: Steps>(
    alloc: Global,
    p: &P,
    grid: &Grid,
    view: &Candidates,
    grade: Grade,
    goal: Goal,
    cache: &mut P::Cache,
) -> Result<Chain, OutOfMemory>
    requires size { grid.now.size ≡ (P.puzzle p.now).size }
    requires view { view.now.size ≡ grid.now.size }
    requires open { IsOfEmptySquare grid.now goal }
    requires shown { IsShownByAll (StruckBy P.puzzle P.own p.now) grade (seen grid.now view.now) goal }
    requires holds { IsRefutedGrid (StruckBy P.puzzle P.own p.now) Hard (seen grid.now view.now) → ⊥ }
    ensures is { IfOk result
        (λ chain. IsExplainedFrom (StruckBy P.puzzle P.own p.now) grade (seen grid.now view.now) (steps_of chain.steps.items) chain.goal) }
    ensures timely { IfOk result (λ chain. IsTimelyFrom (seen grid.now view.now) (steps_of chain.steps.items)) }
    ensures needed { IfOk result
        (λ chain. AreNeededFrom (StruckBy P.puzzle P.own p.now) grade (seen grid.now view.now) (steps_of chain.steps.items) chain.goal) }
{
    if let Some(chain) = short_number(alloc, p, grid, view, grade, cache)? {
        return Ok(chain);
    }
    plain_number(alloc, p, grid, view, grade, goal, cache)
}

// A short chain to a number of an empty square, where one is found.
#[inline(never)]
fn short_number<P: Steps>(
    alloc: Global,
    p: &P,
    grid: &Grid,
    view: &Candidates,
    grade: Grade,
    cache: &mut P::Cache,
) -> Result<Option<Chain>, OutOfMemory>
    requires size { grid.now.size ≡ (P.puzzle p.now).size }
    requires view { view.now.size ≡ grid.now.size }
    ensures is { IfOk result (λ found. IfSome found
        (λ chain. IsExplainedFrom (StruckBy P.puzzle P.own p.now) grade (seen grid.now view.now) (steps_of chain.steps.items) chain.goal)) }
    ensures timely { IfOk result (λ found. IfSome found (λ chain. IsTimelyFrom (seen grid.now view.now) (steps_of chain.steps.items))) }
    ensures needed { IfOk result (λ found. IfSome found
        (λ chain. AreNeededFrom (StruckBy P.puzzle P.own p.now) grade (seen grid.now view.now) (steps_of chain.steps.items) chain.goal)) }
{
    if let Some(found) = short_chain(alloc, p, grid, view, grade, Sought::NumberShown, cache)? {
        if let Aim::Number(goal) = found.aim {
            if is_open(grid, goal) {
                return Ok(Some(Chain {
                    steps: found.steps,
                    goal,
                }));
            }
        }
    }
    Ok(None)
}

// All steps of the grade's, without those that the number can be shown without. All of them together show it.
#[inline(never)]
fn plain_number<P: Steps>(
    alloc: Global,
    p: &P,
    grid: &Grid,
    view: &Candidates,
    grade: Grade,
    goal: Goal,
    cache: &mut P::Cache,
) -> Result<Chain, OutOfMemory>
    requires size { grid.now.size ≡ (P.puzzle p.now).size }
    requires view { view.now.size ≡ grid.now.size }
    requires open { IsOfEmptySquare grid.now goal }
    requires shown { IsShownByAll (StruckBy P.puzzle P.own p.now) grade (seen grid.now view.now) goal }
    requires holds { IsRefutedGrid (StruckBy P.puzzle P.own p.now) Hard (seen grid.now view.now) → ⊥ }
    ensures is { IfOk result
        (λ chain. IsExplainedFrom (StruckBy P.puzzle P.own p.now) grade (seen grid.now view.now) (steps_of chain.steps.items) chain.goal) }
    ensures timely { IfOk result (λ chain. IsTimelyFrom (seen grid.now view.now) (steps_of chain.steps.items)) }
    ensures needed { IfOk result
        (λ chain. AreNeededFrom (StruckBy P.puzzle P.own p.now) grade (seen grid.now view.now) (steps_of chain.steps.items) chain.goal) }
{
    let found = plain_chain(alloc, p, grid, view, grade, Aim::Number(goal), cache)?;
    Ok(Chain {
        steps: found.steps,
        goal,
    })
}

/// A chain that leaves a square nothing, and rather a short one. All steps together leave this one nothing.
#[inline(never)]
pub(crate) fn refutation_at<P: Steps>(
    alloc: Global,
    p: &P,
    grid: &Grid,
    view: &Candidates,
    grade: Grade,
    cell: usize,
    cache: &mut P::Cache,
) -> Result<Refutation, OutOfMemory>
    requires size { grid.now.size ≡ (P.puzzle p.now).size }
    requires view { view.now.size ≡ grid.now.size }
    requires inside { cell < grid.now.size * grid.now.size }
    requires empty { IsShownByAll (StruckBy P.puzzle P.own p.now) grade (seen grid.now view.now) (OnlyValue cell 0) }
    ensures is { IfOk result (λ r. IsRefutation (StruckBy P.puzzle P.own p.now) grade (seen grid.now view.now) (steps_of r.steps.items) r.cell) }
    ensures timely { IfOk result (λ r. IsTimelyFrom (seen grid.now view.now) (steps_of r.steps.items)) }
    ensures needed { IfOk result
        (λ r. AreNeededFrom (StruckBy P.puzzle P.own p.now) grade (seen grid.now view.now) (steps_of r.steps.items) (OnlyValue r.cell 0)) }
{
    if let Some(found) = short_chain(alloc, p, grid, view, grade, Sought::SquareEmptied, cache)? {
        if let Aim::Nothing { cell } = found.aim {
            return Ok(Refutation {
                steps: found.steps,
                cell,
            });
        }
    }
    let found = plain_chain(alloc, p, grid, view, grade, Aim::Nothing { cell }, cache)?;
    let Aim::Nothing { cell } = found.aim else {
        unreachable!()
    };
    Ok(Refutation {
        steps: found.steps,
        cell,
    })
}

// All steps of the grade's while something is left of each square, but those that aren't needed to come to a
// square that is left nothing, or otherwise to the aim, to which all of them together come.
#[inline(never)]
fn plain_chain<P: Steps>(
    alloc: Global,
    p: &P,
    grid: &Grid,
    view: &Candidates,
    grade: Grade,
    aim: Aim,
    cache: &mut P::Cache,
) -> Result<Aimed, OutOfMemory>
    requires size { grid.now.size ≡ (P.puzzle p.now).size }
    requires view { view.now.size ≡ grid.now.size }
    requires aim { IsAimOf grid.now.size aim }
    requires reached { IsShownByAll (StruckBy P.puzzle P.own p.now) grade (seen grid.now view.now) (aim_goal aim) }
    ensures aim { IfOk result (λ a. IsAimOf grid.now.size a.aim
        × IsAimOrRefuted (StruckBy P.puzzle P.own p.now) grade (seen grid.now view.now) aim a.aim) }
    ensures is { IfOk result
        (λ a. IsReached (StruckBy P.puzzle P.own p.now) grade (seen grid.now view.now) (steps_of a.steps.items) (aim_goal a.aim)) }
    ensures timely { IfOk result (λ a. IsTimelyFrom (seen grid.now view.now) (steps_of a.steps.items)) }
    ensures needed { IfOk result
        (λ a. AreNeededFrom (StruckBy P.puzzle P.own p.now) grade (seen grid.now view.now) (steps_of a.steps.items) (aim_goal a.aim)) }
{
    let mut left = copy_of(grid, view);
    let mut steps = all_steps(alloc, p, grade, &mut left, cache)?;
    let aim = aim.or_nothing(&left);
    tighten(p, grade, &mut copy_of(grid, view), &mut steps, aim, cache);
    Ok(Aimed { steps, aim })
}
