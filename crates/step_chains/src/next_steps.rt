//! All steps that a grade's reasons have, one after another, until they strike nothing more or a square is left nothing.
ghost use Rattle.line_steps.specs.Reasons.{StruckBy};
ghost use Rattle.std.specs.Prelude.{◌≡◌, ◌*◌, ◌<◌, MatchOption, IfOk};
ghost use Rattle.line_steps.specs.Settled.{IsSettled};
ghost use Rattle.step_chains.specs.ChainValues.{steps_of, HasSome};
ghost use Rattle.step_chains.specs.Inner.Replays.{AreTimely, Leads};
ghost use Rattle.step_chains.specs.Inner.Quiet.{IsNew, IsIdleIn, IsIdle, IsIdleAt, AreIdleIn};

use crate::aims::first_empty;
use crate::chain::Step;
use crate::reasons::{PARTS, Part};
use latin_board::OutOfMemory;
use named_steps::{Grade, Reason, Steps};
use std::alloc::Global;
use trail_solver::{Candidates, Rules};

/// Takes away all that the grade's reasons strike, one square after another, while something is left of each, and tells by which steps.
/// The sizes are equal. `cache` is used and added to, here and in what follows.
pub(crate) fn all_steps<P: Steps>(
    alloc: Global,
    p: &P,
    grade: Grade,
    candidates: &mut Candidates,
    cache: &mut P::Cache,
) -> Result<Vec<Step>, OutOfMemory>
    requires { candidates.old.size ≡ (P.puzzle p.now).size }
    ensures leads { IfOk result
        (λ steps. Leads (StruckBy P.puzzle P.own p.now) grade candidates.old (steps_of steps.items) candidates.new) }
    ensures timely { IfOk result (λ steps. AreTimely candidates.old (steps_of steps.items)) }
    ensures settled { IfOk result
        (λ _. HasSome candidates.new → IsSettled (StruckBy P.puzzle P.own p.now) grade candidates.new) }
{
    let mut steps = Vec::new(alloc);
    while let Some(step) = next_in_time(p, grade, candidates, cache) {
        candidates.remove_all(step.cell as usize, step.values);
        let _size = candidates.size();
        let _len = candidates.trail_len();
        steps.push(step)?;
    }
    Ok(steps)
}

// A step of the grade's that strikes something that is left, if there is one and something is left of each square. The sizes are equal.
fn next_in_time<P: Steps>(
    p: &P,
    grade: Grade,
    candidates: &Candidates,
    cache: &mut P::Cache,
) -> Option<Step>
    requires { candidates.now.size ≡ (P.puzzle p.now).size }
    ensures { MatchOption result (HasSome candidates.now → IsSettled (StruckBy P.puzzle P.own p.now) grade candidates.now)
        (λ step. HasSome candidates.now × IsNew (StruckBy P.puzzle P.own p.now) grade candidates.now step) }
{
    match first_empty(candidates) {
        Some(_) => None,
        None => next_step(p, grade, candidates, cache),
    }
}

// A step of the grade's that strikes something that is left, if there is one. The sizes are equal.
fn next_step<P: Steps>(
    p: &P,
    grade: Grade,
    candidates: &Candidates,
    cache: &mut P::Cache,
) -> Option<Step>
    requires { candidates.now.size ≡ (P.puzzle p.now).size }
    ensures { MatchOption result (IsSettled (StruckBy P.puzzle P.own p.now) grade candidates.now)
        (IsNew (StruckBy P.puzzle P.own p.now) grade candidates.now) }
{
    let _valid = p.size();
    let _size = candidates.size();
    for part in 0..PARTS.len() {
        if let Some(step) = step_in_part(p, grade, candidates, PARTS[part], cache) {
            return Some(step);
        }
    }
    None
}

// A step that strikes something that is left, by a reason of a part of the list, if there is one.
fn step_in_part<P: Steps>(
    p: &P,
    grade: Grade,
    candidates: &Candidates,
    part: Part,
    cache: &mut P::Cache,
) -> Option<Step>
    requires { candidates.now.size ≡ (P.puzzle p.now).size }
    ensures { MatchOption result (AreIdleIn (StruckBy P.puzzle P.own p.now) grade candidates.now part)
        (IsNew (StruckBy P.puzzle P.own p.now) grade candidates.now) }
{
    for index in 0..part.count(candidates.size()) {
        if let Some(step) = step_at(p, grade, candidates, part, index, cache) {
            return Some(step);
        }
    }
    None
}

// A step that strikes something that is left, by the reason at a place of a part, if there is one.
fn step_at<P: Steps>(
    p: &P,
    grade: Grade,
    candidates: &Candidates,
    part: Part,
    index: usize,
    cache: &mut P::Cache,
) -> Option<Step>
    requires { candidates.now.size ≡ (P.puzzle p.now).size }
    ensures { MatchOption result (IsIdleAt (StruckBy P.puzzle P.own p.now) grade candidates.now part index)
        (IsNew (StruckBy P.puzzle P.own p.now) grade candidates.now) }
{
    let reason = part.nth(candidates, index)?;
    step_by(p, grade, candidates, &reason, cache)
}

// The step by which a reason strikes something of what is left, in the first square where it does.
fn step_by<P: Steps>(
    p: &P,
    grade: Grade,
    candidates: &Candidates,
    reason: &Reason,
    cache: &mut P::Cache,
) -> Option<Step>
    requires { candidates.now.size ≡ (P.puzzle p.now).size }
    ensures { MatchOption result (IsIdle (StruckBy P.puzzle P.own p.now) grade candidates.now reason.now)
        (IsNew (StruckBy P.puzzle P.own p.now) grade candidates.now) }
{
    let width = candidates.size().get() as usize;
    for cell in 0..width * width {
        if let Some(step) = step_in(p, grade, candidates, reason, cell, cache) {
            return Some(step);
        }
    }
    None
}

// The step by which a reason strikes something of what is left of a square, if it does.
fn step_in<P: Steps>(
    p: &P,
    grade: Grade,
    candidates: &Candidates,
    reason: &Reason,
    cell: usize,
    cache: &mut P::Cache,
) -> Option<Step>
    requires size { candidates.now.size ≡ (P.puzzle p.now).size }
    requires inside { cell < candidates.now.size * candidates.now.size }
    ensures { MatchOption result (IsIdleIn (StruckBy P.puzzle P.own p.now) grade candidates.now reason.now cell)
        (IsNew (StruckBy P.puzzle P.own p.now) grade candidates.now) }
{
    let _size = candidates.size();
    if !grade.has(*reason) {
        return None;
    }
    let struck = p.strikes(candidates, *reason, cell, cache);
    let values = struck.intersection(candidates.values(cell));
    if values.is_empty() {
        return None;
    }
    Some(Step {
        reason: *reason,
        cell: cell as u8,
        values,
    })
}
