//! Reasons that strike at two places of a chain, where one of them is enough.
//! Nothing here ensures anything: `short_chain` follows what comes of it step by step, and tells it only where it is a chain.
ghost use Rattle.std.specs.Prelude.{◌<◌, length};

use crate::aims::Aim;
use crate::chain::Step;
use crate::needs::Values;
use crate::replays::come_to;
use latin_board::{CELLS, OutOfMemory};
use named_steps::{Grade, Reason, Steps};
use std::alloc::Global;
use trail_solver::{Candidates, Rules};

// In a longer chain nobody sees which reasons come again, and each try takes longer.
const MOST_STEPS: usize = 30;

// How many times two places become one.
const MOST_JOINS: usize = 8;

/// A chain's steps to the aim, with places of a reason made one, two at a time: all that it strikes at both
/// is struck at the later one, or otherwise at the earlier one, where the steps still come to the aim.
#[inline(never)]
pub(crate) fn joined<P: Steps>(
    alloc: Global,
    p: &P,
    grade: Grade,
    candidates: &mut Candidates,
    steps: Vec<Step>,
    aim: Aim,
    cache: &mut P::Cache,
) -> Result<Vec<Step>, OutOfMemory> {
    let mut now = steps;
    if now.len() > MOST_STEPS {
        return Ok(now);
    }
    for _ in 0..MOST_JOINS {
        match joined_once(alloc, p, grade, candidates, now.as_slice(), aim, cache)? {
            Some(next) => now = next,
            None => return Ok(now),
        }
    }
    Ok(now)
}

// The steps with two places joined, if two can be.
fn joined_once<P: Steps>(
    alloc: Global,
    p: &P,
    grade: Grade,
    candidates: &mut Candidates,
    steps: &[Step],
    aim: Aim,
    cache: &mut P::Cache,
) -> Result<Option<Vec<Step>>, OutOfMemory> {
    for from_end in 0..steps.len() {
        let early = steps.len() - 1 - from_end;
        if is_start(steps, early) {
            let next = joined_from(alloc, p, grade, candidates, steps, early, aim, cache)?;
            if next.is_some() {
                return Ok(next);
            }
        }
    }
    Ok(None)
}

// The steps with the look at an index and a later one of the same reason joined, if that can be.
fn joined_from<P: Steps>(
    alloc: Global,
    p: &P,
    grade: Grade,
    candidates: &mut Candidates,
    steps: &[Step],
    early: usize,
    aim: Aim,
    cache: &mut P::Cache,
) -> Result<Option<Vec<Step>>, OutOfMemory>
    requires { early < length steps.now }
{
    for late in early + 1..steps.len() {
        if steps[late].is_same_look(&steps[early]) && is_start(steps, late) {
            for at in [late, early] {
                let next = with_both_at(alloc, steps, early, late, at)?;
                if leads(p, grade, candidates, next.as_slice(), aim, cache) {
                    return Ok(Some(next));
                }
            }
        }
    }
    Ok(None)
}

// Whether a look begins at an index: the step before it has another reason.
fn is_start(steps: &[Step], at: usize) -> bool
    requires { at < length steps.now }
{
    at == 0 || !steps[at].is_same_look(&steps[at - 1])
}

// Whether steps are a chain of the grade's to the aim.
fn leads<P: Steps>(
    p: &P,
    grade: Grade,
    candidates: &mut Candidates,
    steps: &[Step],
    aim: Aim,
    cache: &mut P::Cache,
) -> bool {
    let size = candidates.size();
    p.size() == size && aim.is_of(size) && come_to(p, grade, candidates, steps, aim, cache)
}

// The steps where all that the looks from two places on strike is struck at one of them, square by square.
fn with_both_at(
    alloc: Global,
    steps: &[Step],
    early: usize,
    late: usize,
    at: usize,
) -> Result<Vec<Step>, OutOfMemory> {
    let (early_end, late_end) = (end_of(steps, early), end_of(steps, late));
    let mut both = Values::none();
    let mut next = Vec::new(alloc);
    for index in 0..steps.len() {
        let is_of_both = (early <= index && index < early_end)
            || (late <= index && index < late_end);
        if is_of_both {
            both.add(steps[index].cell as usize, steps[index].values);
        }
    }
    for index in 0..steps.len() {
        let is_of_both = (early <= index && index < early_end)
            || (late <= index && index < late_end);
        if index == at {
            list_all(&mut next, &steps[index].reason, &both)?;
        }
        if !is_of_both {
            next.push(steps[index])?;
        }
    }
    Ok(next)
}

// Where the look from an index on ends.
fn end_of(steps: &[Step], start: usize) -> usize {
    for index in 0..steps.len() {
        if index > start && is_start(steps, index) {
            return index;
        }
    }
    steps.len()
}

// Lists what a reason strikes.
fn list_all(steps: &mut Vec<Step>, reason: &Reason, values: &Values) -> Result<(), OutOfMemory> {
    for cell in 0..CELLS {
        let struck = values.of(cell);
        if !struck.is_empty() {
            let step = Step {
                reason: *reason,
                cell: cell as u8,
                values: struck,
            };
            steps.push(step)?;
        }
    }
    Ok(())
}
