//! The slice of a long chain that an aim needs, with the strikes of a reason side by side.
//! Nothing here ensures anything: `short_chain` follows what comes of it step by step, and tells it only where it is a chain.

use crate::aims::Aim;
use crate::chain::Step;
use crate::needs::{Values, left, looked_at, needs_of};
use crate::premises::few_premises;
use crate::replays::{struck, take};
use latin_board::{CELLS, OutOfMemory};
use named_steps::{Reason, Steps};
use std::alloc::Global;
use trail_solver::{Candidates, Rules};

/// The steps of a chain from the candidates on which the aim stands, in their order, each with the values that are used.
#[inline(never)]
pub(crate) fn slice<P: Steps>(
    alloc: Global,
    p: &P,
    candidates: &mut Candidates,
    steps: &[Step],
    aim: Aim,
    cache: &mut P::Cache,
) -> Result<Vec<Step>, OutOfMemory> {
    let mut needs = needs_of(candidates, aim);
    let mut gone = Values::none();
    for step in steps {
        gone.add(step.cell as usize, step.values);
    }
    let mut kept = Vec::new(alloc);
    for i in 0..steps.len() {
        let index = steps.len() - 1 - i;
        let step = &steps[index];
        let cell = step.cell as usize;
        let values = step.values.intersection(needs.of(cell));
        gone.remove(cell, step.values);
        if !values.is_empty() {
            needs.remove(cell, values);
            let step = Step {
                reason: step.reason,
                cell: step.cell,
                values,
            };
            let rest = few_premises(p, candidates, &steps[..index], &gone, &needs, &step, cache);
            for at in looked_at(candidates.size(), &step.reason) {
                needs.add(at as usize, rest.of(at as usize));
            }
            kept.push(step)?;
        }
    }
    kept.reverse();
    Ok(kept)
}

/// The chain in which each reason strikes, where it first strikes, all that it is to strike in any of the
/// steps, as far as it does so by then, in the order of the squares. Each value is listed once.
#[inline(never)]
pub(crate) fn gathered<P: Steps>(
    alloc: Global,
    p: &P,
    candidates: &mut Candidates,
    steps: &[Step],
    cache: &mut P::Cache,
) -> Result<Vec<Step>, OutOfMemory> {
    let mark = candidates.mark();
    let mut found = Vec::new(alloc);
    for index in 0..steps.len() {
        let step = &steps[index];
        let is_gone = step
            .values
            .is_disjoint(left(candidates, step.cell as usize));
        if !is_gone {
            gather(p, candidates, &steps[index..], &mut found, cache)?;
        }
    }
    if mark.len() <= candidates.trail_len() {
        candidates.give_back(mark);
    }
    Ok(found)
}

// Lists all that the reason of the first step is to strike in any of the steps, as far as it does so by what
// is left now, and takes it away.
fn gather<P: Steps>(
    p: &P,
    candidates: &mut Candidates,
    steps: &[Step],
    found: &mut Vec<Step>,
    cache: &mut P::Cache,
) -> Result<(), OutOfMemory> {
    let Some(first) = steps.first() else {
        return Ok(());
    };
    let reason = &first.reason;
    let now = struck_now(p, candidates, steps, reason, cache);
    for cell in 0..CELLS {
        let values = now.of(cell);
        if !values.is_empty() {
            let step = Step {
                reason: *reason,
                cell: cell as u8,
                values,
            };
            take(candidates, &step);
            found.push(step)?;
        }
    }
    Ok(())
}

// The values that a reason is to strike in the steps, that are left, and that it strikes by what is left now.
fn struck_now<P: Steps>(
    p: &P,
    candidates: &Candidates,
    steps: &[Step],
    reason: &Reason,
    cache: &mut P::Cache,
) -> Values {
    let mut now = Values::none();
    for step in steps {
        if step.reason == *reason {
            let cell = step.cell as usize;
            let strikes = struck(p, candidates, reason, cell, cache);
            let values = step.values.intersection(left(candidates, cell));
            now.add(cell, values.intersection(strikes));
        }
    }
    now
}
