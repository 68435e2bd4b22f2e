//! The premises of a step: what it needs of what is gone before it.
//! Nothing here ensures anything: `short_chain` follows what comes of it step by step, and tells it only where it is a chain.

use crate::chain::Step;
use crate::needs::{Values, looked_at, needed_in};
use crate::replays::{struck, take_values};
use arrayvec::ArrayVec;
use named_steps::Steps;
use number_sets::NumberSet;
use trail_solver::{Candidates, Rules};

/// Values whose absence lets a step strike its own, of the squares where its reason looks; rather few, since
/// those of the latest steps are left out first if it can do without them. Those needed anyhow stay.
#[inline(never)]
pub(crate) fn few_premises<P: Steps>(
    p: &P,
    candidates: &mut Candidates,
    before: &[Step],
    gone: &Values,
    needs: &Values,
    step: &Step,
    cache: &mut P::Cache,
) -> Values {
    let cells = looked_at(candidates.size(), &step.reason);
    let mut rest = needed_in(&cells, gone, needs);
    if strikes_by(p, candidates, &cells, &rest, step, cache) {
        return rest;
    }
    rest = needed_in(&cells, gone, gone);
    for i in 0..before.len() {
        let made = &before[before.len() - 1 - i];
        leave_out(p, candidates, &cells, &mut rest, needs, step, made, cache);
    }
    rest
}

// Leaves out what one step made, all of it or value by value, where the other step still strikes what it strikes.
fn leave_out<P: Steps>(
    p: &P,
    candidates: &mut Candidates,
    cells: &ArrayVec<u8, 9>,
    rest: &mut Values,
    needs: &Values,
    step: &Step,
    made: &Step,
    cache: &mut P::Cache,
) {
    let cell = made.cell as usize;
    let spare = made
        .values
        .intersection(rest.of(cell))
        .difference(needs.of(cell));
    if spare.is_empty() {
        return;
    }
    rest.remove(cell, spare);
    if strikes_by(p, candidates, cells, rest, step, cache) {
        return;
    }
    rest.add(cell, spare);
    for value in 1..10 {
        if spare.has(value) {
            rest.remove(cell, NumberSet::one(value));
            if !strikes_by(p, candidates, cells, rest, step, cache) {
                rest.add(cell, NumberSet::one(value));
            }
        }
    }
}

// Whether a step strikes its values where these are gone of the squares at which its reason looks.
fn strikes_by<P: Steps>(
    p: &P,
    candidates: &mut Candidates,
    cells: &ArrayVec<u8, 9>,
    gone: &Values,
    step: &Step,
    cache: &mut P::Cache,
) -> bool {
    let mark = candidates.mark();
    take_values(candidates, cells, gone);
    let strikes = step.values.is_subset(struck(
        p,
        candidates,
        &step.reason,
        step.cell as usize,
        cache,
    ));
    if mark.len() <= candidates.trail_len() {
        candidates.give_back(mark);
    }
    strikes
}
