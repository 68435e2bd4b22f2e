//! Looks: steps one after another that have one reason and hold at once.
ghost use Rattle.line_steps.specs.Reasons.{StruckBy};
ghost use Rattle.std.specs.Prelude.{◌≡◌, ◌↔◌, ◌<◌, ◌≤◌, ℕ, ◌*◌, ◌+◌, ◌^◌, true, drop, length, take, IsTrue};
ghost use Rattle.number_sets.specs.Sets.{has_number};
ghost use Rattle.trail_solver.specs.Pairs.{IsPair};
ghost use Rattle.trail_solver.specs.Candidates.{may_be};
ghost use Rattle.step_texts.specs.Looks.{HoldsAt, IsJoinable, AreJoined, HasNoMore};

use named_steps::{Reason, Steps};
use number_sets::NumberSet;
use step_chains::Step;
use trail_solver::{Candidates, Rules};

/// How many of these steps are told together with the one before them: they have its reason, each strikes by what is left before the
/// first of them numbers that are left there, and their squares are in reading order.
pub(crate) fn joined_steps<P: Steps>(
    p: &P,
    candidates: &Candidates,
    first: &Step,
    steps: &[Step],
    cache: &mut P::Cache,
) -> usize
    ensures within { result ≤ length steps.now }
    ensures room { result + 1 < 2 ^ 64 }
    ensures joined { AreJoined (StruckBy P.puzzle P.own p.now) (P.puzzle p.now).size candidates.now first.now
        (take result steps.now) }
    ensures ends { HasNoMore (StruckBy P.puzzle P.own p.now) (P.puzzle p.now).size candidates.now first.now (take result steps.now)
        (drop result steps.now) }
{
    let mut last = first.cell;
    for at in 0..steps.len() {
        let step = &steps[at];
        if !is_joinable(p, candidates, first.reason, last, step, cache) {
            return at;
        }
        last = step.cell;
    }
    let _next = steps.len() + 1;
    steps.len()
}

// Whether a step can be told with those of a reason before it, the last of which is at a square.
fn is_joinable<P: Steps>(
    p: &P,
    candidates: &Candidates,
    reason: Reason,
    after: u8,
    step: &Step,
    cache: &mut P::Cache,
) -> bool
    ensures { IsTrue result
        ↔ IsJoinable (StruckBy P.puzzle P.own p.now) (P.puzzle p.now).size candidates.now reason after step.now }
{
    if step.reason != reason || step.cell <= after {
        return false;
    }
    holds_at(p, candidates, step, cache)
}

// Whether a step strikes by what is left numbers that are left.
fn holds_at<P: Steps>(p: &P, candidates: &Candidates, step: &Step, cache: &mut P::Cache) -> bool
    ensures { IsTrue result ↔ HoldsAt (StruckBy P.puzzle P.own p.now) (P.puzzle p.now).size candidates.now step.now }
{
    let values = struck_left(p, candidates, &step.reason, step.cell as usize, cache);
    step.values.is_subset(values)
}

// The numbers left of those that a reason strikes in a square: none, where the sizes differ.
fn struck_left<P: Steps>(
    p: &P,
    candidates: &Candidates,
    reason: &Reason,
    cell: usize,
    cache: &mut P::Cache,
) -> NumberSet
    ensures { (v : ℕ) → (has_number result v ≡ true) ↔ ((candidates.now.size ≡ (P.puzzle p.now).size)
        × (IsPair candidates.now.size cell v × (may_be candidates.now cell v ≡ true)
        × StruckBy P.puzzle P.own p.now candidates.now reason.now cell v)) }
{
    let size = candidates.size();
    let width = size.get() as usize;
    if p.size() != size || cell >= width * width {
        return NumberSet::empty();
    }
    p.strikes(candidates, *reason, cell, cache)
        .intersection(candidates.values(cell))
}
