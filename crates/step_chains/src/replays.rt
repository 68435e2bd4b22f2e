//! Chains followed step by step.
ghost use Rattle.line_steps.specs.Reasons.{StruckBy};
ghost use Rattle.std.specs.Prelude.{◌≡◌, ◌↔◌, ℕ, true, None, IsTrue};
ghost use Rattle.std.specs.Bool.{OnTrue, OnFalse};
ghost use Rattle.number_sets.specs.Sets.{has_number};
ghost use Rattle.trail_solver.specs.Pairs.{IsPair, has_pair, pairs_of};
ghost use Rattle.trail_solver.specs.Candidates.{IsEarlier};
ghost use Rattle.line_steps.specs.Left.{AreAlike};
ghost use Rattle.named_steps.specs.Chains.{Shows};
ghost use Rattle.line_steps.specs.Chains.{left_by};
ghost use Rattle.line_steps.specs.Takes.{Takes};
ghost use Rattle.step_chains.specs.ChainValues.{step_value, steps_of, IsLiveStep};
ghost use Rattle.step_chains.specs.Inner.Aims.{IsAimOf, aim_goal};
ghost use Rattle.step_chains.specs.Inner.Replays.{AreTimely, IsGradeStep, IsGradeChain, IsTimelyStep, Leads};

use crate::aims::{Aim, first_empty};
use crate::chain::Step;
use crate::needs::{Asked, Values};
use arrayvec::ArrayVec;
use named_steps::{Grade, Reason, Steps, strike};
use number_sets::NumberSet;
use trail_solver::{Candidates, Rules};

/// Whether the steps are a chain of the grade's from the candidates and come to the aim. The candidates are afterwards what they were.
/// The sizes are equal, and the aim is one of the size. `cache` is used and added to, here and in what follows.
pub(crate) fn come_to<P: Steps>(
    p: &P,
    grade: Grade,
    candidates: &mut Candidates,
    steps: &[Step],
    aim: Aim,
    cache: &mut P::Cache,
) -> bool
    requires size { candidates.old.size ≡ (P.puzzle p.now).size }
    requires aim { IsAimOf candidates.old.size aim }
    ensures same { candidates.new ≡ candidates.old }
    ensures shows { IsTrue result
        ↔ Shows (StruckBy P.puzzle P.own p.now) grade candidates.old (steps_of steps.now) (aim_goal aim) }
{
    let mark = candidates.mark();
    let shows = leads_to(p, grade, candidates, steps, aim, cache);
    candidates.give_back(mark);
    shows
}

/// The same as `come_to`, of steps that may miss something in a square: first the steps that look there are asked for, and of these the
/// cheaper ones.
pub(crate) fn still_come_to<P: Steps>(
    p: &P,
    grade: Grade,
    candidates: &mut Candidates,
    steps: &[Step],
    cell: u8,
    aim: Aim,
    cache: &mut P::Cache,
) -> bool
    requires size { candidates.old.size ≡ (P.puzzle p.now).size }
    requires aim { IsAimOf candidates.old.size aim }
    ensures same { candidates.new ≡ candidates.old }
    ensures shows { IsTrue result
        ↔ Shows (StruckBy P.puzzle P.own p.now) grade candidates.old (steps_of steps.now) (aim_goal aim) }
{
    let cheap = Asked {
        cell,
        is_dear: false,
    };
    let dear = Asked {
        cell,
        is_dear: true,
    };
    let mark = candidates.mark();
    let are_cheap_left = follow(p, grade, candidates, steps, Some(cheap), cache);
    candidates.give_back(mark);
    if !are_cheap_left {
        return false;
    }
    let are_dear_left = follow(p, grade, candidates, steps, Some(dear), cache);
    candidates.give_back(mark);
    are_dear_left && come_to(p, grade, candidates, steps, aim, cache)
}

/// Takes away what the steps list.
pub fn take_all(candidates: &mut Candidates, steps: &[Step])
    ensures size { candidates.new.size ≡ candidates.old.size }
    ensures earlier { IsEarlier candidates.old candidates.new }
    ensures alike { AreAlike (left_by candidates.old (steps_of steps.now)) candidates.new }
{
    for step in steps {
        take(candidates, step);
    }
}

// Follows the steps, and tells whether they are a chain of the grade's and come to the aim.
fn leads_to<P: Steps>(
    p: &P,
    grade: Grade,
    candidates: &mut Candidates,
    steps: &[Step],
    aim: Aim,
    cache: &mut P::Cache,
) -> bool
    requires size { candidates.old.size ≡ (P.puzzle p.now).size }
    requires aim { IsAimOf candidates.old.size aim }
    ensures earlier { IsEarlier candidates.old candidates.new }
    ensures shows { IsTrue result
        ↔ Shows (StruckBy P.puzzle P.own p.now) grade candidates.old (steps_of steps.now) (aim_goal aim) }
{
    if !follow(p, grade, candidates, steps, None, cache) {
        return false;
    }
    aim.is_met(candidates)
}

// Follows the steps, and tells whether those that are asked for are steps of the grade's where they stand: some of them, or all.
fn follow<P: Steps>(
    p: &P,
    grade: Grade,
    candidates: &mut Candidates,
    steps: &[Step],
    some: Option<Asked>,
    cache: &mut P::Cache,
) -> bool
    requires { candidates.old.size ≡ (P.puzzle p.now).size }
    ensures earlier { IsEarlier candidates.old candidates.new }
    ensures leads { OnTrue result (some ≡ None
        → Leads (StruckBy P.puzzle P.own p.now) grade candidates.old (steps_of steps.now) candidates.new) }
    ensures breaks { OnFalse result
        (IsGradeChain (StruckBy P.puzzle P.own p.now) grade candidates.old (steps_of steps.now) → ⊥) }
{
    for step in steps {
        if !passes(p, grade, candidates, step, some, cache) {
            return false;
        }
        take(candidates, step);
    }
    true
}

// Whether a step is one of the grade's by the candidates, or isn't asked for.
fn passes<P: Steps>(
    p: &P,
    grade: Grade,
    candidates: &Candidates,
    step: &Step,
    some: Option<Asked>,
    cache: &mut P::Cache,
) -> bool
    requires { candidates.now.size ≡ (P.puzzle p.now).size }
    ensures is { OnTrue result (some ≡ None → IsGradeStep (StruckBy P.puzzle P.own p.now) grade candidates.now (step_value step.now)) }
    ensures none { OnFalse result (IsGradeStep (StruckBy P.puzzle P.own p.now) grade candidates.now (step_value step.now) → ⊥) }
{
    if let Some(asked) = some {
        if !asked.has(candidates.size(), &step.reason) {
            return true;
        }
    }
    is_step(p, grade, candidates, step, cache)
}

/// Whether a step is one of the grade's by the candidates.
pub(crate) fn is_step<P: Steps>(
    p: &P,
    grade: Grade,
    candidates: &Candidates,
    step: &Step,
    cache: &mut P::Cache,
) -> bool
    requires { candidates.now.size ≡ (P.puzzle p.now).size }
    ensures { IsTrue result ↔ IsGradeStep (StruckBy P.puzzle P.own p.now) grade candidates.now (step_value step.now) }
{
    if !grade.has(step.reason) {
        return false;
    }
    let _bits = step.values.bits();
    let set = struck(p, candidates, &step.reason, step.cell as usize, cache);
    step.values.is_subset(set)
}

/// The values that a reason strikes in a square: none, where it isn't one of the grid's or the sizes differ.
pub(crate) fn struck<P: Steps>(
    p: &P,
    candidates: &Candidates,
    reason: &Reason,
    cell: usize,
    cache: &mut P::Cache,
) -> NumberSet
    ensures { (v : ℕ) → (has_number result v ≡ true) ↔ ((candidates.now.size ≡ (P.puzzle p.now).size)
        × (IsPair candidates.now.size cell v × StruckBy P.puzzle P.own p.now candidates.now reason.now cell v)) }
{
    let size = candidates.size();
    let width = size.get() as usize;
    if p.size() != size || cell >= width * width {
        return NumberSet::empty();
    }
    p.strikes(candidates, *reason, cell, cache)
}

/// Takes away what a step lists.
pub(crate) fn take(candidates: &mut Candidates, step: &Step)
    ensures { Takes (λ cell v. has_pair (step_value step.now).strikes cell v ≡ true) candidates.old candidates.new }
{
    take_from(candidates, step.cell, step.values);
}

/// Takes values from a square, as far as they are left; nothing where there is no such square.
pub(crate) fn take_from(candidates: &mut Candidates, cell: u8, values: NumberSet)
    ensures { Takes (λ at v. has_pair (pairs_of cell values) at v ≡ true) candidates.old candidates.new }
{
    let width = candidates.size().get() as usize;
    let cell = cell as usize;
    let _bits = values.bits();
    if cell >= width * width {
        return;
    }
    strike(candidates, cell, values);
}

/// Takes these values from some squares.
pub(crate) fn take_values(candidates: &mut Candidates, cells: &ArrayVec<u8, 9>, values: &Values) {
    for cell in cells.as_slice() {
        take_from(candidates, *cell, values.of(*cell as usize));
    }
}

/// Whether, before each step, something is left of each square, and all that the step strikes is left. A step in no square
/// passes for none. The candidates are afterwards what they were.
pub(crate) fn are_timely(candidates: &mut Candidates, steps: &[Step]) -> bool
    ensures same { candidates.new ≡ candidates.old }
    ensures timely { OnTrue result (AreTimely candidates.old (steps_of steps.now)) }
{
    let mark = candidates.mark();
    let timely = go_timely(candidates, steps);
    candidates.give_back(mark);
    timely
}

// Takes away what the steps strike, as far as it is left, and tells whether all of it is, while something is left of each square.
fn go_timely(candidates: &mut Candidates, steps: &[Step]) -> bool
    ensures earlier { IsEarlier candidates.old candidates.new }
    ensures timely { OnTrue result (AreTimely candidates.old (steps_of steps.now)) }
{
    for step in steps {
        if !is_timely(candidates, step) {
            return false;
        }
        take(candidates, step);
    }
    true
}

// Whether something is left of each square, and all that a step strikes.
fn is_timely(candidates: &Candidates, step: &Step) -> bool
    ensures { OnTrue result (IsTimelyStep candidates.now (step_value step.now)) }
{
    match first_empty(candidates) {
        Some(_) => false,
        None => is_live(candidates, step),
    }
}

// Whether a step is in a square of the size, and all that it strikes is left.
fn is_live(candidates: &Candidates, step: &Step) -> bool
    ensures { OnTrue result (IsLiveStep candidates.now (step_value step.now)) }
{
    let width = candidates.size().get() as usize;
    let cell = step.cell as usize;
    let _bits = step.values.bits();
    if cell >= width * width {
        return false;
    }
    step.values.is_subset(candidates.values(cell))
}
