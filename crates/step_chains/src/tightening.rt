//! Chains without the numbers and the steps that can be left out.
ghost use Rattle.line_steps.specs.Reasons.{StruckBy};
ghost use Rattle.std.specs.Prelude.{◌≡◌, ◌↔◌, ◌+◌, ◌<◌, take, length, IsTrue};
ghost use Rattle.named_steps.specs.Chains.{Shows, IsTight};
ghost use Rattle.step_chains.specs.ChainValues.{steps_of, AreAllNeeded};
ghost use Rattle.step_chains.specs.Inner.Aims.{IsAimOf, aim_goal};
ghost use Rattle.step_chains.specs.Inner.Replays.{AreTimely, IsGradeChain};
ghost use Rattle.step_chains.specs.Inner.Tight.{IsDoneFrom, IsNarrowedTo, IsLeftOut};

use crate::aims::Aim;
use crate::chain::Step;
use crate::replays::{still_come_to, take_all};
use named_steps::{Grade, Steps};
use trail_solver::{Candidates, Rules};

/// Leaves out, from the last step to the first, each number without which the steps still come to the aim, and each step of which none is
/// left. No number and no step of what remains can be left out. The candidates are afterwards what they were. The steps come to the aim,
/// and the sizes are equal. `cache` is used and added to, here and in what follows.
pub(crate) fn tighten<P: Steps>(
    p: &P,
    grade: Grade,
    candidates: &mut Candidates,
    steps: &mut Vec<Step>,
    aim: Aim,
    cache: &mut P::Cache,
)
    requires size { candidates.old.size ≡ (P.puzzle p.now).size }
    requires aim { IsAimOf candidates.old.size aim }
    requires shows { Shows (StruckBy P.puzzle P.own p.now) grade candidates.old (steps_of steps.old.items) (aim_goal aim) }
    ensures same { candidates.new ≡ candidates.old }
    ensures shows { Shows (StruckBy P.puzzle P.own p.now) grade candidates.old (steps_of steps.new.items) (aim_goal aim) }
    ensures timely { AreTimely candidates.old (steps_of steps.old.items)
        → AreTimely candidates.old (steps_of steps.new.items) }
    ensures tight { IsTight (StruckBy P.puzzle P.own p.now) grade candidates.old (steps_of steps.new.items) (aim_goal aim) }
    ensures needed { AreAllNeeded (StruckBy P.puzzle P.own p.now) grade candidates.old (steps_of steps.new.items) (aim_goal aim) }
{
    let mut index = steps.len();
    while index > 0 {
        index -= 1;
        narrow(p, grade, candidates, steps, index, aim, cache);
        let step = steps[index];
        let _bits = step.values.bits();
        if step.values.is_empty() {
            steps.remove(index);
        }
    }
}

// Leaves out each number of one step without which the steps still come to the aim. No number and no step after it can be left out.
fn narrow<P: Steps>(
    p: &P,
    grade: Grade,
    candidates: &mut Candidates,
    steps: &mut Vec<Step>,
    index: usize,
    aim: Aim,
    cache: &mut P::Cache,
)
    requires size { candidates.old.size ≡ (P.puzzle p.now).size }
    requires aim { IsAimOf candidates.old.size aim }
    requires inside { index < length steps.old.items }
    ensures same { candidates.new ≡ candidates.old }
    ensures length { length steps.new.items ≡ length steps.old.items }
    ensures narrowed { IsDoneFrom (StruckBy P.puzzle P.own p.now) grade candidates.old (index + 1) steps.old.items (aim_goal aim)
        → IsNarrowedTo (StruckBy P.puzzle P.own p.now) grade candidates.old index steps.old.items steps.new.items (aim_goal aim) }
{
    let _size = candidates.size();
    for value in 1..10 {
        leave_out(p, grade, candidates, steps, index, value, aim, cache);
    }
}

// Leaves out a number of one step, if the steps still come to the aim without it.
fn leave_out<P: Steps>(
    p: &P,
    grade: Grade,
    candidates: &mut Candidates,
    steps: &mut Vec<Step>,
    index: usize,
    value: u8,
    aim: Aim,
    cache: &mut P::Cache,
)
    requires size { candidates.old.size ≡ (P.puzzle p.now).size }
    requires aim { IsAimOf candidates.old.size aim }
    requires inside { index < length steps.old.items }
    requires value { value < 16 }
    ensures same { candidates.new ≡ candidates.old }
    ensures length { length steps.new.items ≡ length steps.old.items }
    ensures left { Shows (StruckBy P.puzzle P.own p.now) grade candidates.old (steps_of steps.old.items) (aim_goal aim)
        → Shows (StruckBy P.puzzle P.own p.now) grade candidates.old (steps_of steps.new.items) (aim_goal aim)
        × IsLeftOut (StruckBy P.puzzle P.own p.now) grade candidates.old index value steps.old.items steps.new.items (aim_goal aim) }
{
    let step = steps[index];
    let _bits = step.values.bits();
    if !step.values.has(value) {
        return;
    }
    let less = step.without(value);
    let _less_bits = less.values.bits();
    steps[index] = less;
    if !shows_on(p, grade, candidates, steps.as_slice(), index, aim, cache) {
        steps[index] = step;
    }
}

// Whether the steps come to the aim, of which those before an index are a chain of the grade's.
fn shows_on<P: Steps>(
    p: &P,
    grade: Grade,
    candidates: &mut Candidates,
    steps: &[Step],
    index: usize,
    aim: Aim,
    cache: &mut P::Cache,
) -> bool
    requires size { candidates.old.size ≡ (P.puzzle p.now).size }
    requires aim { IsAimOf candidates.old.size aim }
    requires inside { index < length steps.now }
    ensures same { candidates.new ≡ candidates.old }
    ensures shows { IsGradeChain (StruckBy P.puzzle P.own p.now) grade candidates.old (steps_of (take index steps.now))
        → IsTrue result ↔ Shows (StruckBy P.puzzle P.own p.now) grade candidates.old (steps_of steps.now) (aim_goal aim) }
{
    let mark = candidates.mark();
    take_all(candidates, &steps[..index]);
    let cell = steps[index].cell;
    let shows = still_come_to(p, grade, candidates, &steps[index..], cell, aim, cache);
    candidates.give_back(mark);
    shows
}
