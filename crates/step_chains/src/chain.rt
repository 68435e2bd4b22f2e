//! Chains: steps one after another, and what they show.
ghost use Rattle.std.specs.Prelude.{◌≡◌, ◌↔◌, ◌<◌, IsTrue};
ghost use Rattle.step_chains.specs.Inner.Tight.{IsStepWithout};

use named_steps::{Goal, Reason};
use number_sets::NumberSet;

/// A reason, and the values that it strikes in a square.
#[derive(Clone, Copy, PartialEq, Eq, Debug)]
pub struct Step {
    pub reason: Reason,
    pub cell: u8,
    pub values: NumberSet,
}

impl Step {
    /// The step without one of its values.
    pub(crate) fn without(&self, value: u8) -> Step
        requires { value < 16 }
        ensures { IsStepWithout value self.now result }
    {
        Step {
            reason: self.reason,
            cell: self.cell,
            values: self.values.difference(NumberSet::one(value)),
        }
    }

    /// Whether another step has the same reason. Steps one after another that have it are one look at a line, a sign or a clue.
    pub(crate) fn is_same_look(&self, other: &Step) -> bool
        ensures { IsTrue result ↔ (self.now.reason ≡ other.now.reason) }
    {
        self.reason == other.reason
    }
}

/// Steps one after another, and the number that they show.
#[derive(Debug, Drop)]
pub struct Chain {
    pub steps: Vec<Step>,
    pub goal: Goal,
}

/// Steps one after another, and the square that they leave nothing.
#[derive(Debug, Drop)]
pub struct Refutation {
    pub steps: Vec<Step>,
    pub cell: usize,
}
