//! The aims to which the steps of a chain are to come.
ghost use Rattle.std.specs.Prelude.{◌↔◌, IsTrue, MatchOption};
ghost use Rattle.named_steps.specs.Chains.{IsShown};
ghost use Rattle.step_chains.specs.ChainValues.{HasSome};
ghost use Rattle.step_chains.specs.Inner.Aims.{IsAimOf, IsAimOrNothing, IsLeftNothing, aim_goal};

use crate::chain::Step;
use latin_board::Size;
use named_steps::Goal;
use trail_solver::Candidates;

/// An aim to which the steps of a chain are to come: a number is shown, or a square is left nothing.
#[derive(Clone, Copy, Debug)]
pub(crate) enum Aim {
    Number(Goal),
    Nothing { cell: usize },
}

/// Steps one after another, and what they come to.
#[derive(Drop)]
pub(crate) struct Aimed {
    pub(crate) steps: Vec<Step>,
    pub(crate) aim: Aim,
}

impl Aim {
    /// Whether it speaks of squares and numbers of the size.
    pub(crate) fn is_of(self, size: Size) -> bool
        ensures { IsTrue result ↔ IsAimOf size self }
    {
        let width = size.get() as usize;
        match self {
            Aim::Number(goal) => goal.is_of(size),
            Aim::Nothing { cell } => cell < width * width,
        }
    }

    /// Whether candidates of the size that it speaks of have come to it.
    pub(crate) fn is_met(self, candidates: &Candidates) -> bool
        requires { IsAimOf candidates.now.size self }
        ensures { IsTrue result ↔ IsShown candidates.now (aim_goal self) }
    {
        match self {
            Aim::Number(goal) => goal.is_shown(candidates),
            Aim::Nothing { cell } => candidates.values(cell).is_empty(),
        }
    }

    /// A square that candidates leave nothing, if there is one, and otherwise this aim.
    pub(crate) fn or_nothing(self, candidates: &Candidates) -> Aim
        ensures { IsAimOrNothing candidates.now self result }
    {
        match first_empty(candidates) {
            Some(cell) => Aim::Nothing { cell },
            None => self,
        }
    }
}

/// The first square that is left nothing, if there is one.
pub(crate) fn first_empty(candidates: &Candidates) -> Option<usize>
    ensures { MatchOption result (HasSome candidates.now) (IsLeftNothing candidates.now) }
{
    let width = candidates.size().get() as usize;
    for cell in 0..width * width {
        if candidates.values(cell).is_empty() {
            return Some(cell);
        }
    }
    None
}
