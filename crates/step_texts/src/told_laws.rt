//! The law of told steps. It speaks of values alone, so the function here does nothing.

ghost use Rattle.line_steps.specs.Reasons.{StruckBy};
ghost use Rattle.step_texts.specs.ToldLaws.{ToldStepsHold};

use crate::step_names::StepNames;

/// The law of the told steps of every game.
///
/// Where each step of a chain strikes only what the steps before it leave, each number that is told is left of its square after the told
/// steps above it, and its reason strikes it there. In each told step squares rise in reading order, and where a clue strikes, it isn't
/// among the counts of towers with that number.
pub fn laws<P: StepNames>()
    ensures hold { ToldStepsHold P.Rules.puzzle (StruckBy P.puzzle P.own) P.edge_clue_of }
{}
