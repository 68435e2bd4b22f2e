//! The strikes of narrowing and those of reasons: a square that narrowing forces is forced by reasons.

ghost use Rattle.line_steps.specs.Reasons.{StruckBy};
ghost use Rattle.step_chains.specs.ForcedLaws.{NarrowingForcesMore};

use named_steps::Steps;

/// The law that compares the strikes of narrowing with those of reasons, in every game.
///
/// Where narrowing strikes all numbers but one of an empty square at once, from the candidates that a grid's numbers leave, reasons do so
/// from what is in view. So `next_hint` says something wherever narrowing forces a square.
pub fn forced_laws<P: Steps>()
    ensures { NarrowingForcesMore P.puzzle (StruckBy P.puzzle P.own) }
{}
