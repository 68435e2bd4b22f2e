//! The laws of fair games. They speak of values alone, so the function here does nothing.

ghost use Rattle.line_steps.specs.Reasons.{StruckBy};
ghost use Rattle.fair_games.specs.FairLaws.{ItemsAreNeeded};

use crate::fair_game::FairGame;
use trail_solver::Rules;

/// The pruned puzzle of a draw doesn't follow once some of its items go, if one of them was tried.
pub fn fair_laws<P: FairGame>()
    ensures needed { ItemsAreNeeded ⟦<P as Rules>⟧ (StruckBy P.puzzle P.own) }
{}
