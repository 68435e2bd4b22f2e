//! The facts of a game that replies know, as one word for contracts.

use crate::draw::Draw;
use trail_solver::Rules;

/// The facts of a game by which replies are told. It has no call, since contracts alone name it.
pub trait Facts {
    ghost use Rattle.line_replies.specs.GameFacts.{GameFacts};

    ghost facts: { GameFacts Self };
}

impl<P: Draw> Facts for P {
    ghost use Rattle.line_replies.specs.GameFacts.{facts_of};

    ghost facts = { facts_of ⟦<P as Rules>⟧ P.Game.own P.Draw.own };
}
