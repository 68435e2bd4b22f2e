//! The steps of the game: givens, rows and columns, and nothing else.

use crate::latin::Latin;
use named_steps::{Reason, Steps};
use number_sets::NumberSet;
use trail_solver::{Candidates, Rules};

impl Steps for Latin {
    ghost use Rattle.clue_rules.specs.Reasons.{NoneOwn};

    type Cache = ();

    ghost own = { λ _. NoneOwn };

    fn own_strikes(
        &self,
        _candidates: &Candidates,
        _reason: Reason,
        _cell: usize,
        _cache: &mut (),
    ) -> NumberSet {
        NumberSet::empty()
    }

    ghost looks_along = { λ p c d reason cell value line size low along stays h. absurd h };

    ghost stands_along = { λ p c reason cell value valid h. absurd h };

    ghost own_less = { λ p c d reason cell value fewer h. absurd h };

    ghost own_sound = { λ p c reason cell value g valid size solved within h. absurd h };

    ghost own_cut = { λ p keep c reason cell value h. absurd h };
}
