//! The steps of Unequal.
ghost use Rattle.std.specs.Prelude.{◌≡◌, ◌↔◌, ℕ, ◌*◌, ◌<◌, true};
ghost use Rattle.number_sets.specs.Sets.{has_number};
ghost use Rattle.trail_solver.specs.Pairs.{IsPair};
ghost use Rattle.unequal_game.specs.UnequalReasons.{IsBySign};

use crate::unequal::Unequal;
use crate::unequal::lines::strike_signs;
use crate::unequal::sign_strikes::{by_greater, by_lesser};
use line_steps::{Grade, Reason, Steps};
use number_sets::NumberSet;
use trail_solver::{Candidates, Rules};

impl Steps for Unequal {
    ghost use Rattle.unequal_game.specs.UnequalReasons.{IsUnequalOwn};
    ghost use Rattle.unequal_game.specs.Laws.UnequalReasons as reasons;

    type Cache = ();

    ghost own = { IsUnequalOwn };

    fn own_strikes(
        &self,
        candidates: &Candidates,
        reason: Reason,
        cell: usize,
        _cache: &mut (),
    ) -> NumberSet {
        match reason {
            Reason::Sign { from, to } => by_any_sign(self, candidates, from, to, cell),
            _ => NumberSet::empty(),
        }
    }

    fn strike_by_clues(
        &self,
        grade: Grade,
        candidates: &mut Candidates,
        line: u8,
        _cache: &mut (),
    ) -> Option<NumberSet> {
        let _valid = self.size();
        match grade {
            Grade::Latin => Some(NumberSet::empty()),
            Grade::Easy => Some(strike_signs(self, candidates, line)),
            Grade::Hard => Some(strike_signs(self, candidates, line)),
        }
    }

    ghost looks_along = { reasons.unequal_look };

    ghost stands_along = { reasons.unequal_stand };

    ghost own_less = { reasons.unequal_own_less };

    ghost own_sound = { reasons.unequal_sound };

    ghost own_cut = { reasons.unequal_whole };
}

// The values that a sign strikes in a square.
#[tactic(auto, using(crate::proofs::UnequalSets::greater_struck, crate::proofs::UnequalSets::lesser_struck, crate::proofs::UnequalSets::from_inside))]
fn by_any_sign(
    p: &Unequal,
    candidates: &Candidates,
    from: usize,
    to: usize,
    cell: usize,
) -> NumberSet
    requires size { candidates.now.size ≡ p.now.size }
    requires inside { cell < candidates.now.size * candidates.now.size }
    ensures { (v : ℕ) → (has_number result v ≡ true)
        ↔ (IsPair candidates.now.size cell v × IsBySign p.now candidates.now from to cell v) }
{
    let width = candidates.size().get() as usize;
    let _valid = p.size();
    if to != cell || from >= width * width {
        return NumberSet::empty();
    }
    if p.greater(from, to) {
        return by_greater(candidates, from);
    }
    if p.greater(to, from) {
        return by_lesser(candidates, from);
    }
    NumberSet::empty()
}
