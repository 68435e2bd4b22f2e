//! The steps of Towers.
ghost use Rattle.std.specs.Prelude.{◌≡◌, ◌↔◌, ℕ, ◌*◌, ◌<◌, true, IfSome};
ghost use Rattle.number_sets.specs.Sets.{has_number};
ghost use Rattle.trail_solver.specs.Pairs.{IsPair};
ghost use Rattle.towers_game.specs.TowersReasons.{IsByClue};
ghost use Rattle.line_steps.specs.Reasons.{AreStruckFrom};
ghost use Rattle.towers_game.specs.Rows.{May};

use crate::towers::Towers;
use crate::towers::clue_rows::{Look, unfilled_row};
use crate::towers::clue_strikes::by_clue;
use crate::towers::lines::strike_views;
use crate::towers::row_cache::RowCache;
use line_steps::{Grade, Reason, Steps};
use number_sets::NumberSet;
use trail_solver::{Candidates, Rules};

impl Steps for Towers {
    ghost use Rattle.towers_game.specs.TowersReasons.{IsTowersOwn};
    ghost use Rattle.towers_game.specs.Laws.TowersReasons as reasons;

    type Cache = RowCache;

    ghost own = { IsTowersOwn };

    fn own_strikes(
        &self,
        candidates: &Candidates,
        reason: Reason,
        cell: usize,
        cache: &mut RowCache,
    ) -> NumberSet {
        match reason {
            Reason::Bound { place } => {
                by_any_clue(self, candidates, Look::Alone, place, cell, cache)
            }
            Reason::Stand { place } => {
                by_any_clue(self, candidates, Look::Stands, place, cell, cache)
            }
            Reason::Clue { place } => {
                by_any_clue(self, candidates, Look::Marks, place, cell, cache)
            }
            _ => NumberSet::empty(),
        }
    }

    fn strikes_from(
        &self,
        candidates: &Candidates,
        reason: Reason,
        place: usize,
        cache: &mut RowCache,
    ) -> Option<[NumberSet; 9]> {
        match reason {
            Reason::Bound { place: at } => {
                row_of_clue(self, candidates, Look::Alone, at, place, cache)
            }
            Reason::Stand { place: at } => {
                row_of_clue(self, candidates, Look::Stands, at, place, cache)
            }
            Reason::Clue { place: at } => {
                row_of_clue(self, candidates, Look::Marks, at, place, cache)
            }
            _ => None,
        }
    }

    fn strike_by_clues(
        &self,
        grade: Grade,
        candidates: &mut Candidates,
        line: u8,
        cache: &mut RowCache,
    ) -> Option<NumberSet> {
        match grade {
            Grade::Latin => Some(NumberSet::empty()),
            Grade::Easy => Some(strike_views(self, Look::Stands, candidates, line, cache)),
            Grade::Hard => Some(strike_views(self, Look::Marks, candidates, line, cache)),
        }
    }

    ghost looks_along = { reasons.towers_look };

    ghost stands_along = { λ p c reason cell value valid. reasons.towers_stand p c reason cell value };

    ghost own_less = { reasons.towers_own_less };

    ghost own_sound = { λ p c reason cell value g valid. reasons.towers_sound p c reason cell value g };

    ghost own_cut = { reasons.towers_whole };
}

// The values that a clue strikes in a square.
#[tactic(auto, using(crate::proofs::TowersSets::clue_struck))]
fn by_any_clue(
    p: &Towers,
    candidates: &Candidates,
    look: Look,
    place: usize,
    cell: usize,
    cache: &mut RowCache,
) -> NumberSet
    requires size { candidates.now.size ≡ p.now.size }
    requires inside { cell < candidates.now.size * candidates.now.size }
    ensures { (v : ℕ) → (has_number result v ≡ true)
        ↔ (IsPair candidates.now.size cell v × IsByClue p.now (May look candidates.now) place cell v) }
{
    let width = candidates.size().get() as usize;
    if place >= 4 * width {
        return NumberSet::empty();
    }
    let clue = p.clue(place as u8);
    if clue == 0 {
        return NumberSet::empty();
    }
    by_clue(candidates, look, place as u8, clue, cell, cache)
}

// The values that a clue strikes in each of the squares from a place, where it is the clue's own.
fn row_of_clue(
    p: &Towers,
    candidates: &Candidates,
    look: Look,
    at: usize,
    place: usize,
    cache: &mut RowCache,
) -> Option<[NumberSet; 9]>
    requires size { candidates.now.size ≡ p.now.size }
    requires place { place < 4 * candidates.now.size }
    ensures { IfSome result (AreStruckFrom candidates.now.size (IsByClue p.now (May look candidates.now) at) place
        candidates.now.size) }
{
    if at != place {
        return None;
    }
    Some(clue_row(p, candidates, look, place, cache))
}

// The values that a clue strikes in each of the squares from its place.
fn clue_row(
    p: &Towers,
    candidates: &Candidates,
    look: Look,
    place: usize,
    cache: &mut RowCache,
) -> [NumberSet; 9]
    requires size { candidates.now.size ≡ p.now.size }
    requires place { place < 4 * candidates.now.size }
    ensures { AreStruckFrom candidates.now.size (IsByClue p.now (May look candidates.now) place) place
        candidates.now.size result }
{
    let _size = candidates.size();
    let clue = p.clue(place as u8);
    if clue == 0 {
        return [NumberSet::empty(); 9];
    }
    unfilled_row(candidates, look, place as u8, clue, cache)
}
