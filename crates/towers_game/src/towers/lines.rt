//! The strikes of Towers' clues along a line.

ghost use Rattle.std.specs.Prelude.{◌≡◌, ◌*◌, ◌<◌};
ghost use Rattle.number_sets.specs.Sets.{IsEmpty};
ghost use Rattle.towers_game.specs.Inner.TowersLooks.{IsViewQuiet, AreViewsQuiet};
ghost use Rattle.line_steps.specs.Chains.{LeadsTo};
ghost use Rattle.line_steps.specs.Along.{LosesAt, StaysOn};
ghost use Rattle.towers_game.specs.TowersReasons.{IsTowersStruckBy};
ghost use Rattle.towers_game.specs.Rows.{look_grade};
ghost use Rattle.line_steps.specs.Views.{view_line};

use crate::towers::Towers;
use crate::towers::clue_rows::{Look, along_line, striking_row};
use crate::towers::row_fillings::{EachRow, RowFillings};
use line_steps::{LinePass, front_place, strike_row};
use number_sets::NumberSet;
use trail_solver::Candidates;

/// Of a search: each clue is looked at with all that is left in its line.
impl LinePass for Towers {
    ghost use Rattle.towers_game.specs.TowersReasons.{IsTowersOwn};
    ghost use Rattle.towers_game.specs.Laws.TowersReasons as reasons;
    ghost use Rattle.towers_game.specs.Towers.{IsTowers, towers_puzzle};
    ghost use Rattle.line_steps.specs.declared.grade.Grade.TheVariants.{Hard};

    type Cache = EachRow;

    ghost puzzle = { towers_puzzle };

    ghost valid = { IsTowers };

    ghost own = { IsTowersOwn };

    ghost grade = { λ _. Hard };

    fn given_at(&self, cell: usize) -> u8 {
        self.givens.get(cell)
    }

    fn strike_by_clues(
        &self,
        candidates: &mut Candidates,
        line: u8,
        cache: &mut EachRow,
    ) -> NumberSet {
        strike_views(self, Look::Marks, candidates, line, cache)
    }

    fn strike_first(&self, candidates: &mut Candidates) {
        self.keep_low_towers(candidates);
    }

    ghost looks_along = { reasons.towers_look };

    ghost own_less = { reasons.towers_own_less };

    ghost stands_along = { λ p c reason cell value valid. reasons.towers_stand p c reason cell value };

    ghost own_sound = { λ p c reason cell value g valid. reasons.towers_sound p c reason cell value g };
}

/// Looks at the clues at both ends of a line, and takes away what they strike as they are looked at. Gives the places of the squares of
/// which something went. The sizes are equal, and the line is one of the grid's.
pub(crate) fn strike_views<R: RowFillings>(
    p: &Towers,
    look: Look,
    candidates: &mut Candidates,
    line: u8,
    cache: &mut R,
) -> NumberSet
    requires size { candidates.old.size ≡ p.now.size }
    requires line { line < 2 * candidates.old.size }
    ensures leads { LeadsTo (IsTowersStruckBy p.now) (look_grade look) candidates.old candidates.new }
    ensures loses { LosesAt line result candidates.old candidates.new }
    ensures quiet { IsEmpty result → AreViewsQuiet p.now look line candidates.new }
{
    let size = candidates.size();
    let front = front_place(size, line);
    let from_front = strike_view(p, look, candidates, line, front, cache);
    let from_back = strike_view(p, look, candidates, line, front + size.get(), cache);
    from_front.union(from_back)
}

// Takes away what the clue at a place strikes in the squares of its line, if there is one.
fn strike_view<R: RowFillings>(
    p: &Towers,
    look: Look,
    candidates: &mut Candidates,
    line: u8,
    place: u8,
    cache: &mut R,
) -> NumberSet
    requires size { candidates.old.size ≡ p.now.size }
    requires place { place < 4 * candidates.old.size }
    requires line { view_line candidates.old.size place ≡ line }
    ensures leads { LeadsTo (IsTowersStruckBy p.now) (look_grade look) candidates.old candidates.new }
    ensures loses { LosesAt line result candidates.old candidates.new }
    ensures quiet { StaysOn line candidates.old candidates.new → IsViewQuiet p.now look place candidates.new }
{
    let width = candidates.size().get();
    let clue = p.clue(place);
    if clue == 0 {
        return NumberSet::empty();
    }
    match striking_row(candidates, look, place, clue, cache) {
        Some(row) => strike_row(candidates, line, &along_line(&row, place, width)),
        None => NumberSet::empty(),
    }
}
