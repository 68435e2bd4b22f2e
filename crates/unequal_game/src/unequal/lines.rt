//! The strikes of Unequal's signs along a line.

ghost use Rattle.std.specs.Prelude.{◌≡◌, ℕ, ◌+◌, ◌*◌, ◌<◌, ◌≤◌};
ghost use Rattle.latin_board.specs.Lines.{line_cell};
ghost use Rattle.unequal_game.specs.Inner.SignLooks.{IsSignQuiet, AreSignsQuiet};
ghost use Rattle.unequal_game.specs.Inner.SignEnds.{IsEnd};
ghost use Rattle.line_steps.specs.Chains.{LeadsTo};
ghost use Rattle.line_steps.specs.Along.{LosesAt, StaysOn};
ghost use Rattle.unequal_game.specs.UnequalReasons.{IsUnequalStruckBy};
ghost use Rattle.unequal_game.specs.Unequal.{IsGreater};
ghost use Rattle.line_steps.specs.declared.grade.Grade.TheVariants.{Easy};

use crate::unequal::Unequal;
use crate::unequal::sign_bounds::{from_greatest, up_to_least};
use latin_board::{Size, line_cell};
use line_steps::{LinePass, take_at};
use number_sets::NumberSet;
use std::cmp::Ordering;
use trail_solver::{Candidates, Rules};

impl LinePass for Unequal {
    ghost use Rattle.unequal_game.specs.UnequalReasons.{IsUnequalOwn};
    ghost use Rattle.unequal_game.specs.Laws.UnequalReasons as reasons;
    ghost use Rattle.unequal_game.specs.Unequal.{IsUnequal, unequal_puzzle};
    ghost use Rattle.line_steps.specs.declared.grade.Grade.TheVariants.{Hard};

    type Cache = ();

    ghost puzzle = { unequal_puzzle };

    ghost valid = { IsUnequal };

    ghost own = { IsUnequalOwn };

    ghost grade = { λ _. Hard };

    fn given_at(&self, cell: usize) -> u8 {
        self.givens.get(cell)
    }

    fn strike_by_clues(&self, candidates: &mut Candidates, line: u8, _cache: &mut ()) -> NumberSet {
        strike_signs(self, candidates, line)
    }

    ghost looks_along = { reasons.unequal_look };

    ghost own_less = { reasons.unequal_own_less };

    ghost stands_along = { reasons.unequal_stand };

    ghost own_sound = { reasons.unequal_sound };
}

// An end of a sign: its place on a line, and its square.
#[derive(Clone, Copy)]
struct End {
    place: u8,
    cell: usize,
}

/// Takes away what the signs along a row or column strike, and gives the places of the squares of which something went. The sizes are
/// equal, and the line is one of the grid's.
pub(crate) fn strike_signs(p: &Unequal, candidates: &mut Candidates, line: u8) -> NumberSet
    requires size { candidates.old.size ≡ p.now.size }
    requires line { line < 2 * candidates.old.size }
    ensures leads { LeadsTo (IsUnequalStruckBy p.now) Easy candidates.old candidates.new }
    ensures loses { LosesAt line result candidates.old candidates.new }
    ensures quiet { StaysOn line candidates.old candidates.new
        → AreSignsQuiet p.now line candidates.new }
{
    let size = candidates.size();
    let step = line_step(size, line);
    let mut cell = line_cell(size, line, 0);
    let mut changed = NumberSet::empty();
    for k in 0..size.get() - 1 {
        let first = End { place: k, cell };
        let second = End {
            place: k + 1,
            cell: cell + step,
        };
        changed = changed.union(strike_between(p, candidates, line, first, second));
        cell = second.cell;
    }
    changed
}

// Takes away what the sign between two squares strikes, if there is one, and gives the places that lost any.
#[tactic(auto, using(crate::proofs::SignPasses::end_inside))]
fn strike_between(
    p: &Unequal,
    candidates: &mut Candidates,
    line: u8,
    first: End,
    second: End,
) -> NumberSet
    requires size { candidates.old.size ≡ p.now.size }
    requires line { line < 2 * candidates.old.size }
    requires first { IsEnd candidates.old.size line first }
    requires second { IsEnd candidates.old.size line second }
    requires next { second.place ≡ first.place + 1 }
    ensures leads { LeadsTo (IsUnequalStruckBy p.now) Easy candidates.old candidates.new }
    ensures loses { LosesAt line result candidates.old candidates.new }
    ensures quiet { StaysOn line candidates.old candidates.new
        → IsSignQuiet p.now first.cell second.cell candidates.new }
{
    match p.order(first.cell, second.cell) {
        Some(Ordering::Greater) => strike_sign(p, candidates, line, first, second),
        Some(Ordering::Less) => strike_sign(p, candidates, line, second, first),
        _ => NumberSet::empty(),
    }
}

// Takes away what a sign strikes at both its ends, and gives the places of those of which something went.
#[tactic(auto, using(crate::proofs::SignPasses::end_inside))]
fn strike_sign(
    p: &Unequal,
    candidates: &mut Candidates,
    line: u8,
    greater: End,
    lesser: End,
) -> NumberSet
    requires size { candidates.old.size ≡ p.now.size }
    requires line { line < 2 * candidates.old.size }
    requires greater { IsEnd candidates.old.size line greater }
    requires lesser { IsEnd candidates.old.size line lesser }
    requires sign { IsGreater p.now greater.cell lesser.cell }
    ensures leads { LeadsTo (IsUnequalStruckBy p.now) Easy candidates.old candidates.new }
    ensures loses { LosesAt line result candidates.old candidates.new }
    ensures quiet { StaysOn line candidates.old candidates.new
        → IsSignQuiet p.now greater.cell lesser.cell candidates.new }
{
    let _valid = p.size();
    let _size = candidates.size();
    let above = candidates.values(greater.cell);
    let below = candidates.values(lesser.cell);
    let too_low = above.intersection(up_to_least(below));
    let too_high = below.intersection(from_greatest(above));
    let at_greater = take_at(candidates, greater.place, greater.cell, too_low);
    let at_lesser = take_at(candidates, lesser.place, lesser.cell, too_high);
    at_greater.union(at_lesser)
}

// How far the next square of a line is.
fn line_step(size: Size, line: u8) -> usize
    ensures value { (place : ℕ) → line_cell size line (place + 1) ≡ line_cell size line place + result }
    ensures bound { result ≤ size }
{
    if line < size.get() {
        1
    } else {
        size.get() as usize
    }
}
