//! The strikes of the squares of a row or column in one another.

ghost use Rattle.std.specs.Prelude.{◌≡◌, ◌↔◌, ℕ, ◌*◌, ◌<◌, true, slice_index, IfErr, IfNone, IfOk, IfSome};
ghost use Rattle.number_sets.specs.Sets.{has_number, IsEmpty};
ghost use Rattle.latin_board.specs.Lines.{line_cell};
ghost use Rattle.line_steps.specs.Left.{IsEmptied, IsLeft};
ghost use Rattle.line_steps.specs.Reasons.{IsByLine};
ghost use Rattle.line_steps.specs.Chains.{LeadsTo};
ghost use Rattle.line_steps.specs.Along.{LosesAt};
ghost use Rattle.line_steps.specs.Inner.LineStrikes.{IsDead, IsLineSettled};
ghost use Rattle.line_steps.specs.Inner.LineTallies.{IsTallyOf};
ghost use Rattle.line_steps.specs.declared.grade.Grade.TheVariants.{Latin};

use crate::lines::line_passes::{line_sets, strike_row, take_at};
use crate::lines::single_sets::if_single;
use crate::lines::views::Along;
use number_sets::NumberSet;
use trail_solver::Candidates;

/// Takes away what the squares of a line strike in one another, and gives the places of those of which something went; none, where they
/// leave a square nothing. The value that is alone in a square goes from the rest of the line, and all other values go from a square that
/// is the one place of a value in it.
// Searches spend most of their time here.
#[inline(always)]
pub(crate) fn strike_line(candidates: &mut Candidates, line: u8) -> Option<NumberSet>
    requires { line < 2 * candidates.old.size }
    ensures leads { LeadsTo (IsByLine candidates.old.size) Latin candidates.old candidates.new }
    ensures loses { IfSome result (λ places. LosesAt line places candidates.old candidates.new) }
    ensures quiet { IfSome result (λ places. IsEmpty places → IsLineSettled line candidates.new) }
    ensures emptied { IfNone result (IsEmptied candidates.new) }
{
    let squares = Along::line(candidates.size(), line);
    let tally = match tally_of(candidates, &squares) {
        Ok(tally) => tally,
        Err(places) => {
            strike_dead(candidates, line, places);
            return None;
        }
    };
    if tally.is_quiet() {
        return Some(NumberSet::empty());
    }
    Some(tally.strike_along(candidates, &squares))
}

// Takes away all that is left of the squares at some places of a line that can't hold its numbers: the others strike it.
fn strike_dead(candidates: &mut Candidates, line: u8, places: NumberSet)
    requires line { line < 2 * candidates.old.size }
    requires dead { IsDead line places candidates.old }
    ensures leads { LeadsTo (IsByLine candidates.old.size) Latin candidates.old candidates.new }
    ensures emptied { IsEmptied candidates.new }
{
    let row = sets_at(candidates, line, places);
    strike_row(candidates, line, &row);
}

// The numbers that are left of the squares at some places of a line, and none for the others.
fn sets_at(candidates: &Candidates, line: u8, places: NumberSet) -> [NumberSet; 9]
    requires { line < 2 * candidates.now.size }
    ensures { (k v : ℕ) → k < candidates.now.size → (has_number (slice_index result k) v ≡ true)
        ↔ ((has_number places k ≡ true) × IsLeft candidates.now (line_cell candidates.now.size line k) v) }
{
    let mut sets = line_sets(candidates, line);
    for k in 0..candidates.size().get() {
        if !places.has(k) {
            sets[k as usize] = NumberSet::empty();
        }
    }
    sets
}

// A tally of the sets of candidates of a line: the values of which one of them has one, of which two have
// one, and those that are alone in one.
#[derive(Clone, Copy)]
struct LineTally {
    once: NumberSet,
    twice: NumberSet,
    singles: NumberSet,
}

// The tally of a line's sets; or, where they can't be the candidates of a row or column, places of which all goes.
fn tally_of(candidates: &Candidates, squares: &Along) -> Result<LineTally, NumberSet>
    requires size { squares.now.size ≡ candidates.now.size }
    requires line { squares.now.line < 2 * candidates.now.size }
    ensures ok { IfOk result (IsTallyOf squares.now.line candidates.now) }
    ensures err { IfErr result (λ places. IsDead squares.now.line places candidates.now) }
{
    let width = candidates.size().get();
    let mut tally = LineTally {
        once: NumberSet::empty(),
        twice: NumberSet::empty(),
        singles: NumberSet::empty(),
    };
    for place in 0..width {
        let set = candidates.values(squares.cell(place as usize));
        if set.is_empty() {
            return Err(all_places(width));
        }
        let Some(more) = tally.with(set) else {
            return Err(NumberSet::one(place));
        };
        tally = more;
    }
    if NumberSet::up_to(width).difference(tally.once).is_empty() {
        Ok(tally)
    } else {
        Err(all_places(width))
    }
}

// All places of a line.
fn all_places(width: u8) -> NumberSet
    requires { width < 15 }
    ensures { (k : ℕ) → k < width → has_number result k ≡ true }
{
    NumberSet::up_to(width).lowered()
}

impl LineTally {
    ghost use Rattle.std.specs.Prelude.{◌≡◌, ◌*◌, ◌<◌, MatchOption};
    ghost use Rattle.std.specs.Bool.{OnTrue};
    ghost use Rattle.line_steps.specs.Inner.LineStrikes.{StrikesRest};
    ghost use Rattle.line_steps.specs.Inner.LineTallies.{IsCounted, IsAloneBefore, IsForced, IsFree, IsKeptOf};
    ghost use Rattle.line_steps.specs.Inner.LineTallies.{IsQuietTally, IsTallyOf};

    // The tally with one set more, which has some value, or none where its only value is alone in another set.
    #[tactic(auto, using(crate::proofs::LineTallying::clash_twice))]
    fn with(self, set: NumberSet) -> Option<LineTally>
        requires { (v : ℕ) × (has_number set v ≡ true) }
        ensures { MatchOption result (IsAloneBefore self set) (IsCounted self set) }
    {
        let single = if_single(set);
        if !self.singles.is_disjoint(single) {
            return None;
        }
        Some(LineTally {
            once: self.once.union(set),
            twice: self.twice.union(self.once.intersection(set)),
            singles: self.singles.union(single),
        })
    }

    // Whether the values that just one set has are those that are alone in one, so that all may stay.
    fn is_quiet(&self) -> bool
        ensures { OnTrue result (IsQuietTally self.now) }
    {
        self.once.difference(self.twice) == self.singles
    }

    // Takes from the squares of the line, of which this is the tally, the values that can't stay, and gives the places of those
    // of which something went.
    fn strike_along(&self, candidates: &mut Candidates, squares: &Along) -> NumberSet
        requires size { squares.now.size ≡ candidates.old.size }
        requires line { squares.now.line < 2 * candidates.old.size }
        requires tally { IsTallyOf squares.now.line candidates.old self.now }
        ensures { StrikesRest squares.now.line result candidates.old candidates.new }
    {
        let width = candidates.size().get();
        let mut places = NumberSet::empty();
        for k in 0..width {
            let cell = squares.cell(k as usize);
            let set = candidates.values(cell);
            let struck = set.difference(self.kept(set));
            let more = take_at(candidates, k, cell, struck);
            places = places.union(more);
        }
        places
    }

    // The values of a set that can stay.
    fn kept(&self, set: NumberSet) -> NumberSet
        ensures { IsKeptOf self.now set result }
    {
        if set.is_single() {
            return set;
        }
        let forced = self.forced(set);
        let free = self.free(set);
        if forced.is_empty() {
            return free;
        }
        if forced.is_single() {
            return forced.intersection(free);
        }
        let _bits = forced.bits();
        NumberSet::empty()
    }

    // The values of a set that are in no other one.
    fn forced(&self, set: NumberSet) -> NumberSet
        ensures { IsForced self.now set result }
    {
        set.intersection(self.once).difference(self.twice)
    }

    // The values of a set that are alone in none.
    fn free(&self, set: NumberSet) -> NumberSet
        ensures { IsFree self.now set result }
    {
        set.difference(self.singles)
    }
}
