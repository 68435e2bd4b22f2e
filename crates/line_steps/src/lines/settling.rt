//! The strikes of givens, then of rows and columns, line after line, until they strike nothing that is left.

ghost use Rattle.line_steps.specs.Reasons.{StruckBy};
ghost use Rattle.std.specs.Prelude.{◌≡◌, ℕ, ◌*◌, ◌<◌, Bool, IfNone, IfSome};
ghost use Rattle.std.specs.Bool.{OnTrue, OnFalse};
ghost use Rattle.trail_solver.specs.Candidates.{IsEarlier};
ghost use Rattle.trail_solver.specs.Solutions.{HasNoSolutionWithin, KeepsSolutions};
ghost use Rattle.line_steps.specs.Struck.{IsNarrowed, NoneLeft};
ghost use Rattle.line_steps.specs.Left.{IsEmptied, IsLive};
ghost use Rattle.number_sets.specs.Sets.{IsEmpty};
ghost use Rattle.line_steps.specs.Along.{LosesAt};
ghost use Rattle.line_steps.specs.Inner.Groups.{IsGroupQuiet};
ghost use Rattle.line_steps.specs.Inner.LineLooks.{IsQuietOn, AreWaiting};
ghost use Rattle.line_steps.specs.Chains.{LeadsTo};
ghost use Rattle.line_steps.specs.Settled.{IsGivenQuiet, AreGivensSettled};
ghost use Rattle.line_steps.specs.declared.grade.Grade.TheVariants.{Latin, Hard};

use crate::lines::latin::strike_line;
use crate::lines::line_pass::LinePass;
use crate::lines::striking::strike;
use crate::lines::waiting::Waiting;
use crate::steps::group_passes::look_for_groups;
use latin_board::line_cell;
use number_sets::NumberSet;
use trail_solver::Candidates;

/// Takes away what the givens strike, and then what is struck along rows and columns, line after line, and by groups of their squares where
/// these are asked for, until nothing more is, and answers true; or until a square is left nothing, and answers false. The sizes are equal.
pub(crate) fn settle_lines<P: LinePass>(
    p: &P,
    candidates: &mut Candidates,
    groups: bool,
    cache: &mut P::Cache,
) -> bool
    requires size { candidates.old.size ≡ (P.puzzle p.now).size }
    requires groups { OnTrue groups (P.grade p.now ≡ Hard) }
    ensures leads { LeadsTo (StruckBy P.puzzle P.own p.now) (P.grade p.now) candidates.old candidates.new }
    ensures givens { AreGivensSettled (P.puzzle p.now) candidates.new }
    ensures quiet { OnTrue result ((line : ℕ) → line < 2 * candidates.new.size
        → (what : Bool) → IsQuietOn (StruckBy P.puzzle P.own p.now) (P.grade p.now) what line candidates.new) }
    ensures groups { OnTrue result (OnTrue groups ((line : ℕ) → line < 2 * candidates.new.size → IsGroupQuiet line candidates.new)) }
    ensures emptied { OnFalse result (IsEmptied candidates.new) }
{
    let width = candidates.size().get();
    strike_givens(p, candidates);
    let mut waiting = Waiting::first(2 * width);
    'rounds: loop {
        if !look(p, candidates, &mut waiting, cache) {
            return false;
        }
        if !groups {
            return true;
        }
        let _length = candidates.trail_len();
        if !look_for_groups(candidates, &mut waiting) {
            return true;
        }
    }
}

/// Narrows by all reasons of the highest grade: until no pair is left that a given rules out, or rows and columns, a clue or a sign by the
/// candidates at first or by those that are left. False only where no solution was among the candidates.
pub fn narrow_lines<P: LinePass>(p: &P, candidates: &mut Candidates, cache: &mut P::Cache) -> bool
    requires size { candidates.old.size ≡ (P.puzzle p.now).size }
    requires valid { P.valid p.now }
    requires highest { P.grade p.now ≡ Hard }
    ensures less { IsEarlier candidates.old candidates.new }
    ensures keeps { KeepsSolutions (P.puzzle p.now) candidates.old candidates.new }
    ensures refutes { OnFalse result (HasNoSolutionWithin (P.puzzle p.now) candidates.old) }
    ensures struck { OnTrue result
        (NoneLeft (IsNarrowed (StruckBy P.puzzle P.own p.now)) candidates.old candidates.new) }
    ensures settled { OnTrue result
        (NoneLeft (IsNarrowed (StruckBy P.puzzle P.own p.now)) candidates.new candidates.new) }
    ensures live { OnTrue result (IsLive candidates.new) }
    ensures leads { LeadsTo (StruckBy P.puzzle P.own p.now) Hard candidates.old candidates.new }
    ensures emptied { OnFalse result (IsEmptied candidates.new) }
{
    p.strike_first(candidates);
    settle_lines(p, candidates, false, cache)
}

/// Narrows after a square lost candidates.
pub fn narrow_lines_from<P: LinePass>(
    p: &P,
    candidates: &mut Candidates,
    cell: usize,
    cache: &mut P::Cache,
) -> bool
    requires size { candidates.old.size ≡ (P.puzzle p.now).size }
    requires inside { cell < candidates.old.size * candidates.old.size }
    requires valid { P.valid p.now }
    ensures less { IsEarlier candidates.old candidates.new }
    ensures keeps { KeepsSolutions (P.puzzle p.now) candidates.old candidates.new }
    ensures refutes { OnFalse result (HasNoSolutionWithin (P.puzzle p.now) candidates.old) }
{
    let mut waiting = Waiting::of_cell(candidates.size(), cell);
    look(p, candidates, &mut waiting, cache)
}

// Looks along the lines that wait, one after another, until none does, or a square is left nothing; and tells whether none does. Along a
// line its clues or signs are looked at only where no line waits for its squares. The sizes are equal.
fn look<P: LinePass>(
    p: &P,
    candidates: &mut Candidates,
    waiting: &mut Waiting,
    cache: &mut P::Cache,
) -> bool
    requires size { candidates.old.size ≡ (P.puzzle p.now).size }
    ensures leads { LeadsTo (StruckBy P.puzzle P.own p.now) (P.grade p.now) candidates.old candidates.new }
    ensures quiet { OnTrue result (AreWaiting (StruckBy P.puzzle P.own p.now) (P.grade p.now) waiting.old candidates.old
        → (line : ℕ) → line < 2 * candidates.new.size
        → (what : Bool) → IsQuietOn (StruckBy P.puzzle P.own p.now) (P.grade p.now) what line candidates.new) }
    ensures emptied { OnFalse result (IsEmptied candidates.new) }
{
    let width = candidates.size().get();
    let mut from = (0, 0);
    'looks: loop {
        let _length = candidates.trail_len();
        let Some((squares, line)) = waiting.take(&mut from, 2 * width) else {
            return true;
        };
        let Some(places) = strike_along(p, candidates, line, squares, cache) else {
            return false;
        };
        waiting.note(line, places, width);
    }
}

// Takes away what the squares of a line strike in one another, or what its clues or signs strike, and gives the places of those squares of
// which something went; none, where it finds that a square is left nothing.
// Searches spend most of their time here.
#[inline(always)]
fn strike_along<P: LinePass>(
    p: &P,
    candidates: &mut Candidates,
    line: u8,
    squares: bool,
    cache: &mut P::Cache,
) -> Option<NumberSet>
    requires size { candidates.old.size ≡ (P.puzzle p.now).size }
    requires line { line < 2 * candidates.old.size }
    ensures leads { LeadsTo (StruckBy P.puzzle P.own p.now) (P.grade p.now) candidates.old candidates.new }
    ensures loses { IfSome result (λ places. LosesAt line places candidates.old candidates.new) }
    ensures quiet { IfSome result (λ places. IsEmpty places
        → IsQuietOn (StruckBy P.puzzle P.own p.now) (P.grade p.now) squares line candidates.new) }
    ensures emptied { IfNone result (IsEmptied candidates.new) }
{
    if squares {
        return strike_line(candidates, line);
    }
    let places = p.strike_by_clues(candidates, line, cache);
    if is_emptied_at(candidates, line, places) {
        return None;
    }
    Some(places)
}

// Whether a square of the line at one of the places is left nothing.
fn is_emptied_at(candidates: &Candidates, line: u8, places: NumberSet) -> bool
    requires { line < 2 * candidates.now.size }
    ensures { OnTrue result (IsEmptied candidates.now) }
{
    if places.is_empty() {
        return false;
    }
    let size = candidates.size();
    for k in 0..size.get() {
        if places.has(k) && candidates.values(line_cell(size, line, k)).is_empty() {
            return true;
        }
    }
    false
}

// Goes through the givens once, and takes away what they strike. The sizes are equal.
fn strike_givens<P: LinePass>(p: &P, candidates: &mut Candidates)
    requires { candidates.old.size ≡ (P.puzzle p.now).size }
    ensures leads { LeadsTo (StruckBy P.puzzle P.own p.now) Latin candidates.old candidates.new }
    ensures settled { AreGivensSettled (P.puzzle p.now) candidates.new }
{
    let width = candidates.size().get() as usize;
    for cell in 0..width * width {
        strike_given(p, candidates, cell);
    }
}

// Takes away what the given of a square strikes.
fn strike_given<P: LinePass>(p: &P, candidates: &mut Candidates, cell: usize)
    requires size { candidates.old.size ≡ (P.puzzle p.now).size }
    requires inside { cell < candidates.old.size * candidates.old.size }
    ensures leads { LeadsTo (StruckBy P.puzzle P.own p.now) Latin candidates.old candidates.new }
    ensures quiet { IsGivenQuiet (P.puzzle p.now) cell candidates.new }
{
    let size = candidates.size();
    let given = p.given_at(cell);
    if given == 0 {
        return;
    }
    let values = NumberSet::up_to(size.get()).difference(NumberSet::one(given));
    strike(candidates, cell, values);
}
