//! The strikes of the clues and signs along a line, reason by reason: for games that have no quicker way.
ghost use Rattle.line_steps.specs.Reasons.{StruckBy};
ghost use Rattle.std.specs.Prelude.{◌≡◌, ℕ, ◌+◌, ◌*◌, ◌<◌, true};
ghost use Rattle.number_sets.specs.Sets.{IsEmpty};
ghost use Rattle.latin_board.specs.Lines.{line_cell};
ghost use Rattle.line_steps.specs.Takes.{AreChanged};
ghost use Rattle.line_steps.specs.Views.{front_place};
ghost use Rattle.line_steps.specs.declared.reason.Reason.TheVariants.{Bound, Stand, Clue, Sign};
ghost use Rattle.line_steps.specs.Grades.{has_reason};
ghost use Rattle.line_steps.specs.Along.{IsQuietAlong, LosesAt};
ghost use Rattle.line_steps.specs.Chains.{LeadsTo};
ghost use Rattle.line_steps.specs.Inner.ReasonsAlong.{AreStruckOn, IsNthAlong, IsQuietBy};

use crate::grade::Grade;
use crate::lines::line_passes::strike_row;
use crate::lines::views::front_place;
use crate::reason::Reason;
use crate::steps::Steps;
use latin_board::{Size, line_cell};
use number_sets::NumberSet;
use trail_solver::{Candidates, Rules};

/// Takes away what the clues or signs along a row or column strike by a grade's reasons, and gives the places of those of its squares
/// of which something went. The sizes are equal, and the line is one of the grid's.
pub(crate) fn strike_by_reasons<P: Steps>(
    p: &P,
    grade: Grade,
    candidates: &mut Candidates,
    line: u8,
    cache: &mut P::Cache,
) -> NumberSet
    requires size { candidates.old.size ≡ (P.puzzle p.now).size }
    requires line { line < 2 * candidates.old.size }
    ensures leads { LeadsTo (StruckBy P.puzzle P.own p.now) grade candidates.old candidates.new }
    ensures loses { LosesAt line result candidates.old candidates.new }
    ensures quiet { IsEmpty result → IsQuietAlong (StruckBy P.puzzle P.own p.now) grade line candidates.new }
{
    let size = candidates.size();
    let mut changed = NumberSet::empty();
    for n in 0..2 * size.get() + 4 {
        let reason = reason_along(size, line, n);
        let more = strike_by_reason(p, grade, candidates, line, &reason, cache);
        changed = changed.union(more);
    }
    changed
}

// Takes away what one reason strikes along a line, if it is of the grade's kinds.
fn strike_by_reason<P: Steps>(
    p: &P,
    grade: Grade,
    candidates: &mut Candidates,
    line: u8,
    reason: &Reason,
    cache: &mut P::Cache,
) -> NumberSet
    requires size { candidates.old.size ≡ (P.puzzle p.now).size }
    requires line { line < 2 * candidates.old.size }
    ensures leads { LeadsTo (StruckBy P.puzzle P.own p.now) grade candidates.old candidates.new }
    ensures changed { AreChanged line result candidates.old candidates.new }
    ensures quiet { IsEmpty result → has_reason grade reason.now ≡ true
        → IsQuietBy (StruckBy P.puzzle P.own p.now) reason.now line candidates.old }
{
    if !grade.has(*reason) {
        return NumberSet::empty();
    }
    let row = reason_row(p, candidates, line, reason, cache);
    strike_row(candidates, line, &row)
}

// The values that a reason strikes in each square of a line.
fn reason_row<P: Steps>(
    p: &P,
    candidates: &Candidates,
    line: u8,
    reason: &Reason,
    cache: &mut P::Cache,
) -> [NumberSet; 9]
    requires size { candidates.now.size ≡ (P.puzzle p.now).size }
    requires line { line < 2 * candidates.now.size }
    ensures { AreStruckOn candidates.now.size (StruckBy P.puzzle P.own p.now candidates.now reason.now) line candidates.now.size result }
{
    let size = candidates.size();
    let mut row = [NumberSet::empty(); 9];
    for k in 0..size.get() {
        row[k as usize] = p.strikes(candidates, *reason, line_cell(size, line, k), cache);
    }
    row
}

// The n-th reason that looks along a line: the clues at both its ends, and then the signs between its squares.
fn reason_along(size: Size, line: u8, n: u8) -> Reason
    requires line { line < 2 * size }
    requires inside { n < 2 * size + 4 }
    ensures { IsNthAlong size line n result }
{
    if n < 6 {
        clue_along(size, line, n)
    } else {
        sign_along(size, line, n - 6)
    }
}

// A clue at an end of a line, by itself, with the numbers that stand there, or with all that is left.
fn clue_along(size: Size, line: u8, n: u8) -> Reason
    requires { line < 2 * size }
    ensures bound { n ≡ 0 → result ≡ Bound (front_place size line) }
    ensures stand { n ≡ 1 → result ≡ Stand (front_place size line) }
    ensures clue { n ≡ 2 → result ≡ Clue (front_place size line) }
    ensures bound_back { n ≡ 3 → result ≡ Bound (front_place size line + size) }
    ensures stand_back { n ≡ 4 → result ≡ Stand (front_place size line + size) }
    ensures clue_back { n ≡ 5 → result ≡ Clue (front_place size line + size) }
{
    let width = size.get();
    let front = front_place(size, line) as usize;
    let back = front + width as usize;
    match n {
        0 => Reason::Bound { place: front },
        1 => Reason::Stand { place: front },
        2 => Reason::Clue { place: front },
        3 => Reason::Bound { place: back },
        4 => Reason::Stand { place: back },
        _ => Reason::Clue { place: back },
    }
}

// The sign of a square of a line and the next, from one of them to the other.
fn sign_along(size: Size, line: u8, n: u8) -> Reason
    requires line { line < 2 * size }
    requires inside { n + 2 < 2 * size }
    ensures on { (k : ℕ) → n ≡ 2 * k → result ≡ Sign (line_cell size line k) (line_cell size line (k + 1)) }
    ensures back { (k : ℕ) → n ≡ 2 * k + 1 → result ≡ Sign (line_cell size line (k + 1)) (line_cell size line k) }
{
    let first = line_cell(size, line, n / 2);
    let second = line_cell(size, line, n / 2 + 1);
    if n % 2 == 0 {
        Reason::Sign {
            from: first,
            to: second,
        }
    } else {
        Reason::Sign {
            from: second,
            to: first,
        }
    }
}
