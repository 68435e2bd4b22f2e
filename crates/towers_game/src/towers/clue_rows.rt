//! The numbers that may stand in the squares from a clue, and those that it strikes in each, as rows of sets.
ghost use Rattle.std.specs.Prelude.{◌≡◌, ℕ, ◌-◌, ◌*◌, ◌<◌, ◌≤◌, if◌then◌else◌, MatchOption};
ghost use Rattle.trail_solver.specs.Candidates.{CandidatesValue};
ghost use Rattle.line_steps.specs.Views.{view_cell, view_index};
ghost use Rattle.towers_game.specs.Fillings.{IsUnfilled};
ghost use Rattle.line_steps.specs.Left.{IsLeft};
ghost use Rattle.towers_game.specs.Rows.{May, AreMaySets};
ghost use Rattle.towers_game.specs.Inner.RowSets.{AreFull, AreStandingSets, AreMissing, IsAlong};
ghost use Rattle.line_steps.specs.Reasons.{AreStruckFrom};

use crate::towers::row_fillings::RowFillings;
use crate::towers::row_sets::are_within;
use line_steps::{standing_set, view_cell};
use number_sets::NumberSet;
use trail_solver::Candidates;

/// The part of a line that is seen, when its clue is looked at.
#[derive(Clone, Copy, Debug)]
pub enum Look {
    /// The clue alone.
    Alone,
    /// The numbers that stand in the line.
    Stands,
    /// All that is left of its squares.
    Marks,
}

/// A row of sets from a place, in the order of the squares of its line.
pub(crate) fn along_line(row: &[NumberSet; 9], place: u8, width: u8) -> [NumberSet; 9]
    requires width { width ≤ 9 }
    requires place { place < 4 * width }
    ensures { IsAlong width place row.now width result }
{
    let is_far = is_far(place, width);
    let mut along = [NumberSet::empty(); 9];
    for k in 0..width {
        let from = if is_far { width - 1 - k } else { k };
        along[k as usize] = row[from as usize];
    }
    along
}

// Whether a place is after the last square of its line: at the lower or the right edge.
fn is_far(place: u8, width: u8) -> bool
    requires width { width ≤ 9 }
    requires place { place < 4 * width }
    ensures { (k : ℕ) → view_index width place k ≡ (if result then width - 1 - k else k) }
{
    if place < 2 * width {
        place >= width
    } else {
        place >= 3 * width
    }
}

/// The values of the size that the clue at a place rules out in each square from there. `cache` is used and added
/// to.
pub(crate) fn unfilled_row<R: RowFillings>(
    candidates: &Candidates,
    look: Look,
    place: u8,
    clue: u8,
    cache: &mut R,
) -> [NumberSet; 9]
    requires place { place < 4 * candidates.now.size }
    requires clue { clue ≤ candidates.now.size }
    ensures { AreStruckFrom candidates.now.size
        (IsUnfilled candidates.now.size (May look candidates.now) place clue) place
        candidates.now.size result }
{
    let width = candidates.size().get();
    let left = left_row(candidates, place);
    let kept = cache.supported(&may_row(look, &left, width), width, clue);
    missing_row(width, &kept)
}

/// The numbers that may stand in each square from the clue's place, as its line is looked at; empty sets
/// after the last square.
pub fn looked_row(candidates: &Candidates, look: Look, place: u8) -> [NumberSet; 9]
    requires { place < 4 * candidates.now.size }
    ensures { AreMaySets candidates.now.size (May look candidates.now) place candidates.now.size result }
{
    let width = candidates.size().get();
    may_row(look, &left_row(candidates, place), width)
}

/// As `unfilled_row`, but nothing where none of these values is left.
pub(crate) fn striking_row<R: RowFillings>(
    candidates: &Candidates,
    look: Look,
    place: u8,
    clue: u8,
    cache: &mut R,
) -> Option<[NumberSet; 9]>
    requires place { place < 4 * candidates.now.size }
    requires clue { clue ≤ candidates.now.size }
    ensures { MatchOption result
        ((cell v : ℕ) → IsUnfilled candidates.now.size (May look candidates.now) place clue cell v
        → IsLeft candidates.now cell v → ⊥)
        (AreStruckFrom candidates.now.size (IsUnfilled candidates.now.size (May look candidates.now) place clue) place
        candidates.now.size) }
{
    let width = candidates.size().get();
    let left = left_row(candidates, place);
    let kept = cache.supported(&may_row(look, &left, width), width, clue);
    if are_within(&left, &kept) {
        return None;
    }
    Some(missing_row(width, &kept))
}

// The values of the size that each set lacks.
fn missing_row(width: u8, kept: &[NumberSet; 9]) -> [NumberSet; 9]
    requires { width ≤ 9 }
    ensures { AreMissing width kept.now 9 result }
{
    let all = NumberSet::up_to(width);
    let mut row = [NumberSet::empty(); 9];
    for k in 0..9 {
        row[k] = all.difference(kept[k]);
    }
    row
}

// The numbers that are left of each square from a place.
fn left_row(candidates: &Candidates, place: u8) -> [NumberSet; 9]
    requires { place < 4 * candidates.now.size }
    ensures { AreMaySets candidates.now.size (IsLeft candidates.now) place candidates.now.size result }
{
    let size = candidates.size();
    let mut row = [NumberSet::empty(); 9];
    for k in 0..size.get() as usize {
        row[k] = candidates.values(view_cell(size, place, k));
    }
    row
}

// The numbers that may stand in each square from a place, by those that are left of it.
fn may_row(look: Look, left: &[NumberSet; 9], width: u8) -> [NumberSet; 9]
    requires { width ≤ 9 }
    ensures { (c : CandidatesValue) (place : ℕ) → c.size ≡ width → place < 4 * c.size
        → AreMaySets c.size (IsLeft c) place c.size left.now
        → AreMaySets c.size (May look c) place c.size result }
{
    let all = NumberSet::up_to(width);
    match look {
        Look::Alone => full_row(all, width),
        Look::Stands => standing_row(all, left),
        Look::Marks => *left,
    }
}

// All of these values in each of the first sets of a row, so many as the width.
fn full_row(all: NumberSet, width: u8) -> [NumberSet; 9]
    requires { width ≤ 9 }
    ensures { AreFull all width result }
{
    let mut row = [NumberSet::empty(); 9];
    for k in 0..width as usize {
        row[k] = all;
    }
    row
}

// The numbers that stand in each square of a row, by those that are left of it.
fn standing_row(all: NumberSet, left: &[NumberSet; 9]) -> [NumberSet; 9]
    ensures { AreStandingSets all left.now 9 result }
{
    let mut row = [NumberSet::empty(); 9];
    for k in 0..9 {
        row[k] = standing_set(all, left[k]);
    }
    row
}
