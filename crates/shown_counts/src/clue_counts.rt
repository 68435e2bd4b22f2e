//! The counts of a clue's line, by what a reason knows of its squares.
ghost use Rattle.std.specs.Prelude.{◌≡◌, ◌≢◌, ◌↔◌, ℕ, ◌+◌, ◌*◌, ◌<◌, ◌≤◌, true, List, take, slice_index, ◌==◌, ◌||◌, ◌&&◌, IsTrue, MatchOption};
ghost use Rattle.number_sets.specs.Sets.{has_number};
ghost use Rattle.tower_lines.specs.LineFillings.{IsFilling, IsSupported};
ghost use Rattle.line_steps.specs.Views.{view_cell};
ghost use Rattle.trail_solver.specs.Candidates.{CandidatesValue};
ghost use Rattle.line_steps.specs.declared.reason.Reason.{Reason};
ghost use Rattle.towers_game.specs.Rows.{May};
ghost use Rattle.shown_counts.specs.Shown.{AreShown, IsRowFrom, IsRowOf, IsLineOf, IsRowWith};
ghost use Rattle.shown_counts.specs.Inner.Counted.{IsFilled, HasAlone, AreCounts, AreCountsOf};

use crate::lone_numbers::without_lone;
use crate::possible_counts::possible_counts;
use latin_board::Size;
use line_steps::view_cell;
use named_steps::Reason;
use number_sets::NumberSet;
use std::marker::Model;
use tower_lines::has_filling;
use towers_game::{Look, looked_row};
use trail_solver::Candidates;

/// The squares of a clue's line, with what may stand in each of them, to be asked for counts.
#[derive(Clone, Copy, Debug)]
pub struct ClueCounts {
    size: Size,
    place: u8,
    row: [NumberSet; 9],
}

impl Model for ClueCounts {
    ghost use Rattle.std.specs.Prelude.{◌*◌, ◌<◌};
    ghost use Rattle.shown_counts.specs.Shown.{ClueRow};

    ghost Value = { ClueRow };

    ghost view = { λ k. record { size = k.size; place = k.place; row = k.row } };

    ghost invariant = { λ k. k.place < 4 * k.size };

    ghost inverse = { λ k. record { size = k.size; place = k.place; row = k.row } };
}

impl ClueCounts {
    /// The line of a reason's clue; none, where the reason looks from no place of the edge.
    pub fn of(candidates: &Candidates, reason: Reason) -> Option<ClueCounts>
        ensures { IsLineOf candidates.now reason result }
    {
        match reason {
            Reason::Bound { place } => counts_from(candidates, Look::Alone, place),
            Reason::Stand { place } => counts_from(candidates, Look::Stands, place),
            Reason::Clue { place } => counts_from(candidates, Look::Marks, place),
            _ => None,
        }
    }

    /// For each of these numbers of a square, at its own index, the counts of towers that are shown with it there.
    pub fn shows(&self, cell: u8, values: NumberSet) -> [NumberSet; 10]
        ensures { (c : CandidatesValue) (reason : Reason) → IsRowOf c reason self.now
            → AreShown c reason cell values result }
    {
        let _size = self.size.get();
        match self.index_of(cell) {
            Some(index) => self.shows_at(index, values),
            None => [NumberSet::empty(); 10],
        }
    }

    /// How many squares the line has.
    pub fn width(&self) -> u8
        ensures value { result ≡ self.now.size }
        ensures range { result ≤ 9 }
    {
        self.size.get()
    }

    /// The numbers that may stand in a square of the line, by what is known of it. The squares are counted
    /// from 0, from the clue on.
    pub fn may(&self, index: u8) -> NumberSet
        requires { index < self.now.size }
        ensures { result ≡ slice_index self.now.row index }
    {
        let _size = self.size.get();
        self.row[index as usize]
    }

    /// The same line with these numbers in one of its squares.
    pub fn with(&self, index: u8, numbers: NumberSet) -> ClueCounts
        requires { index < self.now.size }
        ensures { IsRowWith self.now index numbers result }
    {
        let _size = self.size.get();
        let mut row = self.row;
        row[index as usize] = numbers;
        ClueCounts {
            size: self.size,
            place: self.place,
            row,
        }
    }

    /// Which square of the line a cell is, counted from 0, from the clue on.
    pub fn index_of(&self, cell: u8) -> Option<u8>
        ensures { MatchOption result ((k : ℕ) → k < self.now.size → view_cell self.now.size self.now.place k ≢ cell)
            (λ k. (k < self.now.size) × (view_cell self.now.size self.now.place k ≡ cell)) }
    {
        for index in 0..self.size.get() {
            if view_cell(self.size, self.place, index as usize) == cell as usize {
                return Some(index);
            }
        }
        None
    }

    fn shows_at(&self, index: u8, values: NumberSet) -> [NumberSet; 10]
        requires { index < self.now.size }
        ensures { AreCountsOf (take self.now.size self.now.row) index values result }
    {
        let _size = self.size.get();
        let mut shows = [NumberSet::empty(); 10];
        for value in 0..10 {
            if values.has(value) {
                shows[value as usize] = self.counts(index, value);
            }
        }
        shows
    }

    /// The counts of towers that are shown with a value in a square of the line.
    pub fn counts(&self, index: u8, value: u8) -> NumberSet
        requires index { index < self.now.size }
        requires value { value < 16 }
        ensures { (count : ℕ)
            → (has_number result count ≡ true) ↔ IsSupported (take self.now.size self.now.row) count index value }
    {
        alone_counts(&self.row, self.size.get(), index, value)
    }
}

// The line from a place, if it is one of the edge's, as it is looked at.
fn counts_from(candidates: &Candidates, look: Look, place: usize) -> Option<ClueCounts>
    ensures { MatchOption result (4 * candidates.now.size ≤ place)
        (λ counts. IsRowFrom candidates.now.size (May look candidates.now) place counts) }
{
    let size = candidates.size();
    let width = size.get();
    if place >= 4 * width as usize {
        return None;
    }
    let place = place as u8;
    let row = looked_row(candidates, look, place);
    Some(ClueCounts { size, place, row })
}

// The counts of the row's fillings that have the value at the index: those of the row with the value alone there.
fn alone_counts(row: &[NumberSet; 9], width: u8, index: u8, value: u8) -> NumberSet
    requires width { width ≤ 9 }
    requires index { index < width }
    requires value { value < 16 }
    ensures { (count : ℕ)
        → (has_number result count ≡ true) ↔ IsSupported (take width row.now) count index value }
{
    if !row[index as usize].has(value) {
        return NumberSet::empty();
    }
    let alone = with_alone(row, index, value);
    filled_counts(&without_lone(&alone, width), width)
}

// The counts that fillings of the row show.
fn filled_counts(row: &[NumberSet; 9], width: u8) -> NumberSet
    requires { width ≤ 9 }
    ensures { AreCounts (IsFilled (take width row.now)) (width + 1) result }
{
    let possible = possible_counts(row, width);
    let mut counts = NumberSet::empty();
    for count in 1..width + 1 {
        let is_shown = is_filled(row, width, possible, count);
        counts = with_count(counts, count, is_shown);
    }
    counts
}

// Whether a filling of the row shows this count, which isn't asked where the count can't be shown.
fn is_filled(row: &[NumberSet; 9], width: u8, possible: NumberSet, count: u8) -> bool
    requires width { width ≤ 9 }
    requires count { count ≤ width }
    requires possible { (line : List ℕ) (count : ℕ) → IsFilling (take width row.now) count line
        → has_number possible count ≡ true }
    ensures { IsTrue result ↔ IsFilled (take width row.now) count }
{
    if !possible.has(count) {
        return false;
    }
    has_filling(&row[..width as usize], count)
}

// The row with the value alone at the index.
fn with_alone(row: &[NumberSet; 9], index: u8, value: u8) -> [NumberSet; 9]
    requires index { index < 9 }
    requires value { value < 16 }
    ensures { HasAlone row.now index value result }
{
    let mut alone = *row;
    alone[index as usize] = NumberSet::one(value);
    alone
}

// The counts with one more, if it is shown.
fn with_count(counts: NumberSet, count: u8, is_shown: bool) -> NumberSet
    requires { count < 16 }
    ensures { (k : ℕ) → has_number result k ≡ (has_number counts k || (is_shown && k == count)) }
{
    if is_shown {
        counts.union(NumberSet::one(count))
    } else {
        counts
    }
}
