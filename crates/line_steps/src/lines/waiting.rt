//! The lines that wait to be looked along.

ghost use Rattle.std.specs.Prelude.{◌≡◌, ℕ, ◌*◌, ◌<◌, ◌≤◌, nat_lt, IfNone, IfSome};
ghost use Rattle.number_sets.specs.Sets.{has_number, IsEmpty};
ghost use Rattle.line_steps.specs.Inner.ChangedLines.{IsNoted};
ghost use Rattle.line_steps.specs.Inner.LineLooks.{IsLook, IsNoneWaiting};

use crate::lines::changed::Lines;
use crate::lines::views::{column_of, row_of};
use latin_board::Size;
use number_sets::NumberSet;

/// The lines that wait to be looked along: for what their squares strike in one another, and for what their clues or signs strike.
#[derive(Clone, Copy, Debug)]
pub(crate) struct Waiting {
    squares: Lines,
    clues: Lines,
}

impl Waiting {
    /// The first lines, as many as are asked for.
    pub fn first(count: u8) -> Waiting
        requires { count < 32 }
        ensures squares { (k : ℕ) → has_number result.squares k ≡ nat_lt k count }
        ensures clues { (k : ℕ) → has_number result.clues k ≡ nat_lt k count }
    {
        Waiting {
            squares: Lines::first(count),
            clues: Lines::first(count),
        }
    }

    /// The lines of a square.
    pub(crate) fn of_cell(size: Size, cell: usize) -> Waiting
        requires { cell < size * size }
    {
        let column = NumberSet::one(column_of(size, cell));
        let lines = Lines::across(row_of(size, cell), column, size.get());
        Waiting {
            squares: lines,
            clues: lines,
        }
    }

    /// Notes at which places of a line something went: where there are any, the line waits, and so do those that cross it there.
    pub fn note(&mut self, line: u8, places: NumberSet, width: u8)
        requires width { width ≤ 9 }
        requires line { line < 2 * width }
        ensures none { IsEmpty places → self.new ≡ self.old }
        ensures squares { IsNoted width line places self.old.squares self.new.squares }
        ensures clues { IsNoted width line places self.old.clues self.new.clues }
    {
        if places.is_empty() {
            return;
        }
        let across = Lines::across(line, places, width);
        self.squares.add(across);
        self.clues.add(across);
    }

    /// Takes one of the first lines that wait, if any does, and tells whether it waited for its squares. Those go first; of either kind it is
    /// the next from a line on, or otherwise the least.
    #[tactic(auto, using(crate::proofs::LineLooks::none_waits, crate::proofs::LineLooks::squares_look, crate::proofs::LineLooks::clues_look))]
    pub(crate) fn take(&mut self, from: &mut (u8, u8), count: u8) -> Option<(bool, u8)>
        requires from_squares { from.old.0 < 32 }
        requires from_clues { from.old.1 < 32 }
        requires count { count < 32 }
        ensures none { IfNone result (IsNoneWaiting count self.old) }
        ensures look { IfSome result (λ look. IsLook count self.old self.new look.0 look.1) }
        ensures from_squares { from.new.0 < 32 }
        ensures from_clues { from.new.1 < 32 }
    {
        if let Some(line) = self.squares.take_next(from.0, count) {
            from.0 = line + 1;
            return Some((true, line));
        }
        let line = self.clues.take_next(from.1, count)?;
        *from = (0, line + 1);
        Some((false, line))
    }
}
