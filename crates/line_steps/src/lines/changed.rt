//! Sets of rows and columns: of those that have to be looked at again.

ghost use Rattle.line_steps.specs.Inner.ChangedLines.{HasNoneBelow, IsOneBelow, IsTaken, LosesLine};
ghost use Rattle.line_steps.specs.Takes.{is_crossing};
ghost use Rattle.std.specs.Prelude.{◌≡◌, ℕ, ◌+◌, ◌*◌, ◌<◌, ◌≤◌, ◌==◌, ◌||◌, nat_lt, true, IfNone, MatchOption};
ghost use Rattle.number_sets.specs.Sets.{has_number};

use number_sets::NumberSet;
use std::marker::Model;

/// A set of lines, the rows from the top and then the columns from the left. Contracts see it as a number of which
/// `has_number` tells the members.
#[derive(Clone, Copy, Debug)]
pub(crate) struct Lines {
    bits: u32,
}

impl Model for Lines {
    ghost Value = { ℕ };

    ghost view = { λ l. l.bits };

    ghost inverse = { λ n. record { bits = n } };
}

impl Lines {
    /// The first lines, as many as are asked for.
    pub fn first(count: u8) -> Lines
        requires { count < 32 }
        ensures { (k : ℕ) → has_number result k ≡ nat_lt k count }
    {
        Lines {
            bits: (1 << count) - 1,
        }
    }

    // Takes out a line that is in the set.
    fn remove(&mut self, line: u8)
        requires inside { line < 32 }
        requires has { has_number self.old line ≡ true }
        ensures { LosesLine line self.old self.new }
    {
        self.bits ^= 1 << line;
    }

    // One of the first lines that is in the set, if any is: the next from a line on, or otherwise the least.
    fn next(self, from: u8, count: u8) -> Option<u8>
        requires from { from < 32 }
        requires count { count < 32 }
        ensures { MatchOption result (HasNoneBelow count self) (IsOneBelow count self) }
    {
        let waiting = self.bits & Lines::first(count).bits;
        let later = waiting & u32::MAX << from;
        let next = if later == 0 { waiting } else { later };
        if next == 0 {
            return None;
        }
        Some(next.trailing_zeros() as u8)
    }

    /// A line, and those that cross it at some places.
    #[tactic(auto, using(crate::proofs::LineBits::has_crossing))]
    pub fn across(line: u8, places: NumberSet, width: u8) -> Lines
        requires width { width ≤ 9 }
        requires line { line < 2 * width }
        ensures { (k : ℕ) → has_number result k ≡ ((k == line) || is_crossing width line places k) }
    {
        Lines {
            bits: bits_across(line, places, width) | 1 << line,
        }
    }

    /// Puts in other lines.
    #[tactic(auto, using(crate::proofs::LineBits::has_either))]
    pub fn add(&mut self, more: Lines)
        ensures { (k : ℕ) → has_number self.new k ≡ (has_number self.old k || has_number more k) }
    {
        self.bits |= more.bits;
    }

    /// Takes one of the first lines out of the set, if any is in it: the next from a line on, or otherwise the least.
    pub fn take_next(&mut self, from: u8, count: u8) -> Option<u8>
        requires from { from < 32 }
        requires count { count < 32 }
        ensures line { MatchOption result (HasNoneBelow count self.old)
            (IsTaken count self.old self.new) }
        ensures same { IfNone result (self.new ≡ self.old) }
    {
        let line = self.next(from, count)?;
        self.remove(line);
        Some(line)
    }
}

// The bits of the lines that cross a line at some places: of a row the columns, which come after all rows, and of a column the
// rows, which are those below the width.
#[tactic(auto, using(crate::proofs::LineBits::has_columns, crate::proofs::LineBits::has_rows))]
fn bits_across(line: u8, places: NumberSet, width: u8) -> u32
    requires width { width ≤ 9 }
    requires line { line < 2 * width }
    ensures { (k : ℕ) → has_number result k ≡ is_crossing width line places k }
{
    if line < width {
        u32::from(places.bits()) << width
    } else {
        u32::from(places.at_most(width - 1).bits())
    }
}
