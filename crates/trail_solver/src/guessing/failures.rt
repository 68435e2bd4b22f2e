//! Where a search failed: how often in each row, column and square, and at which guess last. No answer rests on it: it is the
//! weight in the rule of thumb by which a place to branch is proposed, and it tells when to look closer or to begin anew.

ghost use Rattle.std.specs.Prelude.{◌<◌};

use crate::candidates::Candidates;
use latin_board::CELLS;

/// The rows and columns of the largest grid.
const LINES: usize = 18;

/// After so many failures a search looks closer.
const MANY: u32 = 8;

/// After so many it is stuck: only then does it go by the last failed guess and by failures of squares, which
/// cost easy puzzles more than they save.
const STUCK: u32 = 50;

/// The two sides of a branch.
#[derive(Clone, Copy, PartialEq, Eq)]
pub(crate) enum Side {
    /// The value stands in the square.
    Guess,
    /// It doesn't.
    Rest,
}

/// How often a search failed in each line, in the rows from the top and then in the columns from the left, and in each
/// square; how often in all; and the square whose guess failed last.
#[derive(Drop)]
pub(crate) struct Failures {
    lines: [u16; LINES],
    squares: [u16; CELLS],
    total: u32,
    last_guess: Option<usize>,
    /// How long the trail was when the search looked closer last.
    pub looked: usize,
}

impl Failures {
    /// None yet.
    pub fn none() -> Failures {
        Failures {
            lines: [0; LINES],
            squares: [0; CELLS],
            total: 0,
            last_guess: None,
            looked: 0,
        }
    }

    /// Counts a failure on one side of a branch at a square: in the square that lost a candidate last, and in both its lines.
    pub fn note(&mut self, candidates: &Candidates, branched: usize, side: Side) {
        let width = candidates.size().get();
        self.total = self.total.saturating_add(1);
        if side == Side::Guess {
            self.last_guess = Some(branched);
        }
        if let Some(cell) = candidates.last_cell() {
            self.count(cell / width);
            self.count(width + cell % width);
            self.count_square(cell);
        }
    }

    // Counts a failure in a line.
    fn count(&mut self, line: u8) {
        if let Some(times) = self.lines.get_mut(line as usize) {
            *times = times.saturating_add(1);
        }
    }

    // Counts a failure in a square.
    fn count_square(&mut self, cell: u8) {
        if let Some(times) = self.squares.get_mut(cell as usize) {
            *times = times.saturating_add(1);
        }
    }

    /// If it failed so often as to look closer: how long the trail was when it last did. Now it is so long.
    pub fn look_closer(&mut self, length: usize) -> Option<usize> {
        if self.total < MANY {
            return None;
        }
        let last = self.looked;
        self.looked = length;
        Some(last)
    }

    /// The count of failures that is reached with so many more.
    pub fn after(&self, more: u32) -> u32 {
        self.total.saturating_add(more)
    }

    /// Whether there are at least so many.
    pub fn are_at_least(&self, count: u32) -> bool {
        self.total >= count
    }

    // Whether the search failed so often that it is stuck.
    fn are_stuck(&self) -> bool {
        self.are_at_least(STUCK)
    }

    /// The square whose guess failed last, of a search that is stuck.
    pub fn last_guess(&self) -> Option<usize> {
        if self.are_stuck() {
            self.last_guess
        } else {
            None
        }
    }

    /// How often a search that is stuck failed in a square, and 0 for any other search.
    pub fn of_square(&self, cell: usize) -> u32
        ensures { result < 65536 }
    {
        match self.squares.get(cell) {
            Some(times) if self.are_stuck() => u32::from(*times),
            _ => 0,
        }
    }

    /// How often the search failed in a line.
    pub fn of_line(&self, line: u8) -> u32
        ensures { result < 65536 }
    {
        match self.lines.get(line as usize) {
            Some(times) => u32::from(*times),
            None => 0,
        }
    }
}
