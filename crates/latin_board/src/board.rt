//! Boards: numbers, pencil marks, two flags and done marks, and the exchange with a change.

ghost use Rattle.std.specs.Prelude.{◌≡◌, ℕ, ◌+◌, ◌*◌, ◌<◌, ◌≤◌, ◌↔◌, ◌==◌, not, IsTrue, if◌then◌else◌, slice_set, replicate};
ghost use Rattle.std.specs.Cmp.{decided, partial_equiv_from_equiv};
ghost use Rattle.number_sets.specs.Sets.{no_numbers};
ghost use Rattle.latin_board.specs.Squares.{number_at};
ghost use Rattle.latin_board.specs.Marks.{IsMarkSet};
ghost use Rattle.latin_board.specs.Boards.{IsBoard, grid_of, marks_at, is_done, start_board, with_done_flipped};
ghost use Rattle.latin_board.specs.Changes.{FitsBoard, board_after, change_after};
ghost use Rattle.latin_board.specs.Sameness.{same_board, same_board_decides};

use crate::change::{Change, Content, Square};
use crate::done_marks::DoneMarks;
use crate::grid::{CELLS, Grid};
use crate::marks::Marks;
use crate::size::Size;
use std::marker::Model;
use std::mem;

/// The state of a game: a number and pencil marks at each square, whether the puzzle was completed, whether help was
/// taken, and which edge clues are marked as done.
///
/// Edge clues are numbered as `edge_place` does. Contracts see the board as a `BoardValue`.
#[derive(Clone, Copy, Debug)]
pub struct Board {
    grid: Grid,
    // The squares in reading order, then the empty set.
    marks: [Marks; CELLS],
    completed: bool,
    cheated: bool,
    done: DoneMarks,
}

impl Model for Board {
    ghost use Rattle.std.specs.Prelude.{ℕ, ◌-◌, ◌*◌, ◌++◌, List, take, replicate};
    ghost use Rattle.std.proofs.Common.{ap};
    ghost use Rattle.latin_board.specs.declared.grid.TheConstants.{CELLS};
    ghost use Rattle.latin_board.specs.Boards.{BoardValue};
    ghost use Rattle.latin_board.specs.Inner.Fields.{KeepsMarks, front_and_rest};

    ghost Value = { BoardValue };

    ghost view = { λ b. record {
      size = b.grid.size;
      numbers = b.grid.numbers;
      marks = take (b.grid.size * b.grid.size) b.marks;
      completed = b.completed;
      cheated = b.cheated;
      done = b.done;
    } };

    ghost invariant = { λ b. KeepsMarks b.grid.size b.marks b.done };

    ghost inverse = { λ v. record {
      grid = record { size = v.size; numbers = v.numbers };
      marks = v.marks ++ replicate (CELLS - v.size * v.size) 0;
      completed = v.completed;
      cheated = v.cheated;
      done = v.done;
    } };

    ghost inverse_ok = { λ b h.
        let f : List ℕ → Inside = λ xs. record {
          grid = b.grid;
          marks = xs;
          completed = b.completed;
          cheated = b.cheated;
          done = b.done;
        } in
        ap f (front_and_rest b.grid.size b.marks h.padded) };
}

impl Board {
    /// The board of a new game: these numbers, no pencil marks, both flags off, no edge clue done.
    #[tactic(auto, using(crate::proofs::Padding::take_empty))]
    pub fn start(grid: &Grid) -> Board
        ensures { result ≡ start_board grid.now }
    {
        let _size = grid.size();
        Board {
            grid: *grid,
            marks: empty_marks(),
            completed: false,
            cheated: false,
            done: DoneMarks::empty(),
        }
    }

    /// The size of the board's grid.
    pub fn size(&self) -> Size
        ensures value { result ≡ self.now.size }
        ensures valid { IsBoard self.now }
    {
        self.grid.size()
    }

    /// The board's numbers.
    pub fn grid(&self) -> &Grid
        ensures { result.now ≡ grid_of self.now }
    {
        &self.grid
    }

    /// The number at a square of the board, 0 where it is blank.
    pub fn digit(&self, cell: usize) -> u8
        requires { cell < self.now.size * self.now.size }
        ensures value { result ≡ number_at (grid_of self.now) cell }
        ensures within { result ≤ self.now.size }
    {
        self.grid.get(cell)
    }

    /// The pencil marks at a square of the board.
    pub fn marks(&self, cell: usize) -> Marks
        requires { cell < self.now.size * self.now.size }
        ensures value { result ≡ marks_at self.now cell }
        ensures within { IsMarkSet self.now.size result }
    {
        let _size = self.grid.size();
        self.marks[cell]
    }

    /// Whether the puzzle was completed.
    pub fn completed(&self) -> bool
        ensures { result ≡ self.now.completed }
    {
        self.completed
    }

    /// Whether help was taken.
    pub fn cheated(&self) -> bool
        ensures { result ≡ self.now.cheated }
    {
        self.cheated
    }

    /// Whether the edge clue at a place, one of the four times the width, is marked as done.
    pub fn done(&self, place: u8) -> bool
        requires { place < 4 * self.now.size }
        ensures { result ≡ is_done self.now place }
    {
        let _size = self.grid.size();
        self.done.has(place)
    }

    /// Marks the edge clue at a place as done where it isn't, and as not done where it is.
    pub fn flip_done(&mut self, place: u8)
        requires { place < 4 * self.old.size }
        ensures value { self.new ≡ with_done_flipped self.old place }
        ensures places { (other : ℕ) → is_done self.new other
            ≡ (if other == place then not (is_done self.old other) else is_done self.old other) }
    {
        self.done.flip(place);
    }

    /// Exchanges what the change holds with what the board holds there: the named square and both flags, or the whole
    /// board, done marks included. A second exchange restores both.
    ///
    /// The change has to fit the board's size: its square, number and marks, or its whole board.
    pub fn swap(&mut self, change: &mut Change)
        requires { FitsBoard self.old change.old }
        ensures board { self.new ≡ board_after self.old change.old }
        ensures change { change.new ≡ change_after self.old change.old }
        ensures fits { FitsBoard self.new change.new }
        ensures twice { (board_after self.new change.new ≡ self.old)
            × (change_after self.new change.new ≡ change.old) }
    {
        let _size = self.size();
        self.exchange(change);
    }

    fn exchange(&mut self, change: &mut Change)
        requires { FitsBoard self.old change.old }
        ensures board { self.new ≡ board_after self.old change.old }
        ensures change { change.new ≡ change_after self.old change.old }
    {
        match &mut change.content {
            Content::Square(square) => self.exchange_square(square),
            Content::Whole(board) => mem::swap(self, board),
        }
    }

    // Exchanges one square and both flags.
    fn exchange_square(&mut self, square: &mut Square)
        requires cell { square.old.cell < self.old.size * self.old.size }
        requires number { square.old.number ≤ self.old.size }
        requires marks { IsMarkSet self.old.size square.old.marks }
        ensures board { self.new ≡ record self.old {
          numbers = slice_set self.old.numbers square.old.cell square.old.number;
          marks = slice_set self.old.marks square.old.cell square.old.marks;
          completed = square.old.completed;
          cheated = square.old.cheated;
        } }
        ensures square { square.new ≡ record square.old {
          number = number_at (grid_of self.old) square.old.cell;
          marks = marks_at self.old square.old.cell;
          completed = self.old.completed;
          cheated = self.old.cheated;
        } }
    {
        let number = self.grid.get(square.cell);
        let marks = self.marks[square.cell];
        self.grid.set(square.cell, square.number);
        self.marks[square.cell] = square.marks;
        square.number = number;
        square.marks = marks;
        mem::swap(&mut self.completed, &mut square.completed);
        mem::swap(&mut self.cheated, &mut square.cheated);
    }

    #[tactic(auto, using(std::proofs::lemmas::Grind::common_steps))]
    fn has_same_content(&self, other: &Board) -> bool
        ensures { result ≡ same_board self.now other.now }
    {
        self.grid == other.grid
            && self.square_marks() == other.square_marks()
            && self.completed == other.completed
            && self.cheated == other.cheated
            && self.done == other.done
    }

    // The marks of the board's squares alone.
    fn square_marks(&self) -> &[Marks]
        ensures { result.now ≡ self.now.marks }
    {
        let width = self.grid.size().get() as usize;
        &self.marks[..width * width]
    }
}

// The places of a board without pencil marks.
fn empty_marks() -> [Marks; CELLS]
    ensures { result ≡ replicate CELLS no_numbers }
{
    [Marks::empty(); CELLS]
}

/// Two boards are equal where their sizes, numbers, pencil marks, flags and done marks are.
impl PartialEq for Board {
    ghost eq = { same_board };

    ghost laws = { partial_equiv_from_equiv (decided same_board same_board_decides) };

    fn eq(&self, other: &Board) -> bool
        ensures value { result ≡ same_board self.now other.now }
        ensures same { IsTrue result ↔ (self.now ≡ other.now) }
    {
        self.has_same_content(other)
    }
}

impl Eq for Board {
    ghost laws = { decided same_board same_board_decides };
}
