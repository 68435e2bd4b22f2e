//! Grids of numbers, and the Latin rule.

ghost use Rattle.std.specs.Prelude.{◌≡◌, ℕ, ◌*◌, ◌<◌, ◌≤◌, ◌↔◌, IsTrue, slice_set, replicate};
ghost use Rattle.std.specs.Bool.{OnTrue};
ghost use Rattle.std.specs.Cmp.{decided, partial_equiv_from_equiv};
ghost use Rattle.latin_board.specs.Squares.{blank_grid, number_at, times_in, HasEachOnce, IsGrid, IsFull, IsLatin, latin_test};
ghost use Rattle.latin_board.specs.Lines.{line_of};
ghost use Rattle.latin_board.specs.Sameness.{same_grid, same_grid_decides};

use crate::lines::line_cell;
use crate::size::Size;
use number_sets::NumberSet;
use std::marker::Model;

/// How many squares the largest grid has.
pub const CELLS: usize = 81;

/// A square of numbers from 0 to its width, 0 for a blank square.
///
/// Squares are counted from 0 in reading order. Contracts see the width and the list of the numbers.
#[derive(Clone, Copy, Debug)]
pub struct Grid {
    size: Size,
    // The squares in reading order, then 0.
    cells: [u8; CELLS],
}

impl Model for Grid {
    ghost use Rattle.std.specs.Prelude.{ℕ, ◌-◌, ◌*◌, ◌++◌, List, take, replicate};
    ghost use Rattle.std.proofs.Common.{ap};
    ghost use Rattle.latin_board.specs.declared.grid.TheConstants.{CELLS};
    ghost use Rattle.latin_board.specs.Squares.{GridValue};
    ghost use Rattle.latin_board.specs.Inner.Fields.{KeepsNumbers, front_and_rest};

    ghost Value = { GridValue };

    ghost view = { λ g. record { size = g.size; numbers = take (g.size * g.size) g.cells } };

    ghost invariant = { λ g. KeepsNumbers g.size g.cells };

    ghost inverse = { λ v. record {
      size = v.size;
      cells = v.numbers ++ replicate (CELLS - v.size * v.size) 0;
    } };

    ghost inverse_ok = { λ a h.
        let f : List ℕ → Inside = λ xs. record { size = a.size; cells = xs } in
        ap f (front_and_rest a.size a.cells h.padded) };
}

impl Grid {
    /// The grid of this size whose squares are all blank.
    pub fn blank(size: Size) -> Grid
        ensures { result ≡ blank_grid size }
    {
        let _width = size.get();
        Grid {
            size,
            cells: no_numbers(),
        }
    }

    /// The grid's size.
    pub fn size(&self) -> Size
        ensures value { result ≡ self.now.size }
        ensures valid { IsGrid self.now }
    {
        self.size
    }

    /// The number at a square, 0 where it is blank; the square is one of the grid's.
    pub fn get(&self, cell: usize) -> u8
        requires { cell < self.now.size * self.now.size }
        ensures value { result ≡ number_at self.now cell }
        ensures within { result ≤ self.now.size }
    {
        self.cells[cell]
    }

    /// Writes a number of at most the width, 0 for blank, to one of the grid's squares.
    pub fn set(&mut self, cell: usize, n: u8)
        requires inside { cell < self.old.size * self.old.size }
        requires fits { n ≤ self.old.size }
        ensures size { self.new.size ≡ self.old.size }
        ensures numbers { self.new.numbers ≡ slice_set self.old.numbers cell n }
    {
        self.cells[cell] = n;
    }

    /// Whether each row and each column holds each number from 1 to the width exactly once.
    pub fn is_latin(&self) -> bool
        ensures rule { IsTrue result ↔ IsLatin self.now }
        ensures test { result ≡ latin_test self.now }
        ensures full { OnTrue result (IsFull self.now) }
        ensures valid { IsGrid self.now }
    {
        let width = self.size().get();
        for line in 0..2 * width {
            if !self.has_each_once(line) {
                return false;
            }
        }
        true
    }

    // Whether a line holds each number from 1 to the width exactly once.
    fn has_each_once(&self, line: u8) -> bool
        requires { line < 2 * self.now.size }
        ensures { IsTrue result ↔ HasEachOnce self.now.size (line_of self.now line) }
    {
        let size = self.size();
        let width = size.get();
        let mut found = NumberSet::empty();
        for place in 0..width {
            let number = self.get(line_cell(size, line, place));
            found = found.union(NumberSet::one(number));
        }
        // There are as many squares as numbers: where none is missing, none is there twice.
        NumberSet::up_to(width).is_subset(found)
    }

    // The numbers of the grid's squares alone.
    fn numbers(&self) -> &[u8]
        ensures { result.now ≡ self.now.numbers }
    {
        let width = self.size.get() as usize;
        &self.cells[..width * width]
    }
}

// The places of a blank grid.
fn no_numbers() -> [u8; CELLS]
    ensures { result ≡ replicate CELLS 0 }
{
    [0; CELLS]
}

/// Two grids are equal where their sizes and all their numbers are.
impl PartialEq for Grid {
    ghost eq = { same_grid };

    ghost laws = { partial_equiv_from_equiv (decided same_grid same_grid_decides) };

    fn eq(&self, other: &Grid) -> bool
        ensures value { result ≡ same_grid self.now other.now }
        ensures same { IsTrue result ↔ (self.now ≡ other.now) }
    {
        self.size() == other.size() && self.numbers() == other.numbers()
    }
}

impl Eq for Grid {
    ghost laws = { decided same_grid same_grid_decides };
}
