//! The candidates that are in view of a grid.
ghost use Rattle.std.specs.Prelude.{◌≡◌, ◌↔◌, ℕ, ◌*◌, ◌<◌, ◌≤◌, true, false};
ghost use Rattle.number_sets.specs.Sets.{has_number};
ghost use Rattle.latin_board.specs.Squares.{number_at};
ghost use Rattle.latin_board.specs.Lines.{line_cell};
ghost use Rattle.named_steps.specs.Chains.{IsView};
ghost use Rattle.step_chains.specs.BoardViews.{IsBoardView};
ghost use Rattle.step_chains.specs.Copies.{IsCopy};
ghost use Rattle.step_chains.specs.Inner.Views.{IsGoneSet, IsHiddenSet, IsSeen, IsUnmarkedSet, IsUnseenSet, seen};

use latin_board::{Board, Grid, Marks, line_cell};
use named_steps::strike;
use number_sets::NumberSet;
use trail_solver::Candidates;

/// The candidates in view of a grid: a filled square has its number, and an empty one what doesn't stand in its row or column.
#[inline(never)]
pub fn view_of(grid: &Grid) -> Candidates
    ensures { IsView grid.now result }
{
    let size = grid.size();
    let width = size.get() as usize;
    let mut candidates = Candidates::all(size);
    for cell in 0..width * width {
        strike(&mut candidates, cell, unseen_in(grid, cell));
    }
    candidates
}

/// The candidates in view of a board: as of its grid, but of an empty square with pencil marks those alone that are marked.
#[inline(never)]
#[tactic(auto, using(crate::proofs::Unmarked::board_view))]
pub fn view_on(board: &Board) -> Candidates
    ensures { IsBoardView board.now result }
{
    let size = board.size();
    let width = size.get() as usize;
    let mut candidates = Candidates::all(size);
    for square in 0..width * width {
        strike(&mut candidates, square, hidden_on(board, square));
    }
    candidates
}

/// The same candidates once more.
#[inline(never)]
#[tactic(auto, using(crate::proofs::Copies::copied))]
pub fn copied(view: &Candidates) -> Candidates
    ensures { IsCopy view.now result }
{
    let size = view.size();
    let width = size.get() as usize;
    let squares = width * width;
    let mut candidates = Candidates::all(size);
    for cell in 0..squares {
        strike(&mut candidates, cell, gone_from(view, cell));
    }
    candidates
}

// The same, of the candidates in view of a grid of their size. A caller keeps one copy on the stack, and not a second one for this call.
#[inline(never)]
#[tactic(auto, using(crate::proofs::Copies::seen_again))]
pub(crate) fn copy_of(grid: &Grid, view: &Candidates) -> Candidates
    requires { view.now.size ≡ grid.now.size }
    ensures { IsSeen (seen grid.now view.now) result }
{
    copied(view)
}

// The numbers of the size that aren't left of a square.
#[tactic(auto, using(crate::proofs::Copies::gone_set))]
fn gone_from(view: &Candidates, cell: usize) -> NumberSet
    requires { cell < view.now.size * view.now.size }
    ensures { IsGoneSet view.now cell result }
{
    NumberSet::up_to(view.size().get()).difference(view.values(cell))
}

// The numbers of the size that aren't in view of a square.
#[tactic(auto, using(crate::proofs::Unseen::unseen_filled, crate::proofs::Unseen::unseen_empty))]
fn unseen_in(grid: &Grid, cell: usize) -> NumberSet
    requires { cell < grid.now.size * grid.now.size }
    ensures { IsUnseenSet grid.now cell result }
{
    let width = grid.size().get();
    let number = grid.get(cell);
    if number != 0 {
        return NumberSet::up_to(width).difference(NumberSet::one(number));
    }
    let row = cell / width as usize;
    let column = cell % width as usize;
    numbers_on(grid, row as u8).union(numbers_on(grid, width + column as u8))
}

// The numbers of the size that aren't in view of a square, or aren't marked there.
#[tactic(auto, using(crate::proofs::Unmarked::hidden_set))]
fn hidden_on(board: &Board, cell: usize) -> NumberSet
    requires { cell < board.now.size * board.now.size }
    ensures { IsHiddenSet board.now cell result }
{
    unseen_in(board.grid(), cell).union(unmarked_on(board, cell))
}

// The numbers that a square's pencil marks leave out; none of a square with a number or without a mark.
#[tactic(auto, using(crate::proofs::Unmarked::none_unmarked, crate::proofs::Unmarked::unmarked_set))]
fn unmarked_on(board: &Board, cell: usize) -> NumberSet
    requires { cell < board.now.size * board.now.size }
    ensures { IsUnmarkedSet board.now cell result }
{
    let _size = board.size();
    let marks = board.marks(cell);
    if board.digit(cell) != 0 || marks == Marks::empty() {
        return NumberSet::empty();
    }
    left_out(marks)
}

// The numbers from 1 to 9 that aren't among pencil marks.
#[tactic(auto, using(crate::proofs::Unmarked::out_added))]
fn left_out(marks: Marks) -> NumberSet
    ensures { (v : ℕ) → (has_number result v ≡ true) ↔ ((1 ≤ v) × (v ≤ 9) × (has_number marks v ≡ false)) }
{
    let mut out = NumberSet::empty();
    for value in 1..10 {
        out = out.union(if_left_out(marks, value));
    }
    out
}

// A number, if it isn't among pencil marks.
#[tactic(auto, using(crate::proofs::Unmarked::one_out, crate::proofs::Unmarked::none_out))]
fn if_left_out(marks: Marks, value: u8) -> NumberSet
    requires low { 1 ≤ value }
    requires high { value ≤ 9 }
    ensures { (v : ℕ) → (has_number result v ≡ true) ↔ ((v ≡ value) × (has_number marks v ≡ false)) }
{
    if marks.has(value) {
        NumberSet::empty()
    } else {
        NumberSet::one(value)
    }
}

// The numbers that stand in a row or column, and 0 where a square is empty.
fn numbers_on(grid: &Grid, line: u8) -> NumberSet
    requires { line < 2 * grid.now.size }
    ensures { (v : ℕ) → (has_number result v ≡ true)
        ↔ ((k : ℕ) × (k < grid.now.size) × (number_at grid.now (line_cell grid.now.size line k) ≡ v)) }
{
    let size = grid.size();
    let mut found = NumberSet::empty();
    for k in 0..size.get() {
        let number = grid.get(line_cell(size, line, k));
        found = found.union(NumberSet::one(number));
    }
    found
}
