//! Numbers of empty squares that candidates show.
ghost use Rattle.std.specs.Prelude.{◌≡◌, ◌↔◌, ℕ, ◌*◌, ◌<◌, IsTrue, MatchOption};
ghost use Rattle.step_chains.specs.Inner.Goals.{IsOfEmptySquare, IsOpenShown};
ghost use Rattle.named_steps.specs.declared.goal.Goal.{Goal};
ghost use Rattle.named_steps.specs.declared.goal.Goal.TheVariants.{OnlyValue, OnlyPlace};

use latin_board::{Grid, line_cell};
use named_steps::Goal;
use trail_solver::Candidates;

/// Whether a goal speaks of an empty square of the grid.
pub(crate) fn is_open(grid: &Grid, goal: Goal) -> bool
    ensures { IsTrue result ↔ IsOfEmptySquare grid.now goal }
{
    let size = grid.size();
    if !goal.is_of(size) {
        return false;
    }
    grid.get(goal.cell(size)) == 0
}

/// The first number of an empty square of the grid that the candidates show, if they show any. The sizes are equal.
pub(crate) fn shown_goal(candidates: &Candidates, grid: &Grid) -> Option<Goal>
    requires { candidates.now.size ≡ grid.now.size }
    ensures { MatchOption result ((goal : Goal) → IsOpenShown grid.now candidates.now goal → ⊥)
        (IsOpenShown grid.now candidates.now) }
{
    if let Some(goal) = shown_in_squares(candidates, grid) {
        return Some(goal);
    }
    shown_on_lines(candidates, grid)
}

// The first number that is the only value of its square, if one is.
fn shown_in_squares(candidates: &Candidates, grid: &Grid) -> Option<Goal>
    requires { candidates.now.size ≡ grid.now.size }
    ensures { MatchOption result ((cell value : ℕ) → IsOpenShown grid.now candidates.now (OnlyValue cell value) → ⊥)
        (IsOpenShown grid.now candidates.now) }
{
    let width = grid.size().get() as usize;
    for cell in 0..width * width {
        if let Some(goal) = shown_in_square(candidates, grid, cell) {
            return Some(goal);
        }
    }
    None
}

/// The number that is the only value of a square, if the square is empty and one is.
pub(crate) fn shown_in_square(candidates: &Candidates, grid: &Grid, cell: usize) -> Option<Goal>
    requires size { candidates.now.size ≡ grid.now.size }
    requires inside { cell < grid.now.size * grid.now.size }
    ensures { MatchOption result ((value : ℕ) → IsOpenShown grid.now candidates.now (OnlyValue cell value) → ⊥)
        (IsOpenShown grid.now candidates.now) }
{
    if grid.get(cell) != 0 {
        return None;
    }
    for value in 1..grid.size().get() + 1 {
        let goal = Goal::OnlyValue { cell, value };
        if goal.is_shown(candidates) {
            return Some(goal);
        }
    }
    None
}

// The first number that has only one place in a row or column, if one has.
fn shown_on_lines(candidates: &Candidates, grid: &Grid) -> Option<Goal>
    requires { candidates.now.size ≡ grid.now.size }
    ensures { MatchOption result
        ((line index value : ℕ) → IsOpenShown grid.now candidates.now (OnlyPlace line index value) → ⊥)
        (IsOpenShown grid.now candidates.now) }
{
    for line in 0..2 * grid.size().get() {
        if let Some(goal) = shown_on_line(candidates, grid, line) {
            return Some(goal);
        }
    }
    None
}

// The first number that has only one place in this row or column, if one has.
fn shown_on_line(candidates: &Candidates, grid: &Grid, line: u8) -> Option<Goal>
    requires size { candidates.now.size ≡ grid.now.size }
    requires line { line < 2 * grid.now.size }
    ensures { MatchOption result
        ((index value : ℕ) → IsOpenShown grid.now candidates.now (OnlyPlace line index value) → ⊥)
        (IsOpenShown grid.now candidates.now) }
{
    for index in 0..grid.size().get() {
        if let Some(goal) = shown_in_place(candidates, grid, line, index) {
            return Some(goal);
        }
    }
    None
}

/// The number that no other square of the line can have, if this place's square is empty and there is one.
pub(crate) fn shown_in_place(
    candidates: &Candidates,
    grid: &Grid,
    line: u8,
    index: u8,
) -> Option<Goal>
    requires size { candidates.now.size ≡ grid.now.size }
    requires line { line < 2 * grid.now.size }
    requires index { index < grid.now.size }
    ensures { MatchOption result ((value : ℕ) → IsOpenShown grid.now candidates.now (OnlyPlace line index value) → ⊥)
        (IsOpenShown grid.now candidates.now) }
{
    if grid.get(line_cell(grid.size(), line, index)) != 0 {
        return None;
    }
    for value in 1..grid.size().get() + 1 {
        let goal = Goal::OnlyPlace {
            line: line as usize,
            index: index as usize,
            value,
        };
        if goal.is_shown(candidates) {
            return Some(goal);
        }
    }
    None
}
