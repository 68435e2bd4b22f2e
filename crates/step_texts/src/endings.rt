//! The sentence of what a chain shows or leaves nothing, and its name.
ghost use Rattle.step_texts.specs.Headings.{IsEndName, IsGoalName};

use crate::dead_ends::DeadEnd;
use crate::left::{left_of, one};
use crate::names::{GridLine, Joined, Square, numbers};
use crate::writing::Writing;
use latin_board::{Grid, Size, line_cell};
use named_steps::Goal;
use number_sets::NumberSet;
use std::fmt::{self, Write};
use trail_solver::Candidates;

/// Says the number that a chain from some candidates shows on a board, and why.
pub(crate) fn say_goal(
    text: &mut Writing,
    grid: &Grid,
    view: &Candidates,
    goal: Goal,
) -> fmt::Result {
    let size = grid.size();
    match goal {
        Goal::OnlyValue { cell, value } => {
            let square = Square::of(size, cell);
            write!(text, "So {square} is {value}: ")?;
            if let Some(index) = line_that_lacks(grid, cell, value) {
                let line = GridLine { size, index };
                return write!(text, "it is the last free square of {line}.");
            }
            say_gone(text, grid, cell, left_of(view, cell), one(value))
        }
        Goal::OnlyPlace {
            line: at,
            index,
            value,
        } => {
            let line = GridLine { size, index: at };
            let square = Square::on(size, at, index);
            write!(
                text,
                "So {square} is {value}: no other square of {line} can be {value}."
            )
        }
    }
}

// The row of a square, or otherwise its column, where all numbers but this one stand there.
fn line_that_lacks(grid: &Grid, cell: usize, value: u8) -> Option<usize> {
    let width = grid.size().get() as usize;
    if lacking_on(grid, cell / width) == one(value) {
        return Some(cell / width);
    }
    let column = width + cell % width;
    if lacking_on(grid, column) == one(value) {
        Some(column)
    } else {
        None
    }
}

// The numbers that don't stand in a row or column.
fn lacking_on(grid: &Grid, line: usize) -> NumberSet {
    let size = grid.size();
    let width = size.get();
    let mut stand = NumberSet::empty();
    if line < 2 * width as usize {
        for index in 0..width {
            stand = stand.union(one(grid.get(line_cell(size, line as u8, index))));
        }
    }
    NumberSet::up_to(width).difference(stand)
}

/// The name of the number that a chain from some candidates shows on a board: by the form of the sentence that says it.
pub fn goal_name(grid: &Grid, view: &Candidates, goal: Goal) -> &'static str
    ensures { IsGoalName goal result.now }
{
    let Goal::OnlyValue { cell, value } = goal else {
        return "The only square left";
    };
    if line_that_lacks(grid, cell, value).is_some() {
        "The last free square"
    } else if unmarked_of(grid, cell, left_of(view, cell)).is_empty() {
        "The only number left"
    } else {
        "The only mark left"
    }
}

/// The name of the contradiction that ends there: by the form of the sentence that says it.
pub fn end_name(grid: &Grid, view: &Candidates, end: DeadEnd) -> &'static str
    ensures { IsEndName end result.now }
{
    let DeadEnd::Square { cell } = end else {
        return "A number without a square";
    };
    if is_filled(grid, cell) || unmarked_of(grid, cell, left_of(view, cell)).is_empty() {
        "A square without a number"
    } else {
        "A square whose marks are too few"
    }
}

/// Says what a contradiction ends in: a number that has no square left in a line, or a square that has no number left.
pub(crate) fn say_empty(
    text: &mut Writing,
    grid: &Grid,
    view: &Candidates,
    end: DeadEnd,
) -> fmt::Result {
    match end {
        DeadEnd::Square { cell } => say_no_number(text, grid, view, cell),
        DeadEnd::Line { line, value } => {
            let size = grid.size();
            let line = GridLine { size, index: line };
            write!(text, "So {line} has no square left for {value}.")
        }
    }
}

// That a square of a board is left nothing, and why.
fn say_no_number(text: &mut Writing, grid: &Grid, view: &Candidates, cell: usize) -> fmt::Result {
    let size = grid.size();
    let view = left_of(view, cell);
    write!(text, "So {} has no number left: ", Square::of(size, cell))?;
    if is_filled(grid, cell) {
        write!(
            text,
            "its {} is ruled out above.",
            numbers(view, Joined::And)
        )
    } else {
        say_gone(text, grid, cell, view, NumberSet::empty())
    }
}

// The numbers that stand neither in the row nor in the column of a square.
fn free_of(grid: &Grid, cell: usize) -> NumberSet {
    let width = grid.size().get() as usize;
    lacking_on(grid, cell / width).intersection(lacking_on(grid, width + cell % width))
}

// Those of them that aren't in view of the square: its pencil marks lack them.
fn unmarked_of(grid: &Grid, cell: usize, view: NumberSet) -> NumberSet {
    free_of(grid, cell).difference(view)
}

// Where the values have gone, but for those that stay, of an empty square with these in view: what isn't in
// view and doesn't stand in its row or column isn't among its pencil marks.
fn say_gone(
    text: &mut Writing,
    grid: &Grid,
    cell: usize,
    view: NumberSet,
    stay: NumberSet,
) -> fmt::Result {
    let stood = NumberSet::up_to(grid.size().get()).difference(free_of(grid, cell));
    let struck = view.difference(stay);
    let unmarked = unmarked_of(grid, cell, view);
    say_part(
        text,
        "",
        stood,
        ["stands in its row or column", "stand in its row or column"],
    )?;
    let before = if stood.is_empty() {
        ""
    } else if unmarked.is_empty() {
        ", and "
    } else {
        ", "
    };
    say_part(
        text,
        before,
        struck,
        ["is ruled out above", "are ruled out above"],
    )?;
    let before = if stood.is_empty() && struck.is_empty() {
        ""
    } else {
        ", and "
    };
    say_part(
        text,
        before,
        unmarked,
        ["isn't among its marks", "aren't among its marks"],
    )?;
    write!(text, ".")
}

// Says of numbers, if there are any, what one of them does, or several do.
fn say_part(text: &mut Writing, before: &str, set: NumberSet, words: [&str; 2]) -> fmt::Result {
    if set.is_empty() {
        return Ok(());
    }
    let does = if set.is_single() { words[0] } else { words[1] };
    write!(text, "{before}{} {does}", numbers(set, Joined::And))
}

// Whether a square of the grid has a number.
fn is_filled(grid: &Grid, cell: usize) -> bool {
    let width = grid.size().get() as usize;
    cell < width * width && grid.get(cell) != 0
}
