//! The answer to `hint marks`: a hint whose steps begin from the pencil marks of a board.

ghost use Rattle.line_steps.specs.Reasons.{StruckBy};
ghost use Rattle.std.specs.Prelude.{◌≡◌, ◌↔◌, IsTrue, IfOk, MatchBool, OnOk};
ghost use Rattle.latin_board.specs.Boards.{grid_of};
ghost use Rattle.step_chains.specs.BoardViews.{IsBoardView};
ghost use Rattle.step_chains.specs.NextHints.{IsHintFrom};
ghost use Rattle.json_replies.specs.FurtherLines.{IsMarksAnswer};
ghost use Rattle.json_replies.specs.MarkedHints.{AreNotRefuted, IsContradiction, IsFirstLacking, IsLackingOf, IsToldOfMarks};
ghost use Rattle.json_replies.specs.Inner.Marks.{IsFullGrid, IsFullAnswer};
ghost use Rattle.json_replies.specs.Inner.WrittenData.{FollowsWhere};

use crate::hint_text::write_hint;
use crate::shown::Shows;
use crate::start::Start;
use json::Writer;
use latin_board::{Board, Grid, OutOfMemory};
use std::alloc::Global;
use step_chains::{NextHint, next_hint_from, view_of, view_on};
use trail_solver::{Answer, Candidates, Rules, completion};

/// The hint of a board of the puzzle's size, from its marks. If these are refuted, and the numbers alone are, too, it is the hint of
/// the numbers.
// Each of the three searches has a frame of its own, so that no two views are on the stack at once. That is why a hint that refutes the
// marks is looked for once more when it is told.
#[inline(never)]
pub(crate) fn marks_answer<P: Shows>(
    alloc: Global,
    writer: &mut Writer,
    puzzle: &P,
    board: &Board,
) -> Result<(), OutOfMemory>
    requires { board.now.size ≡ (P.puzzle puzzle.now).size }
    ensures { OnOk result (FollowsWhere (IsMarksAnswer (P.puzzle puzzle.now) P.grade_letter
        (StruckBy P.puzzle P.own puzzle.now) (P.edge_clue_of puzzle.now) (P.says_greater_of puzzle.now) board.now)
        writer.old writer.new) }
{
    if told_from_marks(alloc, writer, puzzle, board)? {
        return Ok(());
    }
    if told_from_numbers(alloc, writer, puzzle, board)? {
        return Ok(());
    }
    refuted_answer(alloc, writer, puzzle, board)
}

// Writes the hint from the marks, unless they are refuted, and tells whether it did.
#[inline(never)]
fn told_from_marks<P: Shows>(
    alloc: Global,
    writer: &mut Writer,
    puzzle: &P,
    board: &Board,
) -> Result<bool, OutOfMemory>
    requires { board.now.size ≡ (P.puzzle puzzle.now).size }
    ensures { IfOk result (λ told. MatchBool told (FollowsWhere (IsMarksAnswer (P.puzzle puzzle.now) P.grade_letter
        (StruckBy P.puzzle P.own puzzle.now) (P.edge_clue_of puzzle.now) (P.says_greater_of puzzle.now) board.now)
        writer.old writer.new)
        (writer.new ≡ writer.old)) }
{
    let view = view_on(board);
    let hint = next_hint_from(alloc, puzzle, board.grid(), &view)?;
    if is_contradiction(&hint) {
        return Ok(false);
    }
    write_from_marks(alloc, writer, puzzle, board, &view, &hint, None)?;
    Ok(true)
}

// Writes the contradiction of the numbers alone, if they are refuted, and tells whether it did.
#[inline(never)]
fn told_from_numbers<P: Shows>(
    alloc: Global,
    writer: &mut Writer,
    puzzle: &P,
    board: &Board,
) -> Result<bool, OutOfMemory>
    requires { board.now.size ≡ (P.puzzle puzzle.now).size }
    ensures { IfOk result (λ told. MatchBool told (FollowsWhere (IsMarksAnswer (P.puzzle puzzle.now) P.grade_letter
        (StruckBy P.puzzle P.own puzzle.now) (P.edge_clue_of puzzle.now) (P.says_greater_of puzzle.now) board.now)
        writer.old writer.new)
        ((writer.new ≡ writer.old) × AreNotRefuted (StruckBy P.puzzle P.own puzzle.now) (grid_of board.now))) }
{
    let grid = board.grid();
    let view = view_of(grid);
    let hint = next_hint_from(alloc, puzzle, grid, &view)?;
    if !is_contradiction(&hint) {
        return Ok(false);
    }
    write_hint(alloc, writer, puzzle, grid, &view, &hint, Start::Numbers)?;
    Ok(true)
}

// The hint from the marks, where the numbers alone aren't refuted, with a square whose mark is missing.
#[inline(never)]
fn refuted_answer<P: Shows>(
    alloc: Global,
    writer: &mut Writer,
    puzzle: &P,
    board: &Board,
) -> Result<(), OutOfMemory>
    requires size { board.now.size ≡ (P.puzzle puzzle.now).size }
    requires holds { AreNotRefuted (StruckBy P.puzzle P.own puzzle.now) (grid_of board.now) }
    ensures { OnOk result (FollowsWhere (IsMarksAnswer (P.puzzle puzzle.now) P.grade_letter
        (StruckBy P.puzzle P.own puzzle.now) (P.edge_clue_of puzzle.now) (P.says_greater_of puzzle.now) board.now)
        writer.old writer.new) }
{
    let view = view_on(board);
    let hint = next_hint_from(alloc, puzzle, board.grid(), &view)?;
    let unmarked = missing_mark(puzzle, board.grid(), &view, &hint);
    write_from_marks(alloc, writer, puzzle, board, &view, &hint, unmarked)
}

// Writes a hint from the marks of a board.
fn write_from_marks<P: Shows>(
    alloc: Global,
    writer: &mut Writer,
    puzzle: &P,
    board: &Board,
    view: &Candidates,
    hint: &NextHint,
    unmarked: Option<usize>,
) -> Result<(), OutOfMemory>
    requires size { board.now.size ≡ (P.puzzle puzzle.now).size }
    requires view { IsBoardView board.now view.now }
    requires hint { IsHintFrom (P.puzzle puzzle.now) (StruckBy P.puzzle P.own puzzle.now) (grid_of board.now)
        view.now hint.now }
    requires told { IsToldOfMarks (P.puzzle puzzle.now) (StruckBy P.puzzle P.own puzzle.now) (grid_of board.now)
        view.now hint.now unmarked }
    ensures { OnOk result (FollowsWhere (IsMarksAnswer (P.puzzle puzzle.now) P.grade_letter
        (StruckBy P.puzzle P.own puzzle.now) (P.edge_clue_of puzzle.now) (P.says_greater_of puzzle.now) board.now)
        writer.old writer.new) }
{
    let start = Start::Marks { unmarked };
    write_hint(alloc, writer, puzzle, board.grid(), view, hint, start)?;
    Ok(())
}

// Whether a hint is a contradiction.
fn is_contradiction(hint: &NextHint) -> bool
    ensures { IsTrue result ↔ IsContradiction hint.now }
{
    match hint {
        NextHint::Refuted { .. } => true,
        _ => false,
    }
}

// The square that a hint from the marks tells, where the numbers alone aren't refuted. Its frame isn't on the stack while a hint is looked
// for.
#[inline(never)]
fn missing_mark<P: Shows>(
    puzzle: &P,
    grid: &Grid,
    view: &Candidates,
    hint: &NextHint,
) -> Option<usize>
    requires size { grid.now.size ≡ (P.puzzle puzzle.now).size }
    requires view { view.now.size ≡ grid.now.size }
    requires holds { AreNotRefuted (StruckBy P.puzzle P.own puzzle.now) grid.now }
    ensures { IsToldOfMarks (P.puzzle puzzle.now) (StruckBy P.puzzle P.own puzzle.now) grid.now view.now hint.now result }
{
    if is_contradiction(hint) {
        lacking_of(view, &completion(puzzle, grid))
    } else {
        None
    }
}

// The first square whose number the candidates lack, of the one solution that was found, if it is one.
fn lacking_of(view: &Candidates, found: &Answer) -> Option<usize>
    requires { IsFullAnswer view.now.size found.now }
    ensures { IsLackingOf view.now found.now result }
{
    match found {
        Answer::One(grid) => first_lacking(view, grid),
        _ => None,
    }
}

// The first square whose number in a full grid of the candidates' size is none of them.
fn first_lacking(view: &Candidates, grid: &Grid) -> Option<usize>
    requires { IsFullGrid view.now.size grid.now }
    ensures { IsFirstLacking view.now grid.now result }
{
    let width = view.size().get() as usize;
    for cell in 0..width * width {
        if !view.may(cell, grid.get(cell)) {
            return Some(cell);
        }
    }
    None
}
