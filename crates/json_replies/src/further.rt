//! The answers beside the commands, as data of JSON: the board, the solutions that keep its numbers, a hint, the puzzle's grade and items.

ghost use Rattle.line_steps.specs.Reasons.{StruckBy};
ghost use Rattle.std.specs.Prelude.{◌≡◌, ◌∷◌, [], Option, Some, None, Ok, map, IfOk, OnOk};
ghost use Rattle.trail_solver.specs.Answers.{Fits};
ghost use Rattle.trail_solver.specs.Completions.{Completes};
ghost use Rattle.trail_solver.specs.Puzzles.{Solves};
ghost use Rattle.trail_solver.specs.declared.answer.Answer.{Answer};
ghost use Rattle.named_steps.specs.Graded.{IsGradeOf};
ghost use Rattle.line_steps.specs.declared.grade.Grade.{Grade as GradeValue};
ghost use Rattle.json_replies.specs.Boards.{grid_data};
ghost use Rattle.json_replies.specs.FurtherLines.{IsAnswer, IsFurtherLine, IsHintAnswer, answer_data, further_key, solutions_data, solutions_in};
ghost use Rattle.json_replies.specs.HintObjects.{grade_data};
ghost use Rattle.json_replies.specs.ListedItems.{AreItemsListed};
ghost use Rattle.json_replies.specs.Sessions.{game_data};
ghost use Rattle.json_replies.specs.declared.listed_items.Listing.TheVariants.{ByAnswer};
ghost use Rattle.json_replies.specs.Inner.ObjectMembers.{AnswerFollows, further_list, reply_list};
ghost use Rattle.json_replies.specs.WrittenData.{Follow};
ghost use Rattle.json_replies.specs.Inner.WrittenData.{FollowsWhere, MembersFollow};

use crate::board::{write_board, write_grid};
use crate::further_line::FurtherLine;
use crate::hint_text::write_hint;
use crate::listed_items::{Listing, write_items};
use crate::marked_hints::marks_answer;
use crate::object_line::{ended, write_said};
use crate::session::write_game;
use crate::shown::{ShownFacts, Shows};
use crate::start::Start;
use crate::written::{write_null, write_word};
use board_checks::errors;
use json::Writer;
use latin_board::{Board, Grid, OutOfMemory};
use line_replies::Facts;
use named_steps::{Grade, grade_of};
use needed_items::Items;
use play_midend::Session;
use std::alloc::{AllocError, Global};
use step_chains::{next_hint_from, view_of};
use step_texts::StepNames;
use trail_solver::{Answer, Rules, completion, solve};

/// The line of the object with the answer, beside what each object has.
// Its frame isn't on the stack while a fair game is drawn.
#[inline(never)]
pub(crate) fn answer_line<P: Shows>(
    alloc: Global,
    session: &Session<P>,
    which: FurtherLine,
) -> Result<Vec<u8>, OutOfMemory>
    ensures { IfOk result (λ line. IsFurtherLine ⟦<P as Facts>⟧.facts
        ⟦<P as ShownFacts>⟧.board_facts (Ok which) (Some session.now) line.items) }
{
    let mut writer = Writer::new(Vec::new(alloc));
    writer.begin_object()?;
    write_members(alloc, &mut writer, session, which)?;
    writer.end_object()?;
    Ok(ended(writer)?)
}

// Writes the answer and what each object has.
fn write_members<P: Shows>(
    alloc: Global,
    writer: &mut Writer,
    session: &Session<P>,
    which: FurtherLine,
) -> Result<(), OutOfMemory>
    ensures { OnOk result (AnswerFollows ⟦<P as Facts>⟧.facts ⟦<P as ShownFacts>⟧.board_facts session.now which
        (λ answer. further_list which answer (game_data ⟦<P as Facts>⟧.facts session.now)) writer.old writer.new) }
{
    if which.is_last() {
        write_common(alloc, writer, session)?;
        write_answer_at(alloc, writer, session, which)?;
        Ok(())
    } else {
        write_answer_at(alloc, writer, session, which)?;
        write_common(alloc, writer, session)?;
        Ok(())
    }
}

// Writes what each object has.
fn write_common<P: Shows>(
    alloc: Global,
    writer: &mut Writer,
    session: &Session<P>,
) -> Result<(), OutOfMemory>
    ensures { OnOk result
        (MembersFollow (reply_list None [] (game_data ⟦<P as Facts>⟧.facts session.now)) writer.old writer.new) }
{
    write_said(alloc, writer, None, b"")?;
    writer.key("session")?;
    write_game(alloc, writer, session)?;
    Ok(())
}

// Writes the answer under its key.
fn write_answer_at<P: Shows>(
    alloc: Global,
    writer: &mut Writer,
    session: &Session<P>,
    which: FurtherLine,
) -> Result<(), OutOfMemory>
    ensures { OnOk result (AnswerFollows ⟦<P as Facts>⟧.facts ⟦<P as ShownFacts>⟧.board_facts session.now which
        (λ answer. (further_key which, answer) ∷ []) writer.old writer.new) }
{
    writer.key(which.key())?;
    write_answer(alloc, writer, session.puzzle(), session.board(), which)?;
    Ok(())
}

// Writes the answer itself, of a puzzle and the board that is shown.
fn write_answer<P: Shows>(
    alloc: Global,
    writer: &mut Writer,
    puzzle: &P,
    board: &Board,
    which: FurtherLine,
) -> Result<(), OutOfMemory>
    requires { board.now.size ≡ (P.puzzle puzzle.now).size }
    ensures { OnOk result (FollowsWhere (IsAnswer ⟦<P as Facts>⟧.facts
        ⟦<P as ShownFacts>⟧.board_facts puzzle.now board.now which) writer.old writer.new) }
{
    match which {
        FurtherLine::Board => board_answer(writer, puzzle, board),
        FurtherLine::Completable => count_answer(writer, puzzle, board.grid()),
        FurtherLine::Hint => hint_answer(alloc, writer, puzzle, board.grid()),
        FurtherLine::HintMarks => marks_answer(alloc, writer, puzzle, board),
        FurtherLine::Grade => grade_answer(writer, puzzle),
        FurtherLine::Solutions => solutions_answer(writer, puzzle, board.grid()),
        FurtherLine::Spare => spare_answer(alloc, writer, puzzle),
        FurtherLine::SpareBy(grade) => {
            Ok(write_items(alloc, writer, puzzle, &Listing::ByGrade(grade))?)
        }
    }
}

// The board that is shown, and its errors. Its frame isn't on the stack while a hint is looked for.
#[inline(never)]
fn board_answer<P: Shows>(writer: &mut Writer, puzzle: &P, board: &Board) -> Result<(), OutOfMemory>
    requires { board.now.size ≡ (P.puzzle puzzle.now).size }
    ensures { OnOk result (FollowsWhere (IsAnswer ⟦<P as Facts>⟧.facts ⟦<P as ShownFacts>⟧.board_facts puzzle.now board.now
        FurtherLine.Board) writer.old writer.new) }
{
    let errors = errors(puzzle, board.grid());
    write_board(writer, puzzle, board, &errors)?;
    Ok(())
}

// How many solutions keep the numbers of a grid of the puzzle's size. Its frame isn't on the stack while a
// hint is looked for.
#[inline(never)]
fn count_answer<P: Shows>(writer: &mut Writer, puzzle: &P, grid: &Grid) -> Result<(), OutOfMemory>
    requires { grid.now.size ≡ (P.puzzle puzzle.now).size }
    ensures { OnOk result (FollowsWhere (λ answer. (found : Answer) × Fits (Completes (P.puzzle puzzle.now) grid.now) found
        × (answer ≡ answer_data found)) writer.old writer.new) }
{
    write_count(writer, completion(puzzle, grid))?;
    Ok(())
}

// Writes how many solutions keep the numbers, as a word.
fn write_count(writer: &mut Writer, found: Answer) -> Result<(), AllocError>
    ensures { OnOk result (Follow (answer_data found ∷ []) writer.old writer.new) }
{
    match found {
        Answer::None => write_word(writer, "none"),
        Answer::One(_) => write_word(writer, "one"),
        Answer::Several(_, _) => write_word(writer, "several"),
    }
}

// Two of the solutions that keep the numbers of a grid of the puzzle's size, or as many as there are.
#[inline(never)]
fn solutions_answer<P: Shows>(
    writer: &mut Writer,
    puzzle: &P,
    grid: &Grid,
) -> Result<(), OutOfMemory>
    requires { grid.now.size ≡ (P.puzzle puzzle.now).size }
    ensures { OnOk result (FollowsWhere (λ answer. (found : Answer) × Fits (Completes (P.puzzle puzzle.now) grid.now) found
        × (answer ≡ solutions_data found)) writer.old writer.new) }
{
    let found = completion(puzzle, grid);
    writer.begin_array()?;
    write_grids(writer, &found)?;
    writer.end_array()?;
    Ok(())
}

// Writes the solutions that were found.
#[tactic(auto, using(crate::proofs::WrittenData::none_follow, crate::proofs::WrittenData::more_follow))]
fn write_grids(writer: &mut Writer, found: &Answer) -> Result<(), AllocError>
    ensures { OnOk result (Follow (map grid_data (solutions_in found.now)) writer.old writer.new) }
{
    match found {
        Answer::None => Ok(()),
        Answer::One(grid) => write_grid(writer, grid),
        Answer::Several(one, other) => {
            write_grid(writer, one)?;
            write_grid(writer, other)?;
            Ok(())
        }
    }
}

// The items that could be left out, or of which one is to blame.
#[inline(never)]
fn spare_answer<P: Shows>(alloc: Global, writer: &mut Writer, puzzle: &P) -> Result<(), OutOfMemory>
    ensures { OnOk result (FollowsWhere (λ answer. (found : Answer) × Fits (Solves (P.puzzle puzzle.now)) found
        × AreItemsListed ⟦<P as Rules>⟧ (StruckBy P.puzzle P.own) P.Items.own (P.says_greater_of puzzle.now) puzzle.now
        (ByAnswer found) answer) writer.old writer.new) }
{
    write_items(alloc, writer, puzzle, &Listing::ByAnswer(solve(puzzle)))?;
    Ok(())
}

// The hint of a grid of the puzzle's size. Its frame isn't on the stack while a hint is looked for from marks.
#[inline(never)]
fn hint_answer<P: Shows>(
    alloc: Global,
    writer: &mut Writer,
    puzzle: &P,
    grid: &Grid,
) -> Result<(), OutOfMemory>
    requires { grid.now.size ≡ (P.puzzle puzzle.now).size }
    ensures { OnOk result (FollowsWhere (IsHintAnswer (P.puzzle puzzle.now) P.grade_letter
        (StruckBy P.puzzle P.own puzzle.now) (P.edge_clue_of puzzle.now) (P.says_greater_of puzzle.now) grid.now)
        writer.old writer.new) }
{
    let view = view_of(grid);
    let hint = next_hint_from(alloc, puzzle, grid, &view)?;
    write_hint(alloc, writer, puzzle, grid, &view, &hint, Start::Numbers)?;
    Ok(())
}

// The puzzle's grade, if it has one. Its frame isn't on the stack while a hint is looked for.
#[inline(never)]
fn grade_answer<P: Shows>(writer: &mut Writer, puzzle: &P) -> Result<(), OutOfMemory>
    ensures { OnOk result (FollowsWhere (λ answer. (grade : Option GradeValue)
        × IsGradeOf (P.puzzle puzzle.now) (StruckBy P.puzzle P.own puzzle.now) grade
        × (answer ≡ grade_data P.grade_letter grade)) writer.old writer.new) }
{
    write_grade::<P>(writer, grade_of(puzzle))?;
    Ok(())
}

// Writes the letter of a grade, or null.
fn write_grade<P: StepNames>(writer: &mut Writer, grade: Option<Grade>) -> Result<(), AllocError>
    ensures { OnOk result (Follow (grade_data P.grade_letter grade ∷ []) writer.old writer.new) }
{
    match grade {
        Some(grade) => write_word(writer, P::letter(grade)),
        None => write_null(writer),
    }
}
