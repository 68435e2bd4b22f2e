//! The object of a hint.

ghost use Rattle.line_steps.specs.Reasons.{StruckBy};
ghost use Rattle.std.specs.Prelude.{◌≡◌, ◌*◌, ◌<◌, ◌∷◌, [], codes, OnOk, IfOk};
ghost use Rattle.step_texts.specs.Lines.{line_texts};
ghost use Rattle.trail_solver.specs.Candidates.{may_be};
ghost use Rattle.trail_solver.specs.Pairs.{IsPair};
ghost use Rattle.json_replies.specs.Boards.{when};
ghost use Rattle.json_replies.specs.Counts.{count_data};
ghost use Rattle.json_replies.specs.Texts.{list_data};
ghost use Rattle.json_replies.specs.HintObjects.{IsGoalTold, IsHintValue, IsTextOf, by_word, goal_line_data};
ghost use Rattle.json_replies.specs.HintObjects.{left_data, follows_data, refuted_data, steps_in, view_data, IsSaidOf};
ghost use Rattle.named_steps.specs.Chains.{IsGoalOf};
ghost use Rattle.json_replies.specs.Inner.WrittenData.{count_or_null, said_data, said_members, FollowsWhere, MembersFollow};
ghost use Rattle.json_replies.specs.WrittenData.{Follow};

use crate::start::Start;
use crate::written::{
    Each, write_lines, write_number, write_number_at, write_number_when, write_range,
    write_squares, write_word_at,
};
use crate::written_steps::write_steps;
use json::Writer;
use latin_board::{Grid, Size};
use named_steps::Goal;
use std::alloc::{AllocError, Global};
use step_chains::{NextHint, Step};
use step_texts::{
    DeadEnd, Line, StepNames, ToldStep, chain_lines, dead_end, end_name, goal_name,
    refutation_lines, told_groups, told_steps,
};
use trail_solver::Candidates;

/// Writes a hint of a grid from some candidates as an object: what it says, the candidates, and the steps from there, each with its sentence.
#[inline(never)]
pub(crate) fn write_hint<P: StepNames>(
    alloc: Global,
    writer: &mut Writer,
    p: &P,
    grid: &Grid,
    view: &Candidates,
    hint: &NextHint,
    start: Start,
) -> Result<(), AllocError>
    requires size { grid.now.size ≡ (P.Rules.puzzle p.now).size }
    requires goal { IsGoalTold grid.now.size hint.now }
    ensures { OnOk result (FollowsWhere (IsHintValue (P.Rules.puzzle p.now).size P.grade_letter (P.edge_clue_of p.now)
        (P.says_greater_of p.now) (StruckBy P.puzzle P.own p.now) start view.now hint.now) writer.old writer.new) }
{
    let told = told_steps(alloc, p, view, steps_in(hint))?;
    let groups = told_groups(alloc, p, told.as_slice())?;
    let lines = text_of(alloc, p, grid, view, told.as_slice(), hint)?;
    let said = said_of::<P>(grid, view, hint);
    writer.begin_object()?;
    write_said(writer, said, start, groups.as_slice())?;
    writer.key("steps")?;
    write_steps(alloc, writer, p, told.as_slice())?;
    writer.key("text")?;
    write_lines(alloc, writer, lines.as_slice())?;
    write_number_at(writer, "unmarked", start.unmarked())?;
    writer.key("view")?;
    write_candidates(writer, view)?;
    writer.end_object()?;
    Ok(())
}

// The parts of a hint: each is a member of its object, null where the hint says nothing of it.
#[derive(Drop)]
struct Said {
    by: Option<&'static str>,
    cell: Option<usize>,
    grade: Option<&'static str>,
    kind: &'static str,
    line: Option<usize>,
    name: Option<&'static str>,
    number: Option<usize>,
}

// The parts of a hint of a grid from some candidates.
fn said_of<P: StepNames>(grid: &Grid, view: &Candidates, hint: &NextHint) -> Said
    requires { IsGoalTold grid.now.size hint.now }
    ensures { IsSaidOf grid.now.size P.grade_letter view.now hint.now (said_data result) }
{
    match hint {
        NextHint::Follows { grade, chain } => {
            let name = goal_name(grid, view, chain.goal);
            follows(grid.size(), P::letter(*grade), name, chain.goal)
        }
        NextHint::Refuted { grade, refutation } => {
            let end = dead_end(view, refutation.steps.as_slice(), refutation.cell);
            refuted(P::letter(*grade), end_name(grid, view, end), end)
        }
        NextHint::Nothing => Said {
            by: None,
            cell: None,
            grade: None,
            kind: "nothing",
            line: None,
            name: None,
            number: None,
        },
    }
}

// The parts of a hint that shows a number.
fn follows(size: Size, letter: &'static str, name: &'static str, goal: Goal) -> Said
    requires { IsGoalOf size goal }
    ensures { said_data result ≡ follows_data size letter.now name.now goal }
{
    Said {
        by: Some(by_word(goal)),
        cell: Some(goal.cell(size)),
        grade: Some(letter),
        kind: "follows",
        line: goal_line(goal),
        name: Some(name),
        number: Some(usize::from(goal.value())),
    }
}

// The parts of a contradiction that ends there.
fn refuted(letter: &'static str, name: &'static str, end: DeadEnd) -> Said
    ensures { said_data result ≡ refuted_data letter.now name.now end }
{
    match end {
        DeadEnd::Square { cell } => Said {
            by: None,
            cell: Some(cell),
            grade: Some(letter),
            kind: "contradiction",
            line: None,
            name: Some(name),
            number: None,
        },
        DeadEnd::Line { line, value } => Said {
            by: None,
            cell: None,
            grade: Some(letter),
            kind: "contradiction",
            line: Some(line),
            name: Some(name),
            number: Some(usize::from(value)),
        },
    }
}

// By what a goal is shown, as a word.
fn by_word(goal: Goal) -> &'static str
    ensures { result.now ≡ by_word goal }
{
    match goal {
        Goal::OnlyValue { .. } => "value",
        Goal::OnlyPlace { .. } => "line",
    }
}

// The row or column in which the number has one place, where it is shown by that.
fn goal_line(goal: Goal) -> Option<usize>
    ensures { count_or_null result ≡ goal_line_data goal }
{
    match goal {
        Goal::OnlyValue { .. } => None,
        Goal::OnlyPlace { line, .. } => Some(line),
    }
}

// The steps of a hint.
fn steps_in(hint: &NextHint) -> &[Step]
    ensures { result.now ≡ steps_in hint.now }
{
    match hint {
        NextHint::Follows { chain, .. } => chain.steps.as_slice(),
        NextHint::Refuted { refutation, .. } => refutation.steps.as_slice(),
        NextHint::Nothing => &[],
    }
}

// The sentences of a hint.
fn text_of<P: StepNames>(
    alloc: Global,
    p: &P,
    grid: &Grid,
    view: &Candidates,
    told: &[ToldStep],
    hint: &NextHint,
) -> Result<Vec<Line>, AllocError>
    ensures { IfOk result (λ lines. IsTextOf hint.now (line_texts lines.items)) }
{
    match hint {
        NextHint::Follows { chain, .. } => chain_lines(alloc, p, grid, view, told, chain.goal),
        NextHint::Refuted { refutation, .. } => refutation_lines(
            alloc,
            p,
            grid,
            view,
            told,
            dead_end(view, refutation.steps.as_slice(), refutation.cell),
        ),
        NextHint::Nothing => Ok(Vec::new(alloc)),
    }
}

// Writes what a hint says, from what its steps begin, and how many of them each of its sentences is of.
fn write_said(
    writer: &mut Writer,
    said: Said,
    start: Start,
    groups: &[usize],
) -> Result<(), AllocError>
    ensures { OnOk result (MembersFollow (said_members (said_data said) start (list_data count_data groups.now))
        writer.old writer.new) }
{
    write_word_at(writer, "by", said.by)?;
    write_number_at(writer, "cell", said.cell)?;
    write_word_at(writer, "from", Some(start.word()))?;
    write_word_at(writer, "grade", said.grade)?;
    write_groups_at(writer, groups)?;
    write_word_at(writer, "kind", Some(said.kind))?;
    write_number_at(writer, "line", said.line)?;
    write_word_at(writer, "name", said.name)?;
    write_number_at(writer, "number", said.number)?;
    Ok(())
}

// Writes how many steps each sentence is of, as a member.
#[tactic(auto, using(crate::proofs::WrittenData::key_follows))]
fn write_groups_at(writer: &mut Writer, groups: &[usize]) -> Result<(), AllocError>
    ensures { OnOk result (MembersFollow ((codes "groups", list_data count_data groups.now) ∷ [])
        writer.old writer.new) }
{
    writer.key("groups")?;
    write_groups(writer, groups)?;
    Ok(())
}

// Writes how many steps each sentence is of.
fn write_groups(writer: &mut Writer, groups: &[usize]) -> Result<(), AllocError>
    ensures { OnOk result (Follow (list_data count_data groups.now ∷ []) writer.old writer.new) }
{
    writer.begin_array()?;
    for steps in groups {
        write_number(writer, *steps)?;
    }
    writer.end_array()?;
    Ok(())
}

// Writes the numbers that are left of each square.
fn write_candidates(writer: &mut Writer, candidates: &Candidates) -> Result<(), AllocError>
    ensures { OnOk result (Follow (view_data candidates.now ∷ []) writer.old writer.new) }
{
    write_squares(writer, candidates.size(), &View(candidates))
}

// The numbers that are left of each square.
#[derive(Drop)]
struct View<'a>(&'a Candidates);

impl<'a> Each for View<'a> {
    ghost asks = { λ view cell. cell < view.0.now.size * view.0.now.size };

    ghost tells = { λ view cell. left_data view.0.now cell ∷ [] };

    fn write(&self, writer: &mut Writer, cell: usize) -> Result<(), AllocError> {
        let candidates = self.0;
        let width = usize::from(candidates.size().get());
        write_range(writer, 1, width, &Left { candidates, cell })
    }
}

// The numbers that are left of a square, rising.
#[derive(Drop)]
struct Left<'a> {
    candidates: &'a Candidates,
    cell: usize,
}

impl<'a> Each for Left<'a> {
    ghost asks = { λ left n. IsPair left.candidates.now.size left.cell n };

    ghost tells = { λ left n. when (may_be left.candidates.now left.cell n) (count_data n) };

    fn write(&self, writer: &mut Writer, n: usize) -> Result<(), AllocError> {
        write_number_when(writer, self.candidates.may(self.cell, n as u8), n)
    }
}
