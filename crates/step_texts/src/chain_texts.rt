//! The text of a chain: its told steps, numbered, and what they show or leave nothing.
ghost use Rattle.std.specs.Prelude.{◌≤◌, length, IfOk};
ghost use Rattle.step_texts.specs.Lines.{AreShort, line_texts};

use crate::dead_ends::DeadEnd;
use crate::endings::{say_empty, say_goal};
use crate::groups::{first_group, say_group};
use crate::step_names::StepNames;
use crate::told::ToldStep;
use crate::writing::{Line, Writing, said};
use latin_board::Grid;
use named_steps::Goal;
use std::alloc::{AllocError, Global};
use std::fmt::Write;
use trail_solver::Candidates;

/// The told steps of a grid from some candidates, with the number of each sentence, and then the number that they show.
#[tactic(auto, using(crate::proofs::ShortLines::some_texts))]
pub fn chain_lines<P: StepNames>(
    alloc: Global,
    p: &P,
    grid: &Grid,
    view: &Candidates,
    told: &[ToldStep],
    goal: Goal,
) -> Result<Vec<Line>, AllocError>
    ensures short { IfOk result (λ lines. AreShort (line_texts lines.items)) }
    ensures some { IfOk result (λ lines. 1 ≤ length (line_texts lines.items)) }
{
    let mut text = Writing::new(alloc);
    say_steps(&mut text, p, told)?;
    said(say_goal(&mut text, grid, view, goal))?;
    text.end()?;
    Ok(text.into_lines())
}

/// The told steps of a grid from some candidates, with the number of each sentence, and then the end of their contradiction.
#[tactic(auto, using(crate::proofs::ShortLines::some_texts))]
pub fn refutation_lines<P: StepNames>(
    alloc: Global,
    p: &P,
    grid: &Grid,
    view: &Candidates,
    told: &[ToldStep],
    end: DeadEnd,
) -> Result<Vec<Line>, AllocError>
    ensures short { IfOk result (λ lines. AreShort (line_texts lines.items)) }
    ensures some { IfOk result (λ lines. 1 ≤ length (line_texts lines.items)) }
{
    let mut text = Writing::new(alloc);
    say_steps(&mut text, p, told)?;
    said(say_empty(&mut text, grid, view, end))?;
    text.end()?;
    Ok(text.into_lines())
}

// The sentences of told steps, each with its number.
#[tactic(auto, using(crate::proofs::Grouped::shorter))]
fn say_steps<P: StepNames>(text: &mut Writing, p: &P, told: &[ToldStep]) -> Result<(), AllocError> {
    let mut rest = told;
    let mut number = 0usize;
    while !rest.is_empty() {
        let (group, more) = rest.split_at(first_group(p, rest));
        number = number.saturating_add(1);
        said(write!(text, "{number}. "))?;
        text.begin();
        said(say_group(text, p, group))?;
        text.end()?;
        rest = more;
    }
    Ok(())
}
