//! The steps of a chain, told one after another.
ghost use Rattle.line_steps.specs.Reasons.{StruckBy};
ghost use Rattle.std.specs.Prelude.{IfOk};
ghost use Rattle.trail_solver.specs.Candidates.{CandidatesValue};
ghost use Rattle.line_steps.specs.declared.reason.Reason.{Reason};
ghost use Rattle.shown_counts.specs.Shown.{IsLineOf};
ghost use Rattle.step_texts.specs.Told.{AreToldCounts, AreToldStrikes, IsToldOf, AreTold};

use crate::groups::Why;
use crate::looks::joined_steps;
use crate::named_squares::{known_squares, tower_squares};
use crate::said_before::SaidBefore;
use crate::sentences::{Look, end_of, say_step, shown_of};
use crate::step_names::StepNames;
use crate::told::{Strike, ToldStep};
use crate::writing::{Writing, said};
use named_steps::Reason;
use number_sets::NumberSet;
use shown_counts::ClueCounts;
use std::alloc::{AllocError, Global};
use step_chains::{Step, copied, take_all};
use trail_solver::{Candidates, Rules};

// Of more steps nobody reads each sentence, and the squares that a clue needs take long to find.
const MANY: usize = 60;

/// The steps of a chain from candidates on, as they are told: those side by side that have one reason, hold at once and are in reading order
/// are one.
// `cache` is in this frame alone, so that it isn't on the stack of those who search for chains before they tell them.
#[inline(never)]
pub fn told_steps<P: StepNames>(
    alloc: Global,
    p: &P,
    view: &Candidates,
    steps: &[Step],
) -> Result<Vec<ToldStep>, AllocError>
    ensures { IfOk result
        (λ told. AreTold (StruckBy P.puzzle P.own p.now) (P.Rules.puzzle p.now).size view.now steps.now told.items) }
{
    let mut candidates = copied(view);
    let mut cache = P::Cache::default();
    let mut before = SaidBefore::nothing(&candidates);
    let mut told = Vec::new(alloc);
    let mut rest = steps;
    let are_many = steps.len() > MANY;
    while let Some(first) = rest.first() {
        let joined = joined_steps(p, &candidates, first, &rest[1..], &mut cache);
        let (look, more) = rest.split_at(joined + 1);
        told.push(told_step(alloc, p, &candidates, &mut before, first, look, are_many)?)?;
        take_all(&mut candidates, look);
        rest = more;
    }
    Ok(told)
}

// Steps of the first one's reason as one, by the candidates before them.
fn told_step<P: StepNames>(
    alloc: Global,
    p: &P,
    candidates: &Candidates,
    before: &mut SaidBefore,
    first: &Step,
    look: &[Step],
    is_of_many: bool,
) -> Result<ToldStep, AllocError>
    ensures { IfOk result (IsToldOf candidates.now first.now.reason look.now) }
{
    let line = ClueCounts::of(candidates, first.reason);
    let strikes = told_strikes(alloc, candidates, first, &line, look)?;
    before.go_on(Why::of(p, first.reason, strikes.as_slice()));
    let other = before.left_of(other_end(first.reason));
    let end = end_of(p, first.reason, other, strikes.as_slice());
    before.rule_out(strikes.as_slice(), end);
    let told = Look {
        reason: first.reason,
        line: &line,
        left: &left_line(candidates, first.reason),
        end,
        is_alone: other.is_single(),
        strikes: strikes.as_slice(),
        is_of_many,
    };
    let shown = shown_of(p, &told);
    let known = known_squares(alloc, candidates, &told, &shown)?;
    let towers = tower_squares(alloc, &shown)?;
    let mut text = Writing::new(alloc);
    said(say_step(&mut text, p, candidates, &told, &shown))?;
    text.end()?;
    Ok(ToldStep {
        reason: first.reason,
        strikes,
        end,
        is_alone: other.is_single(),
        known,
        towers,
        text: text.into_lines(),
    })
}

// The square at the other end of a sign; of other reasons the first one, of which nothing is told then.
fn other_end(reason: Reason) -> usize {
    match reason {
        Reason::Sign { from, .. } => from,
        _ => 0,
    }
}

// The line of a reason's clue by what is left of it, of those that look at less than that.
fn left_line(candidates: &Candidates, reason: Reason) -> Option<ClueCounts> {
    match reason {
        Reason::Bound { place } | Reason::Stand { place } => {
            ClueCounts::of(candidates, Reason::Clue { place })
        }
        _ => None,
    }
}

// The strikes of steps of the first one's reason, square by square, with the counts of its clue's line.
fn told_strikes(
    alloc: Global,
    candidates: &Candidates,
    first: &Step,
    line: &Option<ClueCounts>,
    look: &[Step],
) -> Result<Vec<Strike>, AllocError>
    requires { IsLineOf candidates.now first.now.reason line.now }
    ensures { IfOk result (λ strikes. AreToldStrikes candidates.now first.now.reason look.now strikes.items) }
{
    let _size = candidates.size();
    let mut strikes = Vec::new(alloc);
    for step in look {
        let _bits = step.values.bits();
        strikes.push(Strike {
            cell: step.cell,
            values: step.values,
            shows: shows_of(line, step),
        })?;
    }
    Ok(strikes)
}

// The counts with each number of a step, where its reason looks from a clue.
fn shows_of(counts: &Option<ClueCounts>, step: &Step) -> Option<[NumberSet; 10]>
    ensures { (c : CandidatesValue) (reason : Reason) → IsLineOf c reason counts.now
        → AreToldCounts c reason step.now.cell step.now.values result }
{
    match counts {
        Some(counts) => Some(counts.shows(step.cell, step.values)),
        None => None,
    }
}
