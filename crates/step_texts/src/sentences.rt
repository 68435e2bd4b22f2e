//! The sentence of a step.

use crate::clue_sentences::{Knowing, Shown, say_clue};
use crate::headings::clue_at;
use crate::left::{left_of, left_on, one};
use crate::names::{EdgeClue, GridLine, Joined, Losses, Square, numbers};
use crate::set_sentences::say_set;
use crate::step_names::StepNames;
use crate::told::{SignEnd, Strike};
use crate::writing::Writing;
use latin_board::Size;
use named_steps::Reason;
use number_sets::NumberSet;
use shown_counts::ClueCounts;
use std::fmt::{self, Write};
use trail_solver::Candidates;

/// A look to tell: its reason, its clue's line where it has one, and what it strikes.
#[derive(Clone, Copy)]
pub(crate) struct Look<'a> {
    pub(crate) reason: Reason,
    pub(crate) line: &'a Option<ClueCounts>,
    // That line by what is left of it.
    pub(crate) left: &'a Option<ClueCounts>,
    // The bound that is told of the other end of a sign, and whether it is a number alone.
    pub(crate) end: Option<SignEnd>,
    pub(crate) is_alone: bool,
    pub(crate) strikes: &'a [Strike],
    // Whether it is one of so many that nobody looks for the squares that its clue needs.
    pub(crate) is_of_many: bool,
}

/// Why a look strikes, by the candidates before it, or by its clue's line, and what it strikes.
pub(crate) fn say_step<P: StepNames>(
    text: &mut Writing,
    p: &P,
    candidates: &Candidates,
    look: &Look,
    shown: &Option<Shown>,
) -> fmt::Result {
    let size = candidates.size();
    let strikes = look.strikes;
    match look.reason {
        Reason::Given { cell } => write!(text, "{} is given", Square::of(size, cell))?,
        Reason::Peer { cell } => say_left(text, Square::of(size, cell), left_of(candidates, cell))?,
        Reason::Place { line, index, value } => {
            if has_no_square(candidates, line, index, value, strikes) {
                return say_no_square(text, size, line, index, value);
            }
            say_place(text, candidates, line, index, value)?;
        }
        Reason::Bound { place } => {
            return say_looked(text, &edge_clue(p, place), Knowing::Alone, look, shown);
        }
        Reason::Stand { place } => {
            return say_looked(text, &edge_clue(p, place), Knowing::Stands, look, shown);
        }
        Reason::Clue { place } => {
            return say_looked(text, &edge_clue(p, place), Knowing::Marks, look, shown);
        }
        Reason::Sign { from, to } => say_sign(text, p, from, to, look)?,
        Reason::Set {
            line,
            squares,
            values,
        } => say_set(text, candidates, line, squares, values, strikes)?,
    }
    write!(text, ": {}.", Losses { size, strikes })
}

// The sentence of a clue, of whose line there is nothing to say where its place is none of the edge's.
fn say_looked(
    text: &mut Writing,
    at: &EdgeClue,
    knowing: Knowing,
    look: &Look,
    shown: &Option<Shown>,
) -> fmt::Result {
    match look.line {
        Some(line) => say_clue(text, at, knowing, line, look.strikes, shown),
        None => Ok(()),
    }
}

/// All that a look tells of its clue, if it looks from one that isn't enough alone.
pub(crate) fn shown_of<P: StepNames>(p: &P, look: &Look) -> Option<Shown> {
    let (place, knowing) = match look.reason {
        Reason::Bound { place } => (place, Knowing::Alone),
        Reason::Stand { place } => (place, Knowing::Stands),
        Reason::Clue { place } => (place, Knowing::Marks),
        _ => return None,
    };
    match look.line {
        Some(line) => Shown::of(&edge_clue(p, place), knowing, line, look),
        None => None,
    }
}

// Says what is left of a square.
fn say_left(text: &mut Writing, square: Square, left: NumberSet) -> fmt::Result {
    if left.is_empty() {
        write!(text, "{square} has no number left")
    } else {
        write!(text, "{square} is {}", numbers(left, Joined::Or))
    }
}

// That a value has one place in a line, or, where it isn't left there either, that it has no other.
fn say_place(
    text: &mut Writing,
    candidates: &Candidates,
    at: usize,
    index: usize,
    value: u8,
) -> fmt::Result {
    let size = candidates.size();
    let line = GridLine { size, index: at };
    if one(value).is_subset(left_on(candidates, at, index)) {
        let square = Square::on(size, at, index);
        write!(text, "In {line} only {square} can be {value}")
    } else {
        write!(text, "No other square of {line} can be {value}")
    }
}

// Whether a value is left at none of a line's squares, and all that is left of this one goes.
fn has_no_square(
    candidates: &Candidates,
    line: usize,
    index: usize,
    value: u8,
    strikes: &[Strike],
) -> bool {
    let left = left_on(candidates, line, index);
    let goes = strikes.iter().all(|strike| strike.values == left);
    goes && !one(value).is_subset(left)
}

// That a value has no square in a line, told at one of them.
fn say_no_square(
    text: &mut Writing,
    size: Size,
    at: usize,
    index: usize,
    value: u8,
) -> fmt::Result {
    let line = GridLine { size, index: at };
    let square = Square::on(size, at, index);
    write!(
        text,
        "No other square of {line} can be {value}, nor can {square}."
    )
}

// Says the sign, by what is left of its other end if that is told.
fn say_sign<P: StepNames>(
    text: &mut Writing,
    p: &P,
    from: usize,
    to: usize,
    look: &Look,
) -> fmt::Result {
    let size = p.size();
    let square = Square::of(size, to);
    let other = Square::of(size, from);
    let is = if is_greater(p, from, to) {
        "less"
    } else {
        "greater"
    };
    write!(text, "{square} is {is} than {other}")?;
    match look.end {
        Some(end) if look.is_alone => write!(text, ", which is {}", end.number()),
        Some(SignEnd::AtLeast(least)) => write!(text, ", which is at least {least}"),
        Some(SignEnd::AtMost(most)) => write!(text, ", which is at most {most}"),
        None => Ok(()),
    }
}

/// The bound that is told of the other end of a sign with these numbers left there. It isn't needed if only
/// the number is struck that no grid has at the other end.
pub(crate) fn end_of<P: StepNames>(
    p: &P,
    reason: Reason,
    left: NumberSet,
    strikes: &[Strike],
) -> Option<SignEnd> {
    let Reason::Sign { from, to } = reason else {
        return None;
    };
    let is_less = is_greater(p, from, to);
    let (number, last) = if is_less {
        (left.greatest()?, p.size().get())
    } else {
        (left.least()?, 1)
    };
    if number == last || strikes.iter().all(|strike| strike.values == one(last)) {
        return None;
    }
    Some(if is_less {
        SignEnd::AtMost(number)
    } else {
        SignEnd::AtLeast(number)
    })
}

/// The clue at a place of the edge; 0 of any other.
pub(crate) fn edge_clue<P: StepNames>(p: &P, place: usize) -> EdgeClue {
    let size = p.size();
    let clue = clue_at(p, place);
    EdgeClue { size, place, clue }
}

/// Whether a sign says that the first of two squares has the greater number; not so of squares that the grid doesn't have.
pub(crate) fn is_greater<P: StepNames>(p: &P, first: usize, second: usize) -> bool {
    let width = p.size().get() as usize;
    first < width * width && second < width * width && p.says_greater(first, second)
}
