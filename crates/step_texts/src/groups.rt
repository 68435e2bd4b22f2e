//! Told steps side by side that say the same of their squares, and the one sentence of them.
ghost use Rattle.std.specs.Prelude.{◌<◌, ◌≤◌, length, IfOk};
ghost use Rattle.step_texts.specs.Groups.{AreGroups};

use crate::clue_sentences::article_of;
use crate::left::one;
use crate::names::{Joined, List, Square, Squares, between};
use crate::said_before::weaker;
use crate::sentences::{edge_clue, is_greater};
use crate::showing::Showing;
use crate::step_names::StepNames;
use crate::told::{SignEnd, Strike, ToldStep};
use crate::writing::Writing;
use latin_board::Size;
use named_steps::Reason;
use number_sets::NumberSet;
use std::alloc::{AllocError, Global};
use std::fmt::{self, Write};

/// How many of the told steps each sentence is of.
///
/// Those are one sentence that stand side by side and strike the same one number, all of them at the greater end of a sign, all at the lesser
/// one, or all by clues alone from which too few towers would be seen, or too many. They hold at once: what a sign asks of its other end isn't
/// changed by this number being struck there, and a clue alone asks nothing.
#[tactic(auto, using(crate::proofs::Grouped::one_group, crate::proofs::Grouped::all_grouped, crate::proofs::Grouped::shorter))]
pub fn told_groups<P: StepNames>(
    alloc: Global,
    p: &P,
    told: &[ToldStep],
) -> Result<Vec<usize>, AllocError>
    ensures { IfOk result (λ groups. AreGroups (length told.now) groups.items) }
{
    let mut groups = Vec::new(alloc);
    let mut rest = told;
    while !rest.is_empty() {
        let steps = first_group(p, rest);
        groups.push(steps)?;
        rest = &rest[steps..];
    }
    Ok(groups)
}

/// How many of some told steps are the first sentence's.
pub(crate) fn first_group<P: StepNames>(p: &P, told: &[ToldStep]) -> usize
    requires { 1 ≤ length told.now }
    ensures some { 1 ≤ result }
    ensures within { result ≤ length told.now }
{
    let why = why_of(p, &told[0]);
    for at in 1..told.len() {
        if why.is_none() || why_of(p, &told[at]) != why {
            return at;
        }
    }
    told.len()
}

/// Says told steps that are one sentence.
pub(crate) fn say_group<P: StepNames>(
    text: &mut Writing,
    p: &P,
    group: &[ToldStep],
) -> fmt::Result {
    let Some((first, others)) = group.split_first() else {
        return Ok(());
    };
    match why_of(p, first) {
        Some(why) if !others.is_empty() => say_together(text, p, group, why),
        _ => text.say_lines(first.text.as_slice()),
    }
}

/// Why a told step strikes one number, without the square or clue of which it is told.
#[derive(Clone, Copy, PartialEq, Eq, Debug)]
pub(crate) enum Why {
    /// Each square is at the greater end of a sign.
    Greater(u8),
    /// Each is at the lesser end.
    Less(u8),
    /// From the clue so many towers would be seen.
    Seen(u8, Showing),
}

impl Why {
    /// Why a reason strikes these.
    pub(crate) fn of<P: StepNames>(p: &P, reason: Reason, strikes: &[Strike]) -> Option<Why> {
        let number = only_number(strikes)?;
        match reason {
            Reason::Sign { from, to } if is_greater(p, from, to) => Some(Why::Less(number)),
            Reason::Sign { .. } => Some(Why::Greater(number)),
            Reason::Bound { place } => {
                let counts = counts_with(strikes, number);
                match Showing::beside(counts, edge_clue(p, place).clue) {
                    Showing::Never | Showing::Both(_) => None,
                    beside => Some(Why::Seen(number, beside)),
                }
            }
            _ => None,
        }
    }
}

// Why a told step strikes.
fn why_of<P: StepNames>(p: &P, step: &ToldStep) -> Option<Why> {
    Why::of(p, step.reason, step.strikes.as_slice())
}

// The number that is struck in each square, where it is only one.
fn only_number(strikes: &[Strike]) -> Option<u8> {
    let number = strikes.first()?.values.single()?;
    if strikes.iter().all(|strike| strike.values == one(number)) {
        Some(number)
    } else {
        None
    }
}

// The counts of towers that are shown with a number in any of the squares.
fn counts_with(strikes: &[Strike], number: u8) -> NumberSet {
    let mut counts = NumberSet::empty();
    for strike in strikes {
        if let Some(shows) = strike.shows {
            if number < 10 {
                counts = counts.union(shows[number as usize]);
            }
        }
    }
    counts
}

// The sentence of several told steps.
fn say_together<P: StepNames>(
    text: &mut Writing,
    p: &P,
    group: &[ToldStep],
    why: Why,
) -> fmt::Result {
    let size = p.size();
    match why {
        Why::Greater(number) => {
            let squares = squares_in(size, group, Joined::And);
            write!(text, "{squares} are each greater than a neighbour")?;
            say_neighbour(text, group, number)
        }
        Why::Less(number) => {
            let squares = squares_in(size, group, Joined::And);
            write!(text, "{squares} are each less than a neighbour")?;
            say_neighbour(text, group, number)
        }
        Why::Seen(number, showing) => {
            say_clues(text, p, group)?;
            let article = article_of(number);
            let squares = squares_in(size, group, Joined::Or);
            let beside = if showing == Showing::More {
                "more"
            } else {
                "fewer"
            };
            write!(
                text,
                ": with {article}{number} in {squares} {beside} towers would be seen."
            )
        }
    }
}

// Says what is left of each neighbour, where that is needed; and what is struck.
fn say_neighbour(text: &mut Writing, group: &[ToldStep], number: u8) -> fmt::Result {
    let mut end = None;
    for step in group {
        end = weaker(end, step.end);
    }
    match end {
        Some(SignEnd::AtLeast(least)) => write!(text, " that is at least {least}")?,
        Some(SignEnd::AtMost(most)) => write!(text, " that is at most {most}")?,
        None => {}
    }
    write!(text, ": they are not {number}.")
}

// The clues of told steps.
fn say_clues<P: StepNames>(text: &mut Writing, p: &P, group: &[ToldStep]) -> fmt::Result {
    write!(text, "Clues ")?;
    for at in 0..group.len() {
        if let Reason::Bound { place } = group[at].reason {
            write!(text, "{}", edge_clue(p, place))?;
        }
        write!(text, "{}", between(group.len() - 1 - at, Joined::And))?;
    }
    Ok(())
}

// The squares in which told steps strike.
fn squares_in(size: Size, group: &[ToldStep], joined: Joined) -> Squares {
    let mut squares = List::new(joined);
    for step in group {
        for strike in step.strikes.as_slice() {
            squares.add(Square::of(size, strike.cell as usize));
        }
    }
    squares
}
