//! Headings: the names of steps, by which a learner meets them again.
ghost use Rattle.std.specs.Prelude.{◌≡◌, ◌<◌, slice_index};
ghost use Rattle.step_texts.specs.declared.headings.Beside.TheVariants.{Below, Above};
ghost use Rattle.step_texts.specs.Headings.{are_beside, beside_name, clue_at, clue_name, numbers_pass, shows_pass, step_name, strikes_pass};

use crate::step_names::StepNames;
use crate::told::{Strike, ToldStep};
use named_steps::Reason;
use number_sets::NumberSet;
use trail_solver::Rules;

/// The name of a told step.
pub fn step_name<P: StepNames>(p: &P, step: &ToldStep) -> &'static str
    ensures { result.now ≡ step_name (P.Rules.puzzle p.now).size (P.edge_clue_of p.now) step.now }
{
    let strikes = step.strikes.as_slice();
    match step.reason {
        Reason::Given { .. } => "A number that a square takes",
        Reason::Peer { .. } => "A number that a square takes",
        Reason::Place { .. } => "The only square for a number",
        Reason::Bound { place } => clue_name(p, place, strikes),
        Reason::Stand { place } => clue_name(p, place, strikes),
        Reason::Clue { place } => clue_name(p, place, strikes),
        Reason::Sign { .. } => "A sign",
        Reason::Set { .. } => "Squares that share numbers",
    }
}

// The name of a step by the clue at a place.
fn clue_name<P: StepNames>(p: &P, place: usize, strikes: &[Strike]) -> &'static str
    ensures { result.now ≡ clue_name (P.Rules.puzzle p.now).size
        (clue_at (P.Rules.puzzle p.now).size (P.edge_clue_of p.now) place) strikes.now }
{
    let size = p.size();
    let clue = clue_at(p, place);
    if clue == 1 {
        "A clue 1"
    } else if clue == size.get() {
        "A clue of the board's size"
    } else {
        beside_name(clue, strikes)
    }
}

/// The clue at a place of the edge; 0 of any other.
pub(crate) fn clue_at<P: StepNames>(p: &P, place: usize) -> u8
    ensures { result ≡ clue_at (P.Rules.puzzle p.now).size (P.edge_clue_of p.now) place }
{
    let size = p.size();
    if place < 4 * size.get() as usize {
        p.edge_clue(place as u8)
    } else {
        0
    }
}

// The name of a step by a clue that isn't enough alone: by the towers that would be seen.
fn beside_name(clue: u8, strikes: &[Strike]) -> &'static str
    ensures { result.now ≡ beside_name clue strikes.now }
{
    if strikes_pass(Beside::Below, clue, strikes) {
        "Too few towers"
    } else if strikes_pass(Beside::Above, clue, strikes) {
        "Too many towers"
    } else if strikes_pass(Beside::Nowhere, clue, strikes) {
        "A number in no order"
    } else {
        "Too few or too many towers"
    }
}

// The side of a clue on which all counts of some are; nowhere if there are none.
#[derive(Clone, Copy)]
pub(crate) enum Beside {
    Below,
    Above,
    Nowhere,
}

// Whether all counts that are told of strikes are there.
fn strikes_pass(beside: Beside, clue: u8, strikes: &[Strike]) -> bool
    ensures { result ≡ strikes_pass (are_beside beside clue) strikes.now }
{
    for strike in strikes {
        if !shows_pass(beside, clue, strike.values, &strike.shows) {
            return false;
        }
    }
    true
}

// Whether all counts that are told with some numbers are there.
fn shows_pass(beside: Beside, clue: u8, values: NumberSet, shows: &Option<[NumberSet; 10]>) -> bool
    ensures { result ≡ shows_pass (are_beside beside clue) values shows.now }
{
    match shows {
        Some(shows) => numbers_pass(beside, clue, values, shows),
        None => true,
    }
}

// Whether all counts are there that are told with some numbers.
fn numbers_pass(beside: Beside, clue: u8, values: NumberSet, shows: &[NumberSet; 10]) -> bool
    ensures { result ≡ numbers_pass (are_beside beside clue) values shows.now }
{
    for number in 1..10usize {
        if values.has(number as u8) && !are_beside(beside, clue, counts_with(shows, number)) {
            return false;
        }
    }
    true
}

// The counts of towers that are shown with a number.
fn counts_with(shows: &[NumberSet; 10], number: usize) -> NumberSet
    requires { number < 10 }
    ensures { result ≡ slice_index shows.now number }
{
    shows[number]
}

// Whether all counts of some are there.
fn are_beside(beside: Beside, clue: u8, counts: NumberSet) -> bool
    ensures { result ≡ are_beside beside clue counts }
{
    match beside {
        Beside::Below => are_below(clue, counts),
        Beside::Above => are_above(clue, counts),
        Beside::Nowhere => counts.is_empty(),
    }
}

// Whether there are counts, and all are below a clue.
fn are_below(clue: u8, counts: NumberSet) -> bool
    ensures { result ≡ are_beside Below clue counts }
{
    let bits = u32::from(counts.bits());
    if bits == 0 {
        return false;
    }
    if clue >= 16 {
        return true;
    }
    bits < 1 << clue
}

// Whether there are counts, and all are above a clue.
fn are_above(clue: u8, counts: NumberSet) -> bool
    ensures { result ≡ are_beside Above clue counts }
{
    let bits = u32::from(counts.bits());
    if bits == 0 {
        return false;
    }
    if clue >= 16 {
        return false;
    }
    bits % (1 << (clue + 1)) == 0
}
