//! The squares of a clue's line that have to be known: with them the struck numbers show too many or too few.

use crate::clue_sentences::Knowing;
use crate::facts::{Fact, Facts, facts_of};
use crate::left::one;
use crate::names::{EdgeClue, Joined, List, Square, Squares, between, numbers};
use crate::showing::ShownStrike;
use crate::told::TowerPlace;
use crate::writing::Writing;
use arrayvec::ArrayVec;
use line_steps::view_cell;
use number_sets::NumberSet;
use shown_counts::ClueCounts;
use std::fmt::{self, Write};

// How many squares are named at most with all that is left of them, and how many numbers are left of those of them that are open.
const MOST_SQUARES: u32 = 3;

const MOST_NUMBERS: u32 = 8;

// How many squares are named at most with facts beside them; one counts as often as it is named.
const MOST_NAMED: u32 = 7;

/// The places of the line whose numbers are enough: with anything in the other squares as much would be seen, number by number. Where they are
/// open and not few, it is the facts of open squares that are added, and places with one number.
pub(crate) fn needed_places(
    line: &ClueCounts,
    shown: &[ShownStrike],
    clue: u8,
    facts: &mut Facts,
) -> NumberSet {
    let known = without_squares(line, shown, clue, true);
    let places = known_places(&without_squares(&known, shown, clue, false));
    if are_few(line, places) || places.is_subset(filled_places(line)) {
        return places;
    }
    let less = without_squares(&without_numbers(&known, shown, clue), shown, clue, false);
    *facts = facts_of(line, &less);
    filled_places(&less)
}

/// Whether so many places and those of facts are read more easily than what is in the line.
pub(crate) fn are_read(knowing: Knowing, places: NumberSet, facts: &[Fact]) -> bool {
    let mut named = places.len();
    for fact in facts {
        named = named.saturating_add(fact.places.len());
    }
    match knowing {
        Knowing::Alone => true,
        Knowing::Stands if facts.is_empty() => named <= MOST_SQUARES,
        _ => named <= MOST_NAMED,
    }
}

// The places of which something is known.
fn known_places(line: &ClueCounts) -> NumberSet {
    let width = line.width();
    let mut places = NumberSet::empty();
    for index in 0..width {
        if line.may(index) != NumberSet::up_to(width) {
            places = places.union(NumberSet::one(index));
        }
    }
    places
}

// The places with one number.
fn filled_places(line: &ClueCounts) -> NumberSet {
    let mut places = NumberSet::empty();
    for index in 0..line.width() {
        if line.may(index).is_single() {
            places = places.union(NumberSet::one(index));
        }
    }
    places
}

// The line with anything in the squares on which nothing depends, of the open ones or of those with one number.
fn without_squares(
    line: &ClueCounts,
    shown: &[ShownStrike],
    clue: u8,
    is_open: bool,
) -> ClueCounts {
    let width = line.width();
    let mut known = *line;
    for from_end in 0..width {
        let index = width - 1 - from_end;
        if line.may(index).is_single() != is_open {
            known = knowing_less(&known, shown, clue, index, NumberSet::up_to(width));
        }
    }
    known
}

// The line with each number in the open squares that may as well be there.
fn without_numbers(line: &ClueCounts, shown: &[ShownStrike], clue: u8) -> ClueCounts {
    let width = line.width();
    let mut known = *line;
    for number in 1..width + 1 {
        for from_end in 0..width {
            let index = width - 1 - from_end;
            if !line.may(index).is_single() {
                known = knowing_less(&known, shown, clue, index, NumberSet::one(number));
            }
        }
    }
    known
}

// The line with more numbers at a place, if as much is shown by it.
fn knowing_less(
    line: &ClueCounts,
    shown: &[ShownStrike],
    clue: u8,
    index: u8,
    more: NumberSet,
) -> ClueCounts {
    if index >= line.width() {
        return *line;
    }
    let less = line.with(index, line.may(index).union(more));
    let is_needed = !more.is_subset(line.may(index));
    if is_needed && shown.iter().all(|strike| strike.is_shown_by(&less, clue)) {
        less
    } else {
        *line
    }
}

fn are_few(line: &ClueCounts, places: NumberSet) -> bool {
    let mut left = 0u32;
    for index in 0..line.width() {
        let may = line.may(index);
        if places.has(index) && !may.is_single() {
            left = left.saturating_add(may.len());
        }
    }
    places.len() <= MOST_SQUARES && left <= MOST_NUMBERS
}

/// The squares at some places of a line and the numbers that are left there, those with one number before the others, and those that have the
/// same ones together, before so many other facts.
pub(crate) fn say_known(
    text: &mut Writing,
    at: &EdgeClue,
    line: &ClueCounts,
    places: NumberSet,
    facts: usize,
) -> fmt::Result {
    let firsts = first_places(line, places);
    let firsts = firsts.as_slice();
    for k in 0..firsts.len() {
        let may = if firsts[k] < line.width() {
            line.may(firsts[k])
        } else {
            NumberSet::empty()
        };
        let alike = places_alike(line, places, may);
        let squares = squares_from(at, alike, Joined::And);
        let are = if alike.is_single() { "is" } else { "are" };
        let rest = facts.saturating_add(firsts.len() - 1 - k);
        let behind = between(rest, Joined::And);
        write!(text, "{squares} {are} {}{behind}", numbers(may, Joined::Or))?;
    }
    Ok(())
}

/// Facts of a line, one after another.
pub(crate) fn say_facts(text: &mut Writing, at: &EdgeClue, facts: &[Fact]) -> fmt::Result {
    for k in 0..facts.len() {
        let fact = &facts[k];
        let told = numbers(fact.numbers, Joined::Or);
        let behind = between(facts.len() - 1 - k, Joined::And);
        let are = if fact.places.is_single() { "is" } else { "are" };
        let squares = squares_from(at, fact.places, Joined::And);
        match fact.place {
            TowerPlace::There => write!(text, "{squares} {are} {told}{behind}")?,
            TowerPlace::Elsewhere => write!(text, "{squares} {are} not {told}{behind}")?,
            TowerPlace::Only | TowerPlace::Either => {
                let squares = squares_from(at, fact.places, Joined::Or);
                write!(text, "only {squares} can be {told}{behind}")?;
            }
        }
    }
    Ok(())
}

/// The places of a line at which all of these numbers are left.
pub(crate) fn places_of(line: &ClueCounts, numbers: NumberSet) -> NumberSet {
    let mut places = NumberSet::empty();
    for index in 0..line.width() {
        if numbers.is_subset(line.may(index)) {
            places = places.union(one(index));
        }
    }
    places
}

// The first of those places at which the same numbers are left, for each set of numbers.
fn first_places(line: &ClueCounts, places: NumberSet) -> ArrayVec<u8, 9> {
    let mut firsts = ArrayVec::new();
    let mut rest = places;
    for is_open in [false, true] {
        for index in 0..line.width() {
            if rest.has(index) && line.may(index).is_single() != is_open {
                rest = rest.difference(places_alike(line, rest, line.may(index)));
                let _fits = firsts.try_push(index);
            }
        }
    }
    firsts
}

// Those of some places at which exactly these numbers are left.
fn places_alike(line: &ClueCounts, places: NumberSet, may: NumberSet) -> NumberSet {
    let mut alike = NumberSet::empty();
    for index in 0..line.width() {
        if places.has(index) && line.may(index) == may {
            alike = alike.union(NumberSet::one(index));
        }
    }
    alike
}

/// The squares at some places of a clue's line, in reading order, by name.
pub(crate) fn squares_from(at: &EdgeClue, places: NumberSet, joined: Joined) -> Squares {
    let mut squares = List::new(joined);
    for cell in cells_from(at, places).as_slice() {
        squares.add(Square::of(at.size, *cell as usize));
    }
    squares
}

/// The squares at some places of a clue's line, in reading order.
pub(crate) fn cells_from(at: &EdgeClue, places: NumberSet) -> ArrayVec<u8, 9> {
    let width = at.size.get();
    let mut cells = ArrayVec::new();
    if at.place >= 4 * width as usize {
        return cells;
    }
    let is_backwards = at.place / width as usize % 2 == 1;
    for from_start in 0..width {
        let index = if is_backwards {
            width - 1 - from_start
        } else {
            from_start
        };
        if places.has(index) {
            let cell = view_cell(at.size, at.place as u8, index as usize);
            let _fits = cells.try_push(cell as u8);
        }
    }
    cells
}
