//! Where numbers are on a clue's line, and where they can't be, as a sentence tells it before its colon.

use crate::known_squares::places_of;
use crate::left::one;
use crate::told::{Seen, TowerPlace};
use arrayvec::ArrayVec;
use number_sets::NumberSet;
use shown_counts::ClueCounts;

/// Whether numbers are at some places of a line.
#[derive(Clone, Copy, Debug)]
pub(crate) struct Fact {
    pub(crate) numbers: NumberSet,
    pub(crate) place: TowerPlace,
    pub(crate) places: NumberSet,
    /// The towers that would be seen for that.
    pub(crate) seen: Seen,
}

impl Default for Fact {
    fn default() -> Fact {
        Fact {
            numbers: NumberSet::empty(),
            place: TowerPlace::There,
            places: NumberSet::empty(),
            seen: Seen::Open,
        }
    }
}

/// All facts of a sentence.
pub(crate) type Facts = ArrayVec<Fact, 9>;

/// Adds a fact to others, with those of the same numbers.
pub(crate) fn add_fact(facts: &mut Facts, fact: Fact) {
    for said in facts.as_mut_slice() {
        if said.place == fact.place && said.numbers == fact.numbers {
            said.places = said.places.union(fact.places);
            said.seen = said.seen.or(fact.seen);
            return;
        }
    }
    if !fact.places.is_empty() {
        let _fits = facts.try_push(fact);
    }
}

/// What a line says of its open squares, as far as another one says it that knows less: number by number, the greatest first, where it is not
/// or where alone it can be, in the fewer squares.
pub(crate) fn facts_of(line: &ClueCounts, less: &ClueCounts) -> Facts {
    let mut facts = ArrayVec::new();
    let width = line.width();
    for from_top in 0..width {
        let number = one(width - from_top);
        let lacks = lacking(less, number);
        let only = places_of(line, number);
        if only.len() < lacks.len() {
            add_fact(&mut facts, needed(number, TowerPlace::Only, only));
        } else {
            add_lacking(&mut facts, number, lacks);
        }
    }
    facts
}

// The open places of a line at which a number can't be.
fn lacking(line: &ClueCounts, number: NumberSet) -> NumberSet {
    let mut places = NumberSet::empty();
    for index in 0..line.width() {
        let may = line.may(index);
        if !may.is_single() && !number.is_subset(may) {
            places = places.union(one(index));
        }
    }
    places
}

// Adds that a number is not at some places, with the numbers that are not at just the same.
fn add_lacking(facts: &mut Facts, number: NumberSet, places: NumberSet) {
    for said in facts.as_mut_slice() {
        if said.place == TowerPlace::Elsewhere && said.places == places {
            said.numbers = said.numbers.union(number);
            return;
        }
    }
    add_fact(facts, needed(number, TowerPlace::Elsewhere, places));
}

// A fact that has to be known for all that would be seen.
fn needed(numbers: NumberSet, place: TowerPlace, places: NumberSet) -> Fact {
    Fact {
        numbers,
        place,
        places,
        seen: Seen::Open,
    }
}
