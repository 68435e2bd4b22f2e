//! The towers that a clue's line would show with the struck numbers, each in its square.
ghost use Rattle.std.specs.Prelude.{◌<◌};

use crate::facts::{Fact, Facts, add_fact};
use crate::known_squares::places_of;
use crate::left::one;
use crate::told::{Seen, Strike, TowerPlace};
use arrayvec::ArrayVec;
use number_sets::NumberSet;
use shown_counts::ClueCounts;

/// The towers that would be seen, beside a clue.
#[derive(Clone, Copy, PartialEq, Eq, Debug)]
pub(crate) enum Showing {
    /// Nothing: no order has the number there.
    Never,
    /// More towers than the clue says, in each order.
    More,
    /// Fewer, in each order.
    Fewer,
    /// Fewer where this number is at one of these places of the line, and more where it is elsewhere.
    Split { number: u8, places: NumberSet },
    /// More in some orders and fewer in others: these counts.
    Both(NumberSet),
}

impl Showing {
    /// The towers that would be seen with a number at an index, by the counts that the line shows with it.
    fn of(line: &ClueCounts, index: u8, number: u8, counts: NumberSet, clue: u8) -> Showing
        requires index { index < line.now.size }
        requires number { number < 16 }
    {
        let beside = Showing::beside(counts, clue);
        match beside {
            Showing::Both(_) => split(line, index, number, clue).unwrap_or(beside),
            _ => beside,
        }
    }

    /// Whether a line shows this with a number at an index.
    fn is_shown(&self, line: &ClueCounts, index: u8, number: u8, clue: u8) -> bool
        requires index { index < line.now.size }
        requires number { number < 16 }
    {
        let beside = Showing::beside(line.counts(index, number), clue);
        match self {
            Showing::Split {
                number: tower,
                places,
            } if *tower < 16 && matches!(beside, Showing::Both(_)) => {
                let with = line.with(index, NumberSet::one(number));
                fewer_by(&with, *tower, clue) == Some(*places)
            }
            _ => *self == beside,
        }
    }

    /// The side of a clue on which counts are: more, fewer, some of both, or none.
    pub(crate) fn beside(counts: NumberSet, clue: u8) -> Showing {
        let (Some(least), Some(greatest)) = (counts.least(), counts.greatest()) else {
            return Showing::Never;
        };
        if clue < least {
            Showing::More
        } else if greatest < clue {
            Showing::Fewer
        } else {
            Showing::Both(counts)
        }
    }
}

// The towers that are seen by where another one is: the tallest with which, in each square, they are always more or always fewer, of those that
// don't stand yet.
fn split(line: &ClueCounts, index: u8, number: u8, clue: u8) -> Option<Showing>
    requires index { index < line.now.size }
    requires number { number < 16 }
{
    let open = open_numbers(line, number);
    let with = line.with(index, NumberSet::one(number));
    for from_top in 0..line.width() {
        let tower = line.width() - from_top;
        if open.has(tower)
            && let Some(places) = fewer_by(&with, tower, clue)
        {
            return Some(Showing::Split {
                number: tower,
                places,
            });
        }
    }
    None
}

// The places of a tower with which fewer are seen, if at each place they are always more or always fewer.
fn fewer_by(line: &ClueCounts, tower: u8, clue: u8) -> Option<NumberSet>
    requires { tower < 16 }
{
    let mut places = NumberSet::empty();
    for index in 0..line.width() {
        match Showing::beside(line.counts(index, tower), clue) {
            Showing::Fewer => places = places.union(NumberSet::one(index)),
            Showing::Both(_) => return None,
            _ => {}
        }
    }
    Some(places)
}

// The numbers but this one that no square of the line has alone.
fn open_numbers(line: &ClueCounts, number: u8) -> NumberSet
    requires { number < 16 }
{
    let width = line.width();
    let mut open = NumberSet::up_to(width).difference(NumberSet::one(number));
    for index in 0..width {
        let may = line.may(index);
        if may.is_single() {
            open = open.difference(may);
        }
    }
    open
}

// Of two cases the one that is possible by what is left of the line, with a number at an index, and the fact that says so; of both only where
// they are possible.
fn possible_case(showing: Showing, left: &ClueCounts, index: u8) -> (Showing, Fact) {
    let Showing::Split { number, places } = showing else {
        return (showing, Fact::default());
    };
    let tower = one(number);
    let open = places_of(left, tower);
    let others = open.difference(one(index));
    let few = others.intersection(places);
    let stands = alone_at(left, tower).difference(one(index));
    if !stands.is_empty() {
        let is_more = stands.intersection(places).is_empty();
        return one_case(is_more, tower, TowerPlace::There, stands);
    }
    if few.is_empty() {
        return one_case(true, tower, TowerPlace::Elsewhere, unfilled(left, places));
    }
    if !others.is_subset(places) {
        let both = Showing::Split {
            number,
            places: few,
        };
        return (both, Fact::default());
    }
    if others == open {
        return one_case(false, tower, TowerPlace::Only, open);
    }
    let lacks = all_places(left).difference(one(index)).difference(places);
    one_case(false, tower, TowerPlace::Elsewhere, unfilled(left, lacks))
}

// The one case that is possible, and the fact that says so.
fn one_case(
    is_more: bool,
    numbers: NumberSet,
    place: TowerPlace,
    places: NumberSet,
) -> (Showing, Fact) {
    let (showing, seen) = if is_more {
        (Showing::More, Seen::More)
    } else {
        (Showing::Fewer, Seen::Fewer)
    };
    let fact = Fact {
        numbers,
        place,
        places,
        seen,
    };
    (showing, fact)
}

// Those of some places of a line that several numbers are left for; all of them, if it is none.
fn unfilled(line: &ClueCounts, places: NumberSet) -> NumberSet {
    let mut open = NumberSet::empty();
    for index in 0..line.width() {
        if places.has(index) && !line.may(index).is_single() {
            open = open.union(one(index));
        }
    }
    if open.is_empty() { places } else { open }
}

// All places of a line.
fn all_places(line: &ClueCounts) -> NumberSet {
    places_of(line, NumberSet::empty())
}

// The places of a line at which just these numbers are left.
fn alone_at(line: &ClueCounts, numbers: NumberSet) -> NumberSet {
    let mut places = NumberSet::empty();
    for index in 0..line.width() {
        if line.may(index) == numbers {
            places = places.union(one(index));
        }
    }
    places
}

/// The numbers that are struck in a square of a clue's line, and the towers that would be seen with each.
#[derive(Clone, Copy, Debug)]
pub(crate) struct ShownStrike {
    pub(crate) cell: u8,
    pub(crate) values: NumberSet,
    // by the struck number
    showings: [Showing; 10],
}

impl Default for ShownStrike {
    fn default() -> ShownStrike {
        ShownStrike {
            cell: 0,
            values: NumberSet::empty(),
            showings: [Showing::Never; 10],
        }
    }
}

impl ShownStrike {
    /// The towers that would be seen with a number in the square.
    pub(crate) fn with(&self, number: u8) -> Showing {
        if number < 10 {
            self.showings[number as usize]
        } else {
            Showing::Never
        }
    }

    /// Leaves of two cases the one that what is left of the line lets be, and adds what says so.
    pub(crate) fn settle(&mut self, left: &ClueCounts, facts: &mut Facts) {
        let Some(index) = left.index_of(self.cell) else {
            return;
        };
        for number in 1..10 {
            let (showing, fact) = possible_case(self.showings[number], left, index);
            self.showings[number] = showing;
            add_fact(facts, fact);
        }
    }

    // Whether counts are told with one of the numbers.
    fn has_counts(&self) -> bool {
        for number in 1..10 {
            if matches!(self.showings[number], Showing::Both(_)) {
                return true;
            }
        }
        false
    }

    // Tells counts where a tower was told of.
    fn tell_counts(&mut self, line: &ClueCounts, clue: u8) {
        let Some(index) = line.index_of(self.cell) else {
            return;
        };
        for number in 1..10 {
            if matches!(self.with(number), Showing::Split { .. }) {
                let counts = line.counts(index, number);
                self.showings[number as usize] = Showing::beside(counts, clue);
            }
        }
    }

    /// The struck numbers with which this would be seen.
    pub(crate) fn numbers_with(&self, showing: &Showing) -> NumberSet {
        let mut numbers = NumberSet::empty();
        for number in 1..10 {
            if self.values.has(number) && self.with(number) == *showing {
                numbers = numbers.union(NumberSet::one(number));
            }
        }
        numbers
    }

    /// Whether with each struck number it is known whether fewer or more are seen.
    pub(crate) fn is_clear(&self) -> bool {
        for number in 1..10 {
            let is_open = matches!(self.with(number), Showing::Never | Showing::Both(_));
            if self.values.has(number) && is_open {
                return false;
            }
        }
        true
    }

    /// Whether a line shows the same with each of the struck numbers.
    pub(crate) fn is_shown_by(&self, line: &ClueCounts, clue: u8) -> bool {
        let Some(index) = line.index_of(self.cell) else {
            return true;
        };
        for number in 1..10 {
            if self.values.has(number) {
                if !self.with(number).is_shown(line, index, number, clue) {
                    return false;
                }
            }
        }
        true
    }
}

/// The towers that would be seen with all struck numbers, square by square. If no tower decides with one of them, none is told of the others.
pub(crate) fn shown_strikes(
    line: &ClueCounts,
    strikes: &[Strike],
    clue: u8,
) -> ArrayVec<ShownStrike, 9> {
    let mut shown: ArrayVec<ShownStrike, 9> = ArrayVec::new();
    for strike in strikes {
        let showings = showings_with(line, strike, clue);
        let _fits = shown.try_push(ShownStrike {
            cell: strike.cell,
            values: strike.values,
            showings,
        });
    }
    if shown.iter().any(|strike| strike.has_counts()) {
        for strike in shown.as_mut_slice() {
            strike.tell_counts(line, clue);
        }
    }
    shown
}

// The towers that would be seen with each number of a strike.
fn showings_with(line: &ClueCounts, strike: &Strike, clue: u8) -> [Showing; 10] {
    let mut showings = [Showing::Never; 10];
    if let (Some(index), Some(shows)) = (line.index_of(strike.cell), strike.shows) {
        for number in 1..10 {
            if strike.values.has(number) {
                let counts = shows[number as usize];
                showings[number as usize] = Showing::of(line, index, number, counts, clue);
            }
        }
    }
    showings
}
