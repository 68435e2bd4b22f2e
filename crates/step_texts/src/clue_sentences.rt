//! The sentence of a clue: what would be seen with the numbers that it strikes.
ghost use Rattle.std.specs.Prelude.{◌<◌, length};

use crate::facts::{Fact, Facts};
use crate::known_squares::{
    are_read, cells_from, needed_places, say_facts, say_known, squares_from,
};
use crate::names::{EdgeClue, GridLine, Joined, List, Losses, Square, Squares, numbers};
use crate::sentences::Look;
use crate::showing::{Showing, ShownStrike, shown_strikes};
use crate::told::{Seen, Strike, TowerPlace, TowerSquare};
use crate::writing::Writing;
use arrayvec::ArrayVec;
use number_sets::NumberSet;
use shown_counts::ClueCounts;
use std::alloc::{AllocError, Global};
use std::fmt::{self, Write};

/// The knowledge of the other squares of a clue's line, when it is looked at.
#[derive(Clone, Copy)]
pub(crate) enum Knowing {
    /// Nothing.
    Alone,
    /// The numbers that stand there.
    Stands,
    /// The numbers that are left there.
    Marks,
}

/// All that is told of a clue that isn't enough alone.
#[derive(Drop)]
pub(crate) struct Shown {
    at: EdgeClue,
    strikes: ArrayVec<ShownStrike, 9>,
    // The places of the line whose numbers are told, where they are few.
    places: Option<NumberSet>,
    facts: Facts,
}

impl Shown {
    /// All that a look tells of its clue; nothing where the clue is enough alone.
    // The struck numbers and what is seen with them are on the stack only here and where they are told.
    #[inline(never)]
    pub(crate) fn of(
        at: &EdgeClue,
        knowing: Knowing,
        line: &ClueCounts,
        look: &Look,
    ) -> Option<Shown> {
        let is_alone = matches!(knowing, Knowing::Alone);
        if is_alone && (at.clue == 1 || at.clue == at.size.get()) {
            return None;
        }
        let mut strikes = shown_strikes(line, look.strikes, at.clue);
        let mut facts = ArrayVec::new();
        let mut places = match knowing {
            Knowing::Alone => Some(NumberSet::empty()),
            _ if look.is_of_many || !strikes.iter().all(|strike| strike.is_clear()) => None,
            _ => Some(needed_places(line, strikes.as_slice(), at.clue, &mut facts)),
        };
        if let Some(left) = look.left {
            for strike in strikes.as_mut_slice() {
                strike.settle(left, &mut facts);
            }
        }
        places = places.filter(|places| are_read(knowing, *places, facts.as_slice()));
        if places.is_none() && matches!(knowing, Knowing::Marks) {
            facts = ArrayVec::new();
        }
        Some(Shown {
            at: *at,
            strikes,
            places,
            facts,
        })
    }

    /// The places of the line whose numbers are told.
    pub(crate) fn named(&self) -> NumberSet {
        self.places.unwrap_or(NumberSet::empty())
    }

    /// The squares of which it is told whether a tall tower is there: where its place is settled, and where both cases are told.
    pub(crate) fn towers(&self, alloc: Global) -> Result<Vec<TowerSquare>, AllocError> {
        let mut towers = Vec::new(alloc);
        for fact in self.facts.as_slice() {
            for number in 1..10 {
                if fact.numbers.has(number) {
                    self.add(&mut towers, fact.places, number, fact.place, fact.seen)?;
                }
            }
        }
        for strike in self.strikes.as_slice() {
            for struck in 1..10 {
                if let Showing::Split { number, places } = strike.with(struck) {
                    self.add(&mut towers, places, number, TowerPlace::Either, Seen::Open)?;
                }
            }
        }
        Ok(towers)
    }

    // Adds the squares at some places, of which this is told, but for those of which it is told already.
    fn add(
        &self,
        towers: &mut Vec<TowerSquare>,
        places: NumberSet,
        number: u8,
        place: TowerPlace,
        seen: Seen,
    ) -> Result<(), AllocError> {
        for cell in cells_from(&self.at, places).as_slice() {
            let tower = TowerSquare {
                cell: *cell,
                number,
                place,
                seen,
            };
            if !towers.as_slice().contains(&tower) {
                towers.push(tower)?;
            }
        }
        Ok(())
    }
}

/// Why a clue strikes, by its line as it is looked at, and what it strikes.
pub(crate) fn say_clue(
    text: &mut Writing,
    at: &EdgeClue,
    knowing: Knowing,
    line: &ClueCounts,
    strikes: &[Strike],
    shown: &Option<Shown>,
) -> fmt::Result {
    let size = at.size;
    write!(text, "Clue {at}")?;
    if let Some(shown) = shown {
        return say_shown(text, at, knowing, line, shown);
    }
    let why = if at.clue == 1 {
        "the nearest tower is the tallest"
    } else {
        "all towers are seen and rise"
    };
    write!(text, ": {why}, so {}.", Losses { size, strikes })
}

// Says what has to be known and what would be seen with the struck numbers, together where it is the same.
fn say_shown(
    text: &mut Writing,
    at: &EdgeClue,
    knowing: Knowing,
    line: &ClueCounts,
    told: &Shown,
) -> fmt::Result {
    let shown = told.strikes.as_slice();
    say_knowing(text, at, knowing, line, told.places, told.facts.as_slice())?;
    write!(text, ": ")?;
    for index in 0..shown.len() {
        for number in 1..10 {
            say_from(text, at, shown, index, number)?;
        }
    }
    write!(text, ".")
}

// Says what has to be known of the other squares: what those at a few places have, and where numbers are and
// where not, or otherwise what stands or is left in the line.
fn say_knowing(
    text: &mut Writing,
    at: &EdgeClue,
    knowing: Knowing,
    line: &ClueCounts,
    places: Option<NumberSet>,
    facts: &[Fact],
) -> fmt::Result {
    let Some(places) = places else {
        let words = match knowing {
            Knowing::Stands if facts.is_empty() => "with the numbers in",
            _ => "by what is left in",
        };
        return write!(text, ", {words} {}", GridLine::from(at.size, at.place));
    };
    if places.is_empty() && facts.is_empty() {
        return Ok(());
    }
    write!(text, ", where ")?;
    say_known(text, at, line, places, facts.len())?;
    say_facts(text, at, facts)
}

// Says what would be seen with a number in the square of a strike and with all others that are alike, where
// it is the first of them.
fn say_from(
    text: &mut Writing,
    at: &EdgeClue,
    shown: &[ShownStrike],
    index: usize,
    number: u8,
) -> fmt::Result
    requires index { index < length shown.now }
    requires number { number < 16 }
{
    let strike = &shown[index];
    if !strike.values.has(number) {
        return Ok(());
    }
    let showing = strike.with(number);
    let is_told = shown[..index]
        .iter()
        .any(|before| !before.numbers_with(&showing).is_empty());
    if strike.numbers_with(&showing).least() != Some(number) || is_told {
        return Ok(());
    }
    if index > 0 || strike.values.least() != Some(number) {
        write!(text, "; ")?;
    }
    say_showing(text, at, &showing, &shown[index..])
}

// Says what would be seen, with which numbers in which squares.
fn say_showing(
    text: &mut Writing,
    at: &EdgeClue,
    showing: &Showing,
    shown: &[ShownStrike],
) -> fmt::Result {
    let clue = at.clue;
    if *showing == Showing::Never {
        return say_places(text, at, showing, shown, "no order has ", ", nor ");
    }
    say_places(text, at, showing, shown, "with ", " or with ")?;
    let towers = if clue == 1 { "tower" } else { "towers" };
    match *showing {
        Showing::Never => Ok(()),
        Showing::More => write!(text, " more than {clue} {towers} would be seen"),
        Showing::Fewer => write!(text, " fewer than {clue} {towers} would be seen"),
        Showing::Split { number, places } => {
            let squares = squares_from(at, places, Joined::Or);
            write!(
                text,
                " fewer than {clue} {towers} would be seen if {number} is in {squares}"
            )?;
            write!(text, ", and more if it is elsewhere")
        }
        Showing::Both(counts) => {
            let counts = numbers(counts, Joined::Or);
            write!(text, " it would be {counts} towers, never {clue}")
        }
    }
}

// The numbers of the strikes with which this would be seen, each set of them with its squares, after a word before the first and one before
// the others.
fn say_places(
    text: &mut Writing,
    at: &EdgeClue,
    showing: &Showing,
    shown: &[ShownStrike],
    first: &str,
    further: &str,
) -> fmt::Result {
    for index in 0..shown.len() {
        let set = shown[index].numbers_with(showing);
        let is_told = shown[..index]
            .iter()
            .any(|before| before.numbers_with(showing) == set);
        if !set.is_empty() && !is_told {
            let word = if index == 0 { first } else { further };
            let article = set.single().map_or("", article_of);
            let squares = squares_with(at, showing, shown, set);
            write!(
                text,
                "{word}{article}{} in {squares}",
                numbers(set, Joined::Or)
            )?;
        }
    }
    Ok(())
}

/// The article before a number, with a space behind it.
pub(crate) fn article_of(number: u8) -> &'static str {
    if number == 8 { "an " } else { "a " }
}

// The squares of the strikes in which this would be seen with exactly these numbers.
fn squares_with(
    at: &EdgeClue,
    showing: &Showing,
    shown: &[ShownStrike],
    set: NumberSet,
) -> Squares {
    let mut squares = List::new(Joined::Or);
    for strike in shown {
        if strike.numbers_with(showing) == set {
            squares.add(Square::of(at.size, strike.cell as usize));
        }
    }
    squares
}
