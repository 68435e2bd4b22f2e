//! The steps of a hint, written as objects: where each looks, what it strikes, and its sentence.

ghost use Rattle.std.specs.Prelude.{◌≡◌, ◌*◌, ◌<◌, ◌∷◌, [], codes, slice_index, OnOk, IfSome};
ghost use Rattle.number_sets.specs.Sets.{has_number};
ghost use Rattle.json_replies.specs.Boards.{when, mark_set_data};
ghost use Rattle.json_replies.specs.Texts.{list_data};
ghost use Rattle.json_replies.specs.Steps.{edge_clue_data, greater_data, known_data, least_data, less_data, most_data, place_word, seen_data, shows_data, strike_data, step_data, steps_data, tower_data};
ghost use Rattle.json_replies.specs.WrittenData.{Follow};
ghost use Rattle.json_replies.specs.Inner.WrittenData.{count_or_null, MembersFollow};

use crate::reason_parts::{
    Ends, edge_of, ends_of, line_of, word_of, write_cells_of, write_numbers_of,
};
use crate::written::{
    Each, write_lines, write_null, write_number_at, write_numbers, write_place_at, write_range,
    write_word_at,
};
use json::Writer;
use number_sets::NumberSet;
use std::alloc::{AllocError, Global};
use step_texts::{
    KnownSquare, Seen, SignEnd, StepNames, Strike, ToldStep, TowerPlace, TowerSquare, step_name,
};
use trail_solver::Rules;

/// Writes steps of a hint, in their order.
pub(crate) fn write_steps<P: StepNames>(
    alloc: Global,
    writer: &mut Writer,
    p: &P,
    steps: &[ToldStep],
) -> Result<(), AllocError>
    ensures { OnOk result (Follow (steps_data (P.Rules.puzzle p.now).size (P.edge_clue_of p.now)
        (P.says_greater_of p.now) steps.now ∷ []) writer.old writer.new) }
{
    writer.begin_array()?;
    for step in steps {
        write_step(alloc, writer, p, step)?;
    }
    writer.end_array()?;
    Ok(())
}

// Writes a step as it is told.
fn write_step<P: StepNames>(
    alloc: Global,
    writer: &mut Writer,
    p: &P,
    step: &ToldStep,
) -> Result<(), AllocError>
    ensures { OnOk result (Follow (step_data (P.Rules.puzzle p.now).size (P.edge_clue_of p.now)
        (P.says_greater_of p.now) step.now ∷ []) writer.old writer.new) }
{
    let size = p.size();
    let edge = edge_of(size, step.reason);
    let ends = ends_of(p, step.reason);
    writer.begin_object()?;
    writer.key("cells")?;
    write_cells_of(writer, size, step.reason)?;
    write_number_at(writer, "clue", clue_at(p, edge))?;
    write_number_at(writer, "greater", greater_of(ends))?;
    writer.key("known")?;
    write_known(writer, step.known.as_slice())?;
    write_number_at(writer, "least", least_of(step.end, step.is_alone))?;
    write_number_at(writer, "less", less_of(ends))?;
    write_number_at(writer, "line", line_of(step.reason))?;
    write_number_at(writer, "most", most_of(step.end, step.is_alone))?;
    write_word_at(writer, "name", Some(step_name(p, step)))?;
    writer.key("numbers")?;
    write_numbers_of(writer, step.reason)?;
    write_word_at(writer, "reason", Some(word_of(step.reason)))?;
    writer.key("split")?;
    write_split(writer, step.towers.as_slice())?;
    writer.key("strikes")?;
    write_strikes(writer, step.strikes.as_slice())?;
    writer.key("text")?;
    write_lines(alloc, writer, step.text.as_slice())?;
    write_place_at(writer, size, edge)?;
    writer.end_object()?;
    Ok(())
}

// The clue at a place of the edge.
fn clue_at<P: StepNames>(p: &P, edge: Option<u8>) -> Option<usize>
    requires { IfSome edge (λ place. place < 4 * (P.Rules.puzzle p.now).size) }
    ensures { count_or_null result ≡ edge_clue_data (P.edge_clue_of p.now) edge }
{
    match edge {
        Some(place) => Some(usize::from(p.edge_clue(place))),
        None => None,
    }
}

fn greater_of(ends: Option<Ends>) -> Option<usize>
    ensures { count_or_null result ≡ greater_data ends }
{
    match ends {
        Some(ends) => Some(ends.greater),
        None => None,
    }
}

fn less_of(ends: Option<Ends>) -> Option<usize>
    ensures { count_or_null result ≡ less_data ends }
{
    match ends {
        Some(ends) => Some(ends.less),
        None => None,
    }
}

// The least number that is told of the other square of a sign.
fn least_of(end: Option<SignEnd>, is_alone: bool) -> Option<usize>
    ensures { count_or_null result ≡ least_data is_alone end }
{
    match end {
        Some(SignEnd::AtLeast(number)) => Some(usize::from(number)),
        Some(SignEnd::AtMost(number)) if is_alone => Some(usize::from(number)),
        _ => None,
    }
}

// The greatest number that is told of it.
fn most_of(end: Option<SignEnd>, is_alone: bool) -> Option<usize>
    ensures { count_or_null result ≡ most_data is_alone end }
{
    match end {
        Some(SignEnd::AtMost(number)) => Some(usize::from(number)),
        Some(SignEnd::AtLeast(number)) if is_alone => Some(usize::from(number)),
        _ => None,
    }
}

// Writes the squares that a sentence names as known.
fn write_known(writer: &mut Writer, known: &[KnownSquare]) -> Result<(), AllocError>
    ensures { OnOk result (Follow (list_data known_data known.now ∷ []) writer.old writer.new) }
{
    writer.begin_array()?;
    for square in known {
        write_known_square(writer, square)?;
    }
    writer.end_array()?;
    Ok(())
}

// Writes a square and the numbers that are left of it.
fn write_known_square(writer: &mut Writer, square: &KnownSquare) -> Result<(), AllocError>
    ensures { OnOk result (Follow (known_data square.now ∷ []) writer.old writer.new) }
{
    writer.begin_object()?;
    write_number_at(writer, "cell", Some(usize::from(square.cell)))?;
    writer.key("numbers")?;
    write_numbers(writer, square.numbers)?;
    writer.end_object()?;
    Ok(())
}

// Writes the squares of which a sentence tells whether a tall tower is there.
fn write_split(writer: &mut Writer, towers: &[TowerSquare]) -> Result<(), AllocError>
    ensures { OnOk result (Follow (list_data tower_data towers.now ∷ []) writer.old writer.new) }
{
    writer.begin_array()?;
    for tower in towers {
        write_tower(writer, tower)?;
    }
    writer.end_array()?;
    Ok(())
}

// Writes a square, and whether a tall tower is there.
fn write_tower(writer: &mut Writer, tower: &TowerSquare) -> Result<(), AllocError>
    ensures { OnOk result (Follow (tower_data tower.now ∷ []) writer.old writer.new) }
{
    writer.begin_object()?;
    write_number_at(writer, "cell", Some(usize::from(tower.cell)))?;
    write_number_at(writer, "number", Some(usize::from(tower.number)))?;
    write_word_at(writer, "place", Some(place_word(tower.place)))?;
    write_seen_at(writer, tower.seen)?;
    writer.end_object()?;
    Ok(())
}

// Whether a tall tower is in a square, as a word.
fn place_word(place: TowerPlace) -> &'static str
    ensures { result.now ≡ place_word place }
{
    match place {
        TowerPlace::There => "in",
        TowerPlace::Elsewhere => "not",
        TowerPlace::Only => "only",
        TowerPlace::Either => "either",
    }
}

// Writes the towers that would be seen, as a member.
fn write_seen_at(writer: &mut Writer, seen: Seen) -> Result<(), AllocError>
    ensures { OnOk result (MembersFollow ((codes "seen", seen_data seen) ∷ []) writer.old writer.new) }
{
    match seen {
        Seen::Fewer => write_word_at(writer, "seen", Some("fewer")),
        Seen::More => write_word_at(writer, "seen", Some("more")),
        Seen::Open => write_word_at(writer, "seen", None),
    }
}

// Writes what is struck, square by square.
fn write_strikes(writer: &mut Writer, strikes: &[Strike]) -> Result<(), AllocError>
    ensures { OnOk result (Follow (list_data strike_data strikes.now ∷ []) writer.old writer.new) }
{
    writer.begin_array()?;
    for strike in strikes {
        write_strike(writer, strike)?;
    }
    writer.end_array()?;
    Ok(())
}

// Writes a square, the numbers that are struck there, and what a clue would show with them.
fn write_strike(writer: &mut Writer, strike: &Strike) -> Result<(), AllocError>
    ensures { OnOk result (Follow (strike_data strike.now ∷ []) writer.old writer.new) }
{
    writer.begin_object()?;
    write_number_at(writer, "cell", Some(usize::from(strike.cell)))?;
    writer.key("numbers")?;
    write_numbers(writer, strike.values)?;
    writer.key("shows")?;
    write_shows(writer, strike.values, &strike.shows)?;
    writer.end_object()?;
    Ok(())
}

// Writes the counts of towers that are shown with each of the numbers, or null where no clue strikes.
fn write_shows(
    writer: &mut Writer,
    values: NumberSet,
    shows: &Option<[NumberSet; 10]>,
) -> Result<(), AllocError>
    ensures { OnOk result (Follow (shows_data values shows.now ∷ []) writer.old writer.new) }
{
    match shows {
        None => write_null(writer),
        Some(shows) => write_range(writer, 1, 9, &Counts { values, shows }),
    }
}

// The counts of towers that are shown with each of the numbers.
#[derive(Drop)]
struct Counts<'a> {
    values: NumberSet,
    shows: &'a [NumberSet; 10],
}

impl<'a> Each for Counts<'a> {
    ghost asks = { λ _ n. n < 10 };

    ghost tells = { λ counts n. when (has_number counts.values n) (mark_set_data (slice_index counts.shows.now n)) };

    fn write(&self, writer: &mut Writer, n: usize) -> Result<(), AllocError> {
        write_numbers_when(writer, self.values.has(n as u8), counts_with(self.shows, n))
    }
}

// The counts of towers that are shown with a number.
fn counts_with(shows: &[NumberSet; 10], n: usize) -> NumberSet
    requires { n < 10 }
    ensures { result ≡ slice_index shows.now n }
{
    shows[n]
}

// Writes the numbers of a set, where the test holds.
#[tactic(auto, using(crate::proofs::WrittenData::none_follow))]
fn write_numbers_when(writer: &mut Writer, test: bool, set: NumberSet) -> Result<(), AllocError>
    ensures { OnOk result (Follow (when test (mark_set_data set)) writer.old writer.new) }
{
    if test {
        write_numbers(writer, set)?;
    }
    Ok(())
}
