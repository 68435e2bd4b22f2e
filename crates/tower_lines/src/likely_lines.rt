//! A guess at a filling of a line. Nothing is promised of it, and the caller checks it.
//!
//! Values are placed from the greatest down, so a value is seen where it stands before all that are
//! placed, and of those only the first place matters for what comes. In a mask of places bit k stands
//! for place k. As the first place of a line where nothing is placed, the bit past its last one counts.

ghost use Rattle.std.specs.Prelude.{◌≤◌, length};

use number_sets::NumberSet;

/// For each value the places where it can stand.
type Places = [u16; 10];

/// For each count of towers the first places from which the values that are left can show so many more.
type Starts = [u16; 10];

/// Values for the squares of a line, from the clue on, and then zeros.
///
/// They are meant to be a filling where there is one and each square has one candidate or all.
pub fn likely_line(sets: &[NumberSet], clue: u8) -> [u8; 9]
    requires { length sets.now ≤ 9 }
{
    let places = places_of(sets);
    let starts = starts_of(&places, sets.len());
    let mut line = [0; 9];
    let mut to_show = usize::from(clue);
    let mut first = 1 << sets.len();
    let mut taken = 0;
    for lower in (0..sets.len()).rev() {
        let open = places[lower + 1] & !taken;
        let hidden = open & !before(first);
        let place = if hidden != 0 && starts_with(&starts[lower], to_show) & first != 0 {
            lowest(hidden)
        } else {
            to_show = to_show.wrapping_sub(1);
            first = lowest(open & before(first) & starts_with(&starts[lower], to_show));
            first
        };
        taken |= place;
        put(&mut line, place, lower as u8 + 1);
    }
    line
}

// For each value the squares with it as their only candidate, or if there are none those with several.
fn places_of(sets: &[NumberSet]) -> Places
    requires { length sets.now ≤ 9 }
{
    let mut places = [0; 10];
    let mut open = 0;
    for place in 0..sets.len() {
        let bit = 1 << place;
        match sets[place].single() {
            Some(value) if value < 10 => places[usize::from(value)] |= bit,
            _ => open |= bit,
        }
    }
    places.map(|own| if own == 0 { open } else { own })
}

// For each n up to the width the first places from which the values 1 to n can go on, by how many these show.
fn starts_of(places: &Places, width: usize) -> [Starts; 10]
    requires { width ≤ 9 }
{
    let mut starts = [[0; 10]; 10];
    starts[0][0] = u16::MAX;
    // Of the values that share their squares, the lowest is hidden by a first place up to the first
    // of these squares, the next by one up to the second, and so on: the higher ones take the others.
    let mut room = u16::MAX;
    for lower in 0..width {
        let own = places[lower + 1];
        let last = lowest(own & room);
        room &= !last;
        starts[lower + 1] = starts_before(&starts[lower], own, up_to(last));
    }
    starts
}

// The first places that a value and those below it can go on from: by those in `hidden` the value can
// be hidden, and by each past one of its own places it can be seen.
fn starts_before(starts: &Starts, own: u16, hidden: u16) -> Starts {
    let mut before = [0; 10];
    before[0] = starts[0] & hidden;
    for count in 1..10 {
        before[count] = starts[count] & hidden | !up_to(starts[count - 1] & own);
    }
    before
}

// The first places from which the values can show the count.
fn starts_with(starts: &Starts, count: usize) -> u16 {
    if count < 10 { starts[count] } else { 0 }
}

// Puts a value at the place of the mask, or nowhere where the mask has none in the line.
fn put(line: &mut [u8; 9], place: u16, value: u8) {
    let place = place.trailing_zeros() as usize;
    if place < 9 {
        line[place] = value;
    }
}

// The nearest place of a mask.
fn lowest(mask: u16) -> u16 {
    mask & mask.wrapping_neg()
}

// The places up to the nearest of a mask, or all for none.
fn up_to(mask: u16) -> u16 {
    mask ^ mask.wrapping_sub(1)
}

// The places before the nearest of a mask.
fn before(mask: u16) -> u16 {
    lowest(mask).wrapping_sub(1)
}
