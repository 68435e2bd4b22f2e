//! Whether given values are a filling of a line.

ghost use Rattle.std.specs.Prelude.{◌≡◌, ◌<◌, ◌≤◌, ◌↔◌, length, IsTrue};
ghost use Rattle.tower_lines.specs.LineFillings.{IsStart, IsFilling};
ghost use Rattle.tower_lines.specs.Inner.LineMasks.{can_be};

use crate::towers_seen::seen;
use number_sets::NumberSet;

/// Whether the values are a filling of the line.
pub fn is_filling(sets: &[NumberSet], clue: u8, line: &[u8]) -> bool
    requires short { length sets.now ≤ 9 }
    requires long { length line.now ≡ length sets.now }
    ensures { IsTrue result ↔ IsFilling sets.now clue line.now }
{
    is_start(sets, line) && seen(line) == usize::from(clue)
}

// Whether each value is a candidate of its square, from 1 to the line's length, and none is there twice.
fn is_start(sets: &[NumberSet], line: &[u8]) -> bool
    requires short { length sets.now ≤ 9 }
    requires long { length line.now ≡ length sets.now }
    ensures { IsTrue result ↔ IsStart sets.now line.now }
{
    let mut used = NumberSet::empty();
    for place in 0..line.len() {
        let value = line[place];
        if !can_be(sets, place, used, value) {
            return false;
        }
        used = used.union(NumberSet::one(value));
    }
    true
}

// Whether the value can stand at the place, where those of `used` are taken.
fn can_be(sets: &[NumberSet], place: usize, used: NumberSet, value: u8) -> bool
    requires short { length sets.now ≤ 9 }
    requires inside { place < length sets.now }
    ensures { result ≡ can_be sets.now place used value }
{
    1 <= value && usize::from(value) <= sets.len() && sets[place].has(value) && !used.has(value)
}
