//! How many places each value has in a line, as far as they are few.

use number_sets::NumberSet;

/// The values that have at least so many places: five sets, for one place to five.
#[derive(Clone, Copy)]
pub(crate) struct PlaceCounts {
    one: NumberSet,
    two: NumberSet,
    three: NumberSet,
    four: NumberSet,
    five: NumberSet,
}

impl PlaceCounts {
    /// No value has a place.
    pub fn none() -> PlaceCounts {
        PlaceCounts {
            one: NumberSet::empty(),
            two: NumberSet::empty(),
            three: NumberSet::empty(),
            four: NumberSet::empty(),
            five: NumberSet::empty(),
        }
    }

    /// Each value of a set has a place more.
    pub fn with(self, set: NumberSet) -> PlaceCounts {
        PlaceCounts {
            one: self.one.union(set),
            two: self.two.union(self.one.intersection(set)),
            three: self.three.union(self.two.intersection(set)),
            four: self.four.union(self.three.intersection(set)),
            five: self.five.union(self.four.intersection(set)),
        }
    }

    /// A value with the fewest places, where these are from two to four, and their number. In a line of nine squares
    /// either it or its columns have no more, so no value is missed for long.
    pub fn fewest(self) -> Option<(u8, u32)> {
        let pairs = self.two.difference(self.three);
        let triples = self.three.difference(self.four);
        let fours = self.four.difference(self.five);
        for (values, places) in [(pairs, 2), (triples, 3), (fours, 4)] {
            if let Some(value) = values.least() {
                return Some((value, places));
            }
        }
        None
    }
}
