//! Which rows, columns and values lost candidates. No answer rests on it: it tells which pairings are worth to be looked at again.

use crate::candidates::Candidates;
use crate::pairing::Pairing;
use crate::trail::Removal;
use latin_board::Size;
use number_sets::NumberSet;

/// The rows, the columns and the values of pairs that were removed.
#[derive(Drop)]
pub(crate) struct Losses {
    rows: NumberSet,
    columns: NumberSet,
    values: NumberSet,
}

impl Losses {
    /// The rows, columns and values of the pairs that went since the trail was so long.
    pub fn since(candidates: &Candidates, length: usize) -> Losses {
        let size = candidates.size();
        let mut losses = Losses {
            rows: NumberSet::empty(),
            columns: NumberSet::empty(),
            values: NumberSet::empty(),
        };
        let mut end = candidates.trail_len();
        for removal in candidates.removals().iter().rev() {
            if end <= length {
                break;
            }
            end = end.saturating_sub(removal.values.len() as usize);
            losses.add(size, removal);
        }
        losses
    }

    // Adds what a removal took.
    fn add(&mut self, size: Size, removal: &Removal) {
        let width = u16::from(size.get());
        let row = (removal.cell / width % 16) as u8;
        let column = (removal.cell % width) as u8;
        self.rows = self.rows.union(NumberSet::one(row));
        self.columns = self.columns.union(NumberSet::one(column));
        self.values = self.values.union(removal.values);
    }

    /// Whether a pair of the pairing was removed.
    pub fn concern(&self, size: Size, pairing: Pairing) -> bool {
        let width = size.get();
        match pairing {
            Pairing::Line(line) if line < width => self.rows.has(line % 16),
            Pairing::Line(line) => self.columns.has((line - width) % 16),
            Pairing::Value(value) => self.values.has(value % 16),
        }
    }
}
