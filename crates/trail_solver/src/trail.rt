//! The entries of the trail of candidates: what each square lost together.
use number_sets::NumberSet;

/// The pairs of a square and a value in the largest grid, and so the longest trail.
pub(crate) const PAIRS: usize = 729;

/// Values that a square lost together. The cell has as many bits as the set, so that a removal has no padding: a blank trail
/// is cleared at once.
#[derive(Clone, Copy, Debug)]
pub(crate) struct Removal {
    pub cell: u16,
    pub values: NumberSet,
}

impl Default for Removal {
    fn default() -> Removal {
        Removal {
            cell: 0,
            values: NumberSet::empty(),
        }
    }
}
