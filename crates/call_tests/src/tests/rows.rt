//! Tables: each row of one has to hold.

use std::alloc::Global;
use std::process::Abort;

/// A row of a table: what is called, and what is wanted of it.
pub(crate) trait Row {
    /// Whether the calls of this row give what is wanted. Where one is refused that should not be, it does not hold.
    fn holds(&self, alloc: Global) -> bool;
}

/// Each row of the table holds. One that does not is told by its place, counted from 0.
pub(crate) fn check<R: Row>(rt: &impl Abort, alloc: Global, rows: &[R]) {
    let mut place = 0usize;
    for row in rows {
        assert!(rt; row.holds(alloc), "row {place}");
        place = place.saturating_add(1);
    }
}
