//! Rows of sets: what is left of squares side by side.
//! Nothing here ensures anything: `short_chain` follows what comes of it step by step, and tells it only where it is a chain.

use crate::needs::{left, single};
use crate::replays::struck;
use arrayvec::ArrayVec;
use named_steps::{Reason, Steps};
use number_sets::NumberSet;
use trail_solver::{Candidates, Rules};

/// How many places at the edge the widest grid has.
pub(crate) const PLACES: usize = 36;

/// How many numbers were left of each row when it was looked at last.
#[derive(Clone, Copy, Debug)]
pub(crate) struct Looks {
    counts: [u32; PLACES],
}

impl Looks {
    /// None was looked at yet.
    pub(crate) fn none() -> Looks {
        Looks {
            counts: [u32::MAX; PLACES],
        }
    }

    /// Whether fewer numbers are left of a row than when it was looked at last. It is noted as looked at now.
    pub(crate) fn note_new(&mut self, at: usize, row: &[NumberSet; 9]) -> bool {
        let mut left = 0u32;
        for set in row {
            left = left.saturating_add(set.len());
        }
        if at >= PLACES || self.counts[at] == left {
            return false;
        }
        self.counts[at] = left;
        true
    }
}

/// The numbers that are left of some squares, in their order.
pub(crate) fn row_of(candidates: &Candidates, cells: &ArrayVec<u8, 9>) -> [NumberSet; 9] {
    let mut row = [NumberSet::empty(); 9];
    for place in 0..cells.len() {
        if place < 9 {
            row[place] = left(candidates, cells[place] as usize);
        }
    }
    row
}

/// The numbers that a reason strikes in each of the squares from a place at the edge.
pub(crate) fn struck_along<P: Steps>(
    p: &P,
    candidates: &Candidates,
    reason: &Reason,
    place: usize,
    cells: &ArrayVec<u8, 9>,
    cache: &mut P::Cache,
) -> [NumberSet; 9] {
    let size = candidates.size();
    if p.size() == size && place < 4 * size.get() as usize {
        if let Some(row) = p.strikes_from(candidates, *reason, place, cache) {
            return row;
        }
    }
    struck_in_each(p, candidates, reason, cells, cache)
}

// The numbers that a reason strikes in each of some squares, found square by square.
fn struck_in_each<P: Steps>(
    p: &P,
    candidates: &Candidates,
    reason: &Reason,
    cells: &ArrayVec<u8, 9>,
    cache: &mut P::Cache,
) -> [NumberSet; 9] {
    let mut row = [NumberSet::empty(); 9];
    for k in 0..cells.len() {
        if k < 9 {
            row[k] = struck(p, candidates, reason, cells[k] as usize, cache);
        }
    }
    row
}

/// The last place whose set has the number, or the first place where none has.
pub(crate) fn last_place(row: &[NumberSet; 9], number: u8) -> usize {
    let mut last = 0;
    for place in 0..9 {
        if single(number).is_subset(row[place]) {
            last = place;
        }
    }
    last
}

/// The places whose sets share a number with another one's.
pub(crate) fn sharing(row: &[NumberSet; 9]) -> NumberSet {
    let shared = shared_numbers(row);
    let mut places = NumberSet::empty();
    for place in 0..9 {
        if !row[place].is_disjoint(shared) {
            places = places.union(NumberSet::one(place as u8));
        }
    }
    places
}

/// The numbers that several sets have.
pub(crate) fn shared_numbers(row: &[NumberSet; 9]) -> NumberSet {
    let mut once = NumberSet::empty();
    let mut often = NumberSet::empty();
    for place in 0..9 {
        often = often.union(once.intersection(row[place]));
        once = once.union(row[place]);
    }
    often
}
