//! The numbers that are left of each square by all that the sentences before have said: a sign says more than
//! the numbers that its step strikes.

use crate::groups::Why;
use crate::left::left_of;
use crate::told::{SignEnd, Strike};
use latin_board::CELLS;
use number_sets::NumberSet;
use trail_solver::Candidates;

/// The numbers that the sentences before leave, and those that the one that is told now rules out.
#[derive(Drop)]
pub(crate) struct SaidBefore {
    left: [NumberSet; CELLS],
    ruled_out: [NumberSet; CELLS],
    // Why the steps of the present sentence strike, where several may be one.
    why: Option<Why>,
    // The bound that it tells of the other ends of signs, and the squares to which that applies.
    end: Option<SignEnd>,
    is_at_sign: [bool; CELLS],
}

impl SaidBefore {
    /// Nothing is said of candidates.
    pub(crate) fn nothing(candidates: &Candidates) -> SaidBefore {
        let mut left = [NumberSet::empty(); CELLS];
        for cell in 0..CELLS {
            left[cell] = left_of(candidates, cell);
        }
        SaidBefore {
            left,
            ruled_out: [NumberSet::empty(); CELLS],
            why: None,
            end: None,
            is_at_sign: [false; CELLS],
        }
    }

    /// The numbers that are left of a square before the present sentence.
    pub(crate) fn left_of(&self, cell: usize) -> NumberSet {
        if cell < CELLS {
            self.left[cell]
        } else {
            NumberSet::empty()
        }
    }

    /// Goes on to the next step: it begins a sentence, unless it strikes for the same reason as the one before.
    pub(crate) fn go_on(&mut self, why: Option<Why>) {
        if why.is_some() && why == self.why {
            return;
        }
        let beyond = self.end.map_or(NumberSet::empty(), SignEnd::beyond);
        for cell in 0..CELLS {
            let mut gone = self.ruled_out[cell];
            if self.is_at_sign[cell] {
                gone = gone.union(beyond);
            }
            self.left[cell] = self.left[cell].difference(gone);
            self.ruled_out[cell] = NumberSet::empty();
            self.is_at_sign[cell] = false;
        }
        self.end = None;
        self.why = why;
    }

    /// The step strikes these numbers, and tells this of the other end of its sign.
    pub(crate) fn rule_out(&mut self, strikes: &[Strike], end: Option<SignEnd>) {
        for strike in strikes {
            let cell = strike.cell as usize;
            if cell < CELLS {
                self.ruled_out[cell] = self.ruled_out[cell].union(strike.values);
                self.is_at_sign[cell] = end.is_some();
            }
        }
        self.end = weaker(self.end, end);
    }
}

/// The one of two ends that says less; if there is only one, that one.
pub(crate) fn weaker(end: Option<SignEnd>, other: Option<SignEnd>) -> Option<SignEnd> {
    match (end, other) {
        (Some(end), Some(other)) => Some(end.or_weaker(other)),
        (Some(end), None) => Some(end),
        (None, other) => other,
    }
}
