//! The edge clues of a board that are marked as done, as a set of places.

ghost use Rattle.std.specs.Prelude.{◌≡◌, ℕ, ◌<◌, ◌==◌, not, if◌then◌else◌};
ghost use Rattle.number_sets.specs.Sets.{has_number, no_numbers, flip_number};

use std::marker::Model;

// A set of places below 64, those whose edge clue is marked as done. Contracts see it as `Marks`.
#[derive(Clone, Copy, PartialEq, Eq, Debug)]
pub struct DoneMarks {
    bits: u64,
}

impl Model for DoneMarks {
    ghost Value = { ℕ };

    ghost view = { λ d. d.bits };

    ghost inverse = { λ n. record { bits = n } };
}

impl DoneMarks {
    pub fn empty() -> DoneMarks
        ensures { result ≡ no_numbers }
    {
        DoneMarks { bits: 0 }
    }

    pub fn has(self, place: u8) -> bool
        requires { place < 64 }
        ensures { result ≡ has_number self place }
    {
        (self.bits >> place) & 1 == 1
    }

    pub fn flip(&mut self, place: u8)
        requires { place < 64 }
        ensures value { self.new ≡ flip_number self.old place }
        ensures members { (other : ℕ) → has_number self.new other
            ≡ (if other == place then not (has_number self.old other) else has_number self.old other) }
    {
        self.bits ^= 1 << place;
    }
}
