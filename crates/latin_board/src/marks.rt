//! The pencil marks at a square, as a set of numbers.

ghost use Rattle.std.specs.Prelude.{◌≡◌, ℕ, ◌≤◌, ◌==◌, ◌&&◌, false, not, nat_le, if◌then◌else◌};
ghost use Rattle.number_sets.specs.Sets.{has_number, no_numbers, numbers_to, flip_number};
ghost use Rattle.latin_board.specs.Marks.{IsMarkSet};

use crate::size::Size;
use number_sets::NumberSet;
use std::marker::Model;

/// A set of numbers from 1 to 9, the pencil marks at a square.
///
/// Contracts see it as a number of which `has_number` tells the members.
#[derive(Clone, Copy, PartialEq, Eq, Debug)]
pub struct Marks {
    numbers: NumberSet,
}

impl Model for Marks {
    ghost use Rattle.std.specs.Prelude.{ℕ};
    ghost use Rattle.latin_board.specs.Marks.{IsMarkSet};

    ghost Value = { ℕ };

    ghost view = { λ m. m.numbers };

    ghost invariant = { λ m. IsMarkSet 9 m.numbers };

    ghost inverse = { λ n. record { numbers = n } };
}

impl Marks {
    /// The set of no number.
    pub fn empty() -> Marks
        ensures value { result ≡ no_numbers }
        ensures members { (n : ℕ) → has_number result n ≡ false }
        ensures within { (w : ℕ) → IsMarkSet w result }
    {
        Marks {
            numbers: NumberSet::empty(),
        }
    }

    /// The set of all numbers from 1 to the size.
    pub fn full(size: Size) -> Marks
        ensures value { result ≡ numbers_to size }
        ensures members { (n : ℕ) → has_number result n ≡ (nat_le 1 n && nat_le n size) }
        ensures within { IsMarkSet size result }
    {
        Marks {
            numbers: NumberSet::up_to(size.get()),
        }
    }

    /// Whether the number, from 1 to 9, is in the set.
    pub fn has(self, n: u8) -> bool
        requires low { 1 ≤ n }
        requires high { n ≤ 9 }
        ensures value { result ≡ has_number self n }
        ensures within { IsMarkSet 9 self }
    {
        self.numbers.has(n)
    }

    /// Takes the number, from 1 to 9, out of the set where it is in, and puts it in where it isn't.
    pub fn flip(&mut self, n: u8)
        requires low { 1 ≤ n }
        requires high { n ≤ 9 }
        ensures value { self.new ≡ flip_number self.old n }
        ensures members { (k : ℕ) → has_number self.new k
            ≡ (if k == n then not (has_number self.old k) else has_number self.old k) }
        ensures within { (w : ℕ) → IsMarkSet w self.old → n ≤ w → IsMarkSet w self.new }
    {
        self.numbers.flip(n);
    }
}
