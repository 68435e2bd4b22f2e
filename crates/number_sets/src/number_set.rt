//! A set of numbers below 16.

ghost use Rattle.std.specs.Prelude.{◌≡◌, ℕ, ◌+◌, ◌-◌, ◌^◌, ◌<◌, ◌==◌, ◌&&◌, ◌||◌, ◌↔◌, true, not, nat_le};
ghost use Rattle.std.specs.Prelude.{if◌then◌else◌, bit_and, bit_or, count_ones, MatchOption, IfSome};
ghost use Rattle.std.specs.Bool.{MatchBool};
ghost use Rattle.number_sets.specs.Sets.{has_number, no_numbers, numbers_to, flip_number, IsEmpty, IsShared, IsSubset, IsSingle, IsLeast, IsGreatest};

use std::marker::Model;

/// A set of numbers below 16.
///
/// Contracts see it as a number of which `has_number` tells the members.
#[derive(Clone, Copy, PartialEq, Eq, Debug)]
pub struct NumberSet {
    bits: u16,
}

impl Model for NumberSet {
    ghost Value = { ℕ };

    ghost view = { λ s. s.bits };

    ghost inverse = { λ n. record { bits = n } };
}

impl NumberSet {
    /// The set of no number.
    pub fn empty() -> NumberSet
        ensures { result ≡ no_numbers }
    {
        NumberSet { bits: 0 }
    }

    /// The set of one number, below 16.
    #[tactic(auto, using(crate::proofs::Calls::one_has))]
    pub fn one(n: u8) -> NumberSet
        requires { n < 16 }
        ensures value { result ≡ 2 ^ n }
        ensures members { (k : ℕ) → has_number result k ≡ (k == n) }
    {
        NumberSet { bits: 1 << n }
    }

    /// The set of the numbers from 1 to this one, below 15.
    #[tactic(auto, using(crate::proofs::Calls::up_to_has))]
    pub fn up_to(n: u8) -> NumberSet
        requires { n < 15 }
        ensures value { result ≡ numbers_to n }
        ensures members { (k : ℕ) → has_number result k ≡ (nat_le 1 k && nat_le k n) }
    {
        NumberSet {
            bits: (1 << (n + 1)) - 2,
        }
    }

    /// The set that has n where bit n is set.
    pub fn from_bits(bits: u16) -> NumberSet
        ensures { result ≡ bits }
    {
        NumberSet { bits }
    }

    /// The number whose bit n is set where the set has n.
    pub fn bits(self) -> u16
        ensures { result ≡ self }
    {
        self.bits
    }

    /// Whether the number, below 16, is in the set.
    pub fn has(self, n: u8) -> bool
        requires { n < 16 }
        ensures { result ≡ has_number self n }
    {
        self.bits >> n & 1 == 1
    }

    /// Whether no number is in the set.
    #[tactic(auto, using(crate::proofs::Members::empty_test))]
    pub fn is_empty(self) -> bool
        ensures value { result ≡ (self == no_numbers) }
        ensures members { MatchBool result (IsEmpty self) ((n : ℕ) × (has_number self n ≡ true)) }
    {
        self.bits() == 0
    }

    /// Each number of the set, below 15, one more.
    #[tactic(auto, using(crate::proofs::Calls::raised_has_only, crate::proofs::Calls::raised_has_all))]
    pub fn raised(self) -> NumberSet
        ensures only { (n : ℕ) → has_number result n ≡ true
            → (m : ℕ) × (m + 1 ≡ n) × (has_number self m ≡ true) }
        ensures all { (m : ℕ) → m < 15 → has_number self m ≡ true
            → has_number result (m + 1) ≡ true }
    {
        NumberSet {
            bits: self.bits << 1,
        }
    }

    /// Each number of the set, from 1 on, one less.
    #[tactic(auto, using(crate::proofs::Calls::lowered_has))]
    pub fn lowered(self) -> NumberSet
        ensures { (n : ℕ) → has_number result n ≡ has_number self (n + 1) }
    {
        NumberSet {
            bits: self.bits >> 1,
        }
    }

    /// The numbers of the set up to this one, which is below 15.
    #[tactic(auto, using(crate::proofs::Calls::at_most_has))]
    pub fn at_most(self, n: u8) -> NumberSet
        requires { n < 15 }
        ensures { (k : ℕ) → has_number result k ≡ (has_number self k && nat_le k n) }
    {
        NumberSet {
            bits: self.bits & ((1 << (n + 1)) - 1),
        }
    }

    /// How many numbers are in the set.
    pub fn len(self) -> u32
        ensures { result ≡ count_ones self }
    {
        self.bits.count_ones()
    }

    /// Takes the number, below 16, out of the set where it is in, and puts it in where it isn't.
    #[tactic(auto, using(crate::proofs::Calls::flip_has))]
    pub fn flip(&mut self, n: u8)
        requires { n < 16 }
        ensures value { self.new ≡ flip_number self.old n }
        ensures members { (k : ℕ) → has_number self.new k
            ≡ (if k == n then not (has_number self.old k) else has_number self.old k) }
    {
        self.bits ^= 1 << n;
    }

    /// The numbers that are in either set.
    #[tactic(auto, using(crate::proofs::Calls::union_has))]
    pub fn union(self, other: NumberSet) -> NumberSet
        ensures value { result ≡ bit_or self other }
        ensures members { (n : ℕ) → has_number result n
            ≡ (has_number self n || has_number other n) }
    {
        NumberSet {
            bits: self.bits | other.bits,
        }
    }

    /// The numbers that are in both sets.
    #[tactic(auto, using(crate::proofs::Calls::intersection_has))]
    pub fn intersection(self, other: NumberSet) -> NumberSet
        ensures value { result ≡ bit_and self other }
        ensures members { (n : ℕ) → has_number result n
            ≡ (has_number self n && has_number other n) }
    {
        NumberSet {
            bits: self.bits & other.bits,
        }
    }

    /// The numbers of this set that the other lacks.
    #[tactic(auto, using(crate::proofs::Calls::difference_has))]
    pub fn difference(self, other: NumberSet) -> NumberSet
        ensures { (n : ℕ) → has_number result n
            ≡ (has_number self n && not (has_number other n)) }
    {
        NumberSet {
            bits: self.bits() & !other.bits(),
        }
    }

    /// Whether no number is in both sets.
    #[tactic(auto, using(crate::proofs::Members::disjoint_test))]
    pub fn is_disjoint(self, other: NumberSet) -> bool
        ensures { MatchBool result (IsShared self other → ⊥) (IsShared self other) }
    {
        self.bits() & other.bits() == 0
    }

    /// Whether each number of this set is in the other.
    #[tactic(auto, using(crate::proofs::Members::subset_test))]
    pub fn is_subset(self, other: NumberSet) -> bool
        ensures { MatchBool result (IsSubset self other) (IsSubset self other → ⊥) }
    {
        self.bits & other.bits == self.bits
    }

    /// Whether the set has just one number.
    #[tactic(auto, using(crate::proofs::Ends::single_test))]
    pub fn is_single(self) -> bool
        ensures { MatchBool result ((n : ℕ) × IsSingle self n) ((n : ℕ) → IsSingle self n → ⊥) }
    {
        let bits = self.bits();
        bits != 0 && bits & (bits - 1) == 0
    }

    /// The set's only number, where it has just one.
    pub fn single(self) -> Option<u8>
        ensures { MatchOption result ((n : ℕ) → IsSingle self n → ⊥) (IsSingle self) }
    {
        if self.is_single() { self.least() } else { None }
    }

    /// The least number of the set, if it has any.
    pub fn least(self) -> Option<u8>
        ensures value { MatchOption result (IsEmpty self) (IsLeast self) }
        ensures bound { IfSome result (λ n. n < 16) }
    {
        let bits = self.bits();
        if bits == 0 {
            return None;
        }
        Some(bits.trailing_zeros() as u8)
    }

    /// The greatest number of the set, if it has any.
    pub fn greatest(self) -> Option<u8>
        ensures value { MatchOption result (IsEmpty self) (IsGreatest self) }
        ensures bound { IfSome result (λ n. n < 16) }
    {
        let bits = self.bits();
        if bits == 0 {
            return None;
        }
        Some(bits.ilog2() as u8)
    }
}
