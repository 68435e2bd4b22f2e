//! The numbers that a set bounds.

ghost use Rattle.std.specs.Prelude.{◌≡◌, ◌↔◌, ℕ, ◌<◌, ◌≤◌, true};
ghost use Rattle.number_sets.specs.Sets.{has_number};

use number_sets::NumberSet;

/// The numbers below 16 from the greatest of a set on, or all where it has none.
///
/// With 0 put in, a set has a greatest, and no other one where it had one.
#[tactic(auto, using(crate::proofs::SignSets::from_greatest_has))]
pub(crate) fn from_greatest(set: NumberSet) -> NumberSet
    ensures { (v : ℕ) → (has_number result v ≡ true)
        ↔ ((v < 16) × ((u : ℕ) → has_number set u ≡ true → u ≤ v)) }
{
    let top = (set.bits() | 1).ilog2();
    NumberSet::from_bits(u16::MAX << top)
}

/// The numbers below 16 up to the least of a set, or all where it has none.
///
/// The bits of one less differ up to the least one, and all of them do where no bit is set.
#[tactic(auto, using(crate::proofs::SignSets::up_to_least_has))]
pub(crate) fn up_to_least(set: NumberSet) -> NumberSet
    ensures { (v : ℕ) → (has_number result v ≡ true)
        ↔ ((v < 16) × ((u : ℕ) → has_number set u ≡ true → v ≤ u)) }
{
    let bits = set.bits();
    NumberSet::from_bits(bits ^ bits.wrapping_sub(1))
}
