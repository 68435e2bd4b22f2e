//! Sets of one number, told without a branch: processors often guess wrong which sets have just one.
ghost use Rattle.std.specs.Prelude.{◌≡◌, ◌↔◌, ℕ, ◌*◌, ◌==◌, if◌then◌else◌, true};
ghost use Rattle.number_sets.specs.Sets.{has_number, IsSingle};
ghost use Rattle.line_steps.specs.Inner.LineSets.{IsStandingSet};

use number_sets::NumberSet;

/// The numbers that may stand in a square of which `left` is left, if only lone values are seen: its only
/// number, none where it is empty, and otherwise any of `all`.
pub fn standing_set(all: NumberSet, left: NumberSet) -> NumberSet
    ensures { IsStandingSet all left result }
{
    let bits = left.bits();
    let rest = bits & bits.wrapping_sub(1);
    let if_few = NumberSet::from_bits(if_none(all.bits(), rest));
    all.difference(if_few).union(left)
}

/// The set where it has just one number, and otherwise none.
pub fn if_single(set: NumberSet) -> NumberSet
    ensures { (v : ℕ) → (has_number result v ≡ true) ↔ IsSingle set v }
{
    let bits = set.bits();
    let rest = bits & bits.wrapping_sub(1);
    NumberSet::from_bits(if_none(bits, rest))
}

// The bits where the rest has none, and otherwise none of them: by a mask, since a test would become a branch.
#[tactic(auto, using(crate::proofs::RestSets::if_none_masked))]
fn if_none(bits: u16, rest: u16) -> u16
    ensures { result ≡ bits * (if rest == 0 then 1 else 0) }
{
    let mask = u32::from(rest).wrapping_sub(1) >> 16;
    (u32::from(bits) & mask) as u16
}
