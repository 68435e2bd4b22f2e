//! The values that a sign strikes in one of its squares.
ghost use Rattle.std.specs.Prelude.{◌≡◌, ◌↔◌, ℕ, ◌*◌, ◌<◌, ◌≤◌, true};
ghost use Rattle.number_sets.specs.Sets.{has_number};
ghost use Rattle.line_steps.specs.Left.{IsLeft};

use crate::unequal::sign_bounds::{from_greatest, up_to_least};
use number_sets::NumberSet;
use trail_solver::Candidates;

/// The values of the size that no value that is left of a square is above: the square is greater, so they go from the lesser one.
pub(crate) fn by_greater(candidates: &Candidates, from: usize) -> NumberSet
    requires { from < candidates.now.size * candidates.now.size }
    ensures { (v : ℕ) → (has_number result v ≡ true)
        ↔ ((1 ≤ v) × (v ≤ candidates.now.size) × ((u : ℕ) → IsLeft candidates.now from u → u ≤ v)) }
{
    let size = candidates.size();
    NumberSet::up_to(size.get()).intersection(from_greatest(candidates.values(from)))
}

/// The values of the size that no value that is left of a square is below: the square is lesser, so they go from the greater one.
pub(crate) fn by_lesser(candidates: &Candidates, from: usize) -> NumberSet
    requires { from < candidates.now.size * candidates.now.size }
    ensures { (v : ℕ) → (has_number result v ≡ true)
        ↔ ((1 ≤ v) × (v ≤ candidates.now.size) × ((u : ℕ) → IsLeft candidates.now from u → v ≤ u)) }
{
    let size = candidates.size();
    NumberSet::up_to(size.get()).intersection(up_to_least(candidates.values(from)))
}
