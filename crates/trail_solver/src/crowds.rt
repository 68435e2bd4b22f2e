//! The pairs that a Latin square's pairings rule out: lefts that have just as many rights as there are of
//! them leave none of these rights to other lefts, and lefts that have fewer leave no Latin square.

ghost use Rattle.std.specs.Prelude.{◌≡◌, ℕ, ◌<◌, true, slice_index, count_ones};
ghost use Rattle.std.specs.Bool.{OnTrue};
ghost use Rattle.latin_board.specs.Squares.{GridValue};
ghost use Rattle.number_sets.specs.Sets.{has_number};
ghost use Rattle.trail_solver.specs.Candidates.{IsEarlier, IsWithin};
ghost use Rattle.trail_solver.specs.Inner.Pairings.{Covers, IsPairing, LacksRights, NarrowsLatin, OthersLack};

use crate::candidates::Candidates;
use crate::guessing::losses::Losses;
use crate::guessing::matching::crowds;
use crate::pairing::{Pairing, Sides};
use number_sets::NumberSet;

/// Takes away what no Latin square of the candidates has by one of the pairings; false where one shows that there is none.
/// Pairings of which no pair was lost are left out.
#[tactic(auto, using(crate::proofs::CrowdSteps::narrows_then))]
pub(crate) fn narrow_by_pairings(candidates: &mut Candidates, losses: &Losses) -> bool
    ensures { NarrowsLatin candidates.old candidates.new result }
{
    narrow_by_lines(candidates, losses) && narrow_by_values(candidates, losses)
}

// Narrows by the pairings of the lines.
#[tactic(auto, using(crate::proofs::CrowdSteps::narrows_then, crate::proofs::CrowdSteps::narrows_nothing))]
fn narrow_by_lines(candidates: &mut Candidates, losses: &Losses) -> bool
    ensures { NarrowsLatin candidates.old candidates.new result }
{
    let width = candidates.size().get();
    for line in 0..2 * width {
        if !narrow_where_lost(candidates, Pairing::Line(line), losses) {
            return false;
        }
    }
    true
}

// Narrows by the pairings of the values.
#[tactic(auto, using(crate::proofs::CrowdSteps::narrows_then, crate::proofs::CrowdSteps::narrows_nothing))]
fn narrow_by_values(candidates: &mut Candidates, losses: &Losses) -> bool
    ensures { NarrowsLatin candidates.old candidates.new result }
{
    let width = candidates.size().get();
    for value in 1..width + 1 {
        if !narrow_where_lost(candidates, Pairing::Value(value), losses) {
            return false;
        }
    }
    true
}

// Narrows by one pairing, unless none of its pairs was lost.
#[tactic(auto, using(crate::proofs::CrowdSteps::narrows_nothing))]
fn narrow_where_lost(candidates: &mut Candidates, pairing: Pairing, losses: &Losses) -> bool
    requires { IsPairing candidates.old.size pairing }
    ensures { NarrowsLatin candidates.old candidates.new result }
{
    if losses.concern(candidates.size(), pairing) {
        narrow_by_pairing(candidates, pairing)
    } else {
        true
    }
}

// Narrows by one pairing: each set of lefts that a matching proposes is counted.
#[tactic(auto, using(crate::proofs::CrowdSteps::narrows_then, crate::proofs::CrowdSteps::narrows_nothing, crate::proofs::CrowdSteps::covers_later))]
fn narrow_by_pairing(candidates: &mut Candidates, pairing: Pairing) -> bool
    requires { IsPairing candidates.old.size pairing }
    ensures { NarrowsLatin candidates.old candidates.new result }
{
    let width = candidates.size().get();
    let sides = pairing.sides(candidates);
    let crowds = crowds(&sides, width);
    for left in 0..width {
        if !narrow_by_crowd(candidates, pairing, &sides, crowds[left as usize]) {
            return false;
        }
    }
    true
}

// Narrows by one proposed set of lefts, if it is a crowd; numbers in it that are no lefts don't count.
#[tactic(auto, using(crate::proofs::CrowdSteps::narrows_nothing))]
fn narrow_by_crowd(
    candidates: &mut Candidates,
    pairing: Pairing,
    sides: &Sides,
    proposed: NumberSet,
) -> bool
    requires pairing { IsPairing candidates.old.size pairing }
    requires covers { Covers candidates.old pairing sides.now }
    ensures { NarrowsLatin candidates.old candidates.new result }
{
    if proposed.is_empty() {
        return true;
    }
    let width = candidates.size().get();
    let crowd = proposed.intersection(NumberSet::up_to(width).lowered());
    let rights = rights_of(sides, crowd, width);
    if are_too_few(rights, crowd) {
        return false;
    }
    if are_just_enough(rights, crowd) {
        strike_others(candidates, pairing, sides, crowd, rights);
    }
    true
}

// Whether there are fewer rights than lefts in the crowd.
fn are_too_few(rights: NumberSet, crowd: NumberSet) -> bool
    ensures { OnTrue result (count_ones rights < count_ones crowd) }
{
    rights.len() < crowd.len()
}

// Whether there are as many rights as lefts in the crowd.
fn are_just_enough(rights: NumberSet, crowd: NumberSet) -> bool
    ensures { OnTrue result (count_ones rights ≡ count_ones crowd) }
{
    rights.len() == crowd.len()
}

/// The rights that the lefts of a crowd may have together.
fn rights_of(sides: &Sides, crowd: NumberSet, width: u8) -> NumberSet
    requires { width < 16 }
    ensures { (left right : ℕ) → left < width → has_number crowd left ≡ true
        → has_number (slice_index sides.now left) right ≡ true → has_number result right ≡ true }
{
    let mut rights = NumberSet::empty();
    for left in 0..width {
        if crowd.has(left) {
            rights = rights.union(sides[left as usize]);
        }
    }
    rights
}

// Takes the rights of a crowd from the lefts outside it.
#[tactic(auto, using(crate::proofs::CrowdSteps::narrows_struck, crate::proofs::CrowdSteps::narrows_nothing))]
fn strike_others(
    candidates: &mut Candidates,
    pairing: Pairing,
    sides: &Sides,
    crowd: NumberSet,
    rights: NumberSet,
)
    requires pairing { IsPairing candidates.old.size pairing }
    requires others { OthersLack candidates.old pairing crowd rights }
    ensures { NarrowsLatin candidates.old candidates.new true }
{
    let width = candidates.size().get();
    for left in 0..width {
        let struck = rights.intersection(sides[left as usize]);
        if !crowd.has(left) && !struck.is_empty() {
            strike_rights(candidates, pairing, left, struck);
        }
    }
}

// Takes rights from a left.
#[tactic(auto, using(crate::proofs::CrowdSteps::strikes_more, crate::proofs::CrowdSteps::strikes_nothing))]
fn strike_rights(candidates: &mut Candidates, pairing: Pairing, left: u8, rights: NumberSet)
    requires pairing { IsPairing candidates.old.size pairing }
    requires left { left < candidates.old.size }
    ensures less { IsEarlier candidates.old candidates.new }
    ensures keeps { (g : GridValue) → IsWithin candidates.old g
        → LacksRights candidates.old.size pairing left rights g → IsWithin candidates.new g }
{
    let size = candidates.size();
    for right in 0..size.get() {
        if rights.has(right) {
            let (cell, value) = pairing.pair(size, left, right);
            candidates.remove(cell, value);
        }
    }
}
