//! Sets of numbers: each call once, at sets that the bits show.

use number_sets::NumberSet;

// 2, 5 and 9.
const BITS: u16 = 0b10_0010_0100;

#[test]
fn sets_are_made(rt: HostRuntime) {
    let mut set = NumberSet::from_bits(BITS);
    set.flip(5);
    assert!(rt; set.bits() == 0b10_0000_0100);
    assert!(rt; NumberSet::empty().bits() == 0 && NumberSet::one(15).bits() == 0x8000);
    assert!(rt; set.raised().bits() == 0b100_0000_1000 && set.lowered().bits() == 0b1_0000_0010);
}

#[test]
fn sets_are_asked(rt: HostRuntime) {
    let set = NumberSet::from_bits(BITS);
    assert!(rt; set.least() == Some(2) && set.greatest() == Some(9) && set.single().is_none());
    assert!(rt; set.has(9) && set.len() == 3 && !set.is_empty() && !set.is_single());
}

#[test]
fn sets_are_compared(rt: HostRuntime) {
    let set = NumberSet::from_bits(BITS);
    let low = NumberSet::up_to(5);
    assert!(rt; set.union(low).bits() == 0b10_0011_1110);
    assert!(rt; set.intersection(low).bits() == 0b10_0100 && set.at_most(5).bits() == 0b10_0100);
    assert!(rt; set.difference(low).bits() == 0b10_0000_0000);
    assert!(rt; !set.is_disjoint(low) && !low.is_subset(set));
}
