//! The towers seen along a worked line, and the values that a clue leaves there.

use number_sets::NumberSet;
use tower_lines::{has_filling, seen, supported};

// The sets of a line, as bits: from none up to nine of them.
fn sets_of(bits: &[u16]) -> [NumberSet; 9] {
    let mut sets = [NumberSet::empty(); 9];
    for (set, bits) in sets.iter_mut().zip(bits) {
        *set = NumberSet::from_bits(*bits);
    }
    sets
}

#[test]
fn towers_along_a_line(rt: HostRuntime) {
    let line = sets_of(&[0b1110; 3]);
    assert!(rt; seen(&[2, 1, 3]) == 2);
    // 132, 213 and 231 show 2, and of them just 213 has 3 at its end.
    assert!(rt; supported(&line[..3], 2) == sets_of(&[0b0110, 0b1010, 0b1110]));
    assert!(rt; has_filling(&line[..3], 3) && !has_filling(&line[..3], 4));
}
