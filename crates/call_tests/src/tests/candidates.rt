//! Candidates with their trail: each call once, in the first square of width 3.

use latin_board::Size;
use number_sets::NumberSet;
use trail_solver::Candidates;

#[test]
fn a_trail(rt: HostRuntime) {
    let size = Size::new(3).expect(&rt, "a size");
    let mut candidates = Candidates::all(size);
    candidates.remove(0, 1);
    let mark = candidates.mark();
    let marked = mark.len();
    assert!(rt; candidates.size() == size && marked == 1);
    assert!(rt; candidates.may(0, 2) && !candidates.may(0, 1));
    candidates.remove_all(0, candidates.values(0).difference(NumberSet::one(3)));
    assert!(rt; candidates.trail_len() == 2 && candidates.only(0) == Some(3));
    candidates.give_back(mark);
    assert!(rt; candidates.trail_len() == 1 && candidates.values(0).bits() == 0b1100);
}
