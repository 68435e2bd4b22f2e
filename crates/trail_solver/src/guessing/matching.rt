//! Sets of lefts that have too few rights for each to get one of its own, or just as many: found by a maximum matching.
//!
//! A left is matched along an augmenting path: the rights that it may have, the lefts that own these, the rights that those
//! may have, and so on, up to a right that nobody owns. Where there is no such path, the lefts that were reached have too
//! few rights together. Where each left is matched, the lefts that can be reached from one have just as many rights. No
//! answer rests on what is found here: `crowds` counts the rights of each set again.

use crate::pairing::{SIDES, Sides};
use number_sets::NumberSet;

/// A matching under way: for each right the left that owns it.
#[derive(Drop)]
struct Matching {
    owners: [u8; SIDES],
    taken: NumberSet,
}

/// Sets of lefts that are worth looking at, each once, and empty sets in the other places: one alone with too
/// few rights if the matching can't be completed, and otherwise for each left those that its rights lead to.
pub(crate) fn crowds(sides: &Sides, count: u8) -> Sides {
    let mut matching = Matching {
        owners: [0; SIDES],
        taken: NumberSet::empty(),
    };
    for left in 0..count {
        if let Some(reached) = matching.place(sides, left) {
            return alone(reached);
        }
    }
    worthy(closed(matching.next_of(sides), count), count)
}

impl Matching {
    // Gives a left a right of its own, or tells which lefts it reaches where it can't.
    fn place(&mut self, sides: &Sides, left: u8) -> Option<NumberSet> {
        let free = sides[(left % 16) as usize].difference(self.taken);
        if let Some(right) = free.least() {
            self.give(right, left);
            return None;
        }
        self.search(sides, left)
    }

    // Makes the left the owner of the right.
    fn give(&mut self, right: u8, left: u8) {
        self.owners[(right % 16) as usize] = left;
        self.taken = self.taken.union(NumberSet::one(right % 16));
    }

    // Gives a left a right by an augmenting path, breadth first, or tells which lefts it reaches instead.
    fn search(&mut self, sides: &Sides, left: u8) -> Option<NumberSet> {
        let mut reached = NumberSet::one(left % 16);
        let mut waiting = reached;
        let mut parents = [left; SIDES];
        for _ in 0..SIDES {
            let Some(from) = waiting.least() else {
                break;
            };
            let rights = sides[from as usize];
            if let Some(right) = rights.difference(self.taken).least() {
                self.exchange(sides, &parents, from, right);
                return None;
            }
            let fresh = self.owners_of(rights).difference(reached);
            parents = with_parent(parents, fresh, from);
            reached = reached.union(fresh);
            waiting = waiting.difference(NumberSet::one(from)).union(fresh);
        }
        Some(reached)
    }

    // Gives the right to the left that reached it, the right that this one had to its parent, and so on.
    fn exchange(&mut self, sides: &Sides, parents: &[u8; SIDES], from: u8, right: u8) {
        let mut from = from;
        let mut right = right;
        for _ in 0..SIDES {
            let had = self.right_of(sides, from);
            self.give(right, from);
            let Some(had) = had else {
                return;
            };
            right = had;
            from = parents[(from % 16) as usize];
        }
    }

    // The right that a left owns.
    fn right_of(&self, sides: &Sides, left: u8) -> Option<u8> {
        let mut rights = sides[(left % 16) as usize].intersection(self.taken);
        for _ in 0..SIDES {
            let right = rights.least()?;
            if self.owners[right as usize] == left {
                return Some(right);
            }
            rights = rights.difference(NumberSet::one(right));
        }
        None
    }

    // The lefts that own some of the rights.
    fn owners_of(&self, rights: NumberSet) -> NumberSet {
        let mut lefts = NumberSet::empty();
        let mut rights = rights.intersection(self.taken);
        for _ in 0..SIDES {
            let Some(right) = rights.least() else {
                break;
            };
            lefts = lefts.union(NumberSet::one(self.owners[right as usize] % 16));
            rights = rights.difference(NumberSet::one(right));
        }
        lefts
    }

    // For each left the lefts that own its rights, itself among them.
    fn next_of(&self, sides: &Sides) -> Sides {
        let mut next = *sides;
        for left in 0..SIDES {
            next[left] = self.owners_of(sides[left]);
        }
        next
    }
}

// The parents, with this one for each of the lefts.
fn with_parent(parents: [u8; SIDES], lefts: NumberSet, parent: u8) -> [u8; SIDES] {
    let mut parents = parents;
    for left in 0..16 {
        if lefts.has(left) {
            parents[left as usize] = parent;
        }
    }
    parents
}

// For each left all that can be reached from it.
fn closed(next: Sides, count: u8) -> Sides {
    let mut reach = next;
    for through in 0..count {
        reach = closed_through(reach, through % 16);
    }
    reach
}

// For each left that reaches `through`, also all that `through` reaches.
fn closed_through(reach: Sides, through: u8) -> Sides {
    let more = reach[(through % 16) as usize];
    let mut all = reach;
    for set in all.iter_mut() {
        if set.has(through % 16) {
            *set = set.union(more);
        }
    }
    all
}

// One set in the first place, and empty sets in the others.
fn alone(set: NumberSet) -> Sides {
    let mut sets = [NumberSet::empty(); SIDES];
    sets[0] = set;
    sets
}

// The sets that can say something new, each once: neither of one left alone, nor of all of them.
fn worthy(reach: Sides, count: u8) -> Sides {
    let all = NumberSet::up_to(count.min(14)).lowered();
    let mut sets = reach;
    for left in 0..SIDES {
        let set = reach[left];
        if set.is_single() || set == all || reach[..left].contains(&set) {
            sets[left] = NumberSet::empty();
        }
    }
    sets
}
