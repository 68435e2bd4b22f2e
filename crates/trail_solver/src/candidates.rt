//! Candidates: which values each square may still have, with the trail of what was removed.
ghost use Rattle.std.specs.Prelude.{◌≡◌, ℕ, ◌*◌, ◌^◌, ◌<◌, ◌≤◌, ◌++◌, [], length, take, count_ones, MatchOption};
ghost use Rattle.latin_board.specs.declared.grid.TheConstants.{CELLS};
ghost use Rattle.trail_solver.specs.Pairs.{IsPair, pairs_of, with_pair};
ghost use Rattle.trail_solver.specs.Candidates.{CandidatesValue, AreCandidates, IsCandidates, IsSetOf, IsOnly, IsEarlier, may_be};
ghost use Rattle.trail_solver.specs.Inner.Fields.{FlipsSet, GivesBack, IsUpperPart};

use crate::trail::{PAIRS, Removal};
use arrayvec::ArrayVec;
use latin_board::{CELLS, Size};
use number_sets::NumberSet;
use std::marker::Model;

/// A place in the trail of `Candidates`, to give back what is removed from then on; no pencil mark. Contracts see the trail's
/// length.
#[derive(Clone, Copy, PartialEq, Eq, Debug)]
pub struct Mark {
    len: usize,
}

impl Model for Mark {
    ghost Value = { ℕ };

    ghost view = { λ m. m.len };

    ghost inverse = { λ n. record { len = n } };
}

impl Mark {
    /// The trail's length when the mark was taken.
    pub fn len(self) -> usize
        ensures { result ≡ self }
    {
        self.len
    }
}

/// Which values each square of a grid may still take.
///
/// Each square has the set of its candidates. The trail lists the pairs that were removed, in that order, so what was
/// removed since a mark can be given back without a copy. Values that a square loses together are one entry of it. It never
/// allocates.
#[derive(Debug, Drop)]
pub struct Candidates {
    size: Size,
    // the values that may stand in each cell
    sets: [NumberSet; CELLS],
    removals: ArrayVec<Removal, PAIRS>,
    // how many pairs the removals have together
    pairs: usize,
}

impl Model for Candidates {
    ghost use Rattle.trail_solver.specs.Candidates.{CandidatesValue};
    ghost use Rattle.trail_solver.specs.Inner.Fields.{AreFields, trail_of};

    ghost Value = { CandidatesValue };

    ghost view = { λ c. record { size = c.size; trail = trail_of c.removals.items } };

    ghost invariant = { λ c. AreFields c.size c.sets c.removals.items c.pairs };
}

impl Candidates {
    /// Every value of the size in every square.
    pub fn all(size: Size) -> Candidates
        ensures size { result.size ≡ size }
        ensures trail { result.trail ≡ [] }
    {
        Candidates {
            size,
            sets: [NumberSet::up_to(size.get()); CELLS],
            removals: ArrayVec::new(),
            pairs: 0,
        }
    }

    /// The size of the grid.
    pub fn size(&self) -> Size
        ensures value { result ≡ self.now.size }
        ensures valid { IsCandidates self.now }
    {
        self.size
    }

    /// Whether the value is a candidate of the cell; the cell is a square of the grid, and the value one of its numbers.
    pub fn may(&self, cell: usize, value: u8) -> bool
        requires { IsPair self.now.size cell value }
        ensures { result ≡ may_be self.now cell value }
    {
        let sets = &self.sets;
        sets[cell].has(value)
    }

    /// The set of the candidates of the cell, a square of the grid.
    pub fn values(&self, cell: usize) -> NumberSet
        requires { cell < self.now.size * self.now.size }
        ensures { IsSetOf self.now cell result }
    {
        let sets = &self.sets;
        sets[cell]
    }

    /// The only candidate of the cell, a square of the grid, where exactly one is left.
    #[tactic(auto, using(crate::proofs::SquareSets::only_by_single))]
    pub fn only(&self, cell: usize) -> Option<u8>
        requires { cell < self.now.size * self.now.size }
        ensures { MatchOption result ((v : ℕ) → IsOnly self.now cell v → ⊥) (IsOnly self.now cell) }
    {
        self.values(cell).single()
    }

    /// The place in the trail that `give_back` restores; no pencil mark.
    pub fn mark(&self) -> Mark
        ensures { result ≡ length self.now.trail }
    {
        Mark {
            len: self.trail_len(),
        }
    }

    /// How many pairs were removed: the length of the trail.
    pub fn trail_len(&self) -> usize
        ensures value { result ≡ length self.now.trail }
        ensures bound { result ≤ self.now.size * self.now.size * self.now.size }
    {
        self.pairs
    }

    // The removals, in their order.
    pub(crate) fn removals(&self) -> &[Removal] {
        self.removals.as_slice()
    }

    // The cell of the pair that was removed last, if any was.
    pub(crate) fn last_cell(&self) -> Option<u8>
        ensures { MatchOption result (self.now.trail ≡ [])
            (λ cell. cell < self.now.size * self.now.size) }
    {
        let last = self.removals.last()?;
        let cell = last.cell as u8;
        Some(cell)
    }

    /// Takes the value from the cell's candidates. Does nothing where it is gone already. The cell is a square of the
    /// grid, and the value one of its numbers.
    pub fn remove(&mut self, cell: usize, value: u8)
        requires { IsPair self.old.size cell value }
        ensures size { self.new.size ≡ self.old.size }
        ensures trail { self.new.trail ≡ with_pair self.old.trail cell value }
    {
        let _size = self.size();
        if !self.may(cell, value) {
            return;
        }
        self.remove_all(cell, NumberSet::one(value));
    }

    /// Takes the values of a set from the cell's candidates, the least first, as `remove` takes one. They are candidates of
    /// the cell, a square of the grid.
    pub fn remove_all(&mut self, cell: usize, values: NumberSet)
        requires { AreCandidates self.old cell values }
        ensures size { self.new.size ≡ self.old.size }
        ensures trail { self.new.trail ≡ self.old.trail ++ pairs_of cell values }
    {
        if values.is_empty() {
            return;
        }
        flip(&mut self.sets, cell, values);
        self.removals.push(Removal {
            cell: cell as u16,
            values,
        });
        self.pairs += values.len() as usize;
    }

    /// Gives back each pair that was removed since the mark was taken. The mark isn't longer than the trail.
    pub fn give_back(&mut self, mark: Mark)
        requires { mark ≤ length self.old.trail }
        ensures size { self.new.size ≡ self.old.size }
        ensures trail { self.new.trail ≡ take mark self.old.trail }

        // Where what stood at the mark is in front of what stands now, it stands again.
        ensures restores { (earlier : CandidatesValue) → IsEarlier earlier self.old
            → mark ≡ length earlier.trail → self.new ≡ earlier }
    {
        while self.trail_len() > mark.len() {
            self.undo(mark.len());
        }
    }

    // Gives back what a square lost last, or the greatest value of it alone where more than that is to stay removed.
    fn undo(&mut self, kept: usize)
        requires { kept < length self.old.trail }
        ensures size { self.new.size ≡ self.old.size }
        ensures trail { GivesBack kept self.old.trail self.new.trail }
    {
        if let Some(last) = self.removals.pop() {
            let back = upper_part(last.values, self.pairs - kept);
            flip(&mut self.sets, last.cell as usize, back);
            self.pairs -= back.len() as usize;
            let rest = last.values.difference(back);
            if rest.is_empty() {
                return;
            }
            self.removals.push(Removal {
                cell: last.cell,
                values: rest,
            });
        }
    }
}

// The whole set, where it has at most so many values, and otherwise the greatest alone.
fn upper_part(values: NumberSet, most: usize) -> NumberSet
    requires { 0 < most }
    ensures part { IsUpperPart values result }
    ensures few { count_ones result ≤ most }
{
    if values.len() as usize <= most {
        return values;
    }
    match values.greatest() {
        Some(greatest) => NumberSet::one(greatest),
        None => values,
    }
}

// Takes the values into the cell's set, or out of it.
fn flip(sets: &mut [NumberSet; CELLS], cell: usize, values: NumberSet)
    requires { cell < CELLS }
    ensures { FlipsSet sets.old sets.new cell values }
{
    let bits = sets[cell].bits() ^ values.bits();
    sets[cell] = NumberSet::from_bits(bits);
}
