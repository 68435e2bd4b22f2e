//! The memory of `row_fillings`: what was found of rows of sets, so that no row is looked through twice.
ghost use Rattle.std.specs.Prelude.{◌≡◌, ◌↔◌, ℕ, ◌<◌, ◌≤◌, true, take, IfSome};
ghost use Rattle.number_sets.specs.Sets.{has_number};
ghost use Rattle.towers_game.specs.Inner.RowCache.{IsCached, IsLone, IsReduced, IsWithout};
ghost use Rattle.towers_game.specs.Inner.RowSets.{AreKept};

use crate::towers::row_fillings::RowFillings;
use crate::towers::row_sets::are_within;
use line_steps::if_single;
use number_sets::NumberSet;
use std::marker::Model;
use tower_lines::supported;

// More slots keep more rows; but a slot has 38 bytes, and a hint has them on the stack.
const SLOTS: usize = 256;

// A row has its place in one bucket, which has so many slots.
const WAYS: usize = 4;

const BUCKETS: usize = SLOTS / WAYS;

// 2^32 over the golden ratio, which spreads what is multiplied by it over all bits.
const SPREAD: u32 = 2_654_435_761;

/// Rows of sets that were looked at, each with its clue and what was found of it, in one of the four slots that its sets and its clue
/// give. They speak of sets and clues alone, so they stay right whatever is taken away, and in any puzzle.
#[derive(Debug, Drop)]
pub struct RowCache {
    widths: [u8; SLOTS],
    clues: [u8; SLOTS],
    sets: [[NumberSet; 9]; SLOTS],
    kept: [[NumberSet; 9]; SLOTS],
    turns: [u8; BUCKETS],
}

impl Model for RowCache {
    ghost use Rattle.towers_game.specs.Inner.RowCache.{AreCached};

    // Nobody is told what it holds.
    ghost Value = { Unit {0} };

    ghost view = { λ k. tt };

    ghost invariant = { λ k. AreCached k.widths k.clues k.sets k.kept };
}

impl Default for RowCache {
    /// Nothing yet: rows of no squares.
    fn default() -> RowCache {
        let nothing = [NumberSet::empty(); 9];
        RowCache {
            widths: [0; SLOTS],
            clues: [0; SLOTS],
            sets: [nothing; SLOTS],
            kept: [nothing; SLOTS],
            turns: [0; BUCKETS],
        }
    }
}

impl RowFillings for RowCache {
    /// The row is known from then on.
    fn supported(&mut self, sets: &[NumberSet; 9], width: u8, clue: u8) -> [NumberSet; 9] {
        let row = reduced(sets);
        let bucket = bucket_of(&row, clue);
        if let Some(kept) = self.find(bucket, &row, width, clue) {
            return *kept;
        }
        let kept = supported(&row[..width as usize], clue);
        self.note(bucket, &row, width, clue, &kept);
        kept
    }
}

impl RowCache {
    // The sets that are kept of a row, where it is known in one of a bucket's slots.
    fn find(
        &self,
        bucket: usize,
        sets: &[NumberSet; 9],
        width: u8,
        clue: u8,
    ) -> Option<&[NumberSet; 9]>
        requires bucket { bucket < BUCKETS }
        requires width { width ≤ 9 }
        ensures { IfSome result (λ kept. AreKept (take width sets.now) clue kept.now) }
    {
        let first = bucket * WAYS;
        for slot in first..first + WAYS {
            if let Some(kept) = self.find_in(slot, sets, width, clue) {
                return Some(kept);
            }
        }
        None
    }

    // The sets that are kept in a slot, where they are kept of this row, too.
    fn find_in(
        &self,
        slot: usize,
        sets: &[NumberSet; 9],
        width: u8,
        clue: u8,
    ) -> Option<&[NumberSet; 9]>
        requires slot { slot < SLOTS }
        requires width { width ≤ 9 }
        ensures { IfSome result (λ kept. AreKept (take width sets.now) clue kept.now) }
    {
        if self.widths[slot] == width && self.clues[slot] == clue {
            let (kept, most) = (&self.kept[slot], &self.sets[slot]);
            if are_within(kept, sets) && are_within(sets, most) {
                return Some(kept);
            }
        }
        None
    }

    // The row is known from now on, in place of the one of its bucket that was noted longest ago.
    fn note(
        &mut self,
        bucket: usize,
        sets: &[NumberSet; 9],
        width: u8,
        clue: u8,
        kept: &[NumberSet; 9],
    )
        requires bucket { bucket < BUCKETS }
        requires known { IsCached width clue sets.now kept.now }
    {
        let turn = self.turns[bucket];
        self.turns[bucket] = turn.wrapping_add(1);
        self.note_in(
            bucket * WAYS + turn as usize % WAYS,
            sets,
            width,
            clue,
            kept,
        );
    }

    // The slot knows this row from now on, and no longer the one before.
    #[tactic(auto, using(crate::proofs::RowsNoted::one_known))]
    fn note_in(
        &mut self,
        slot: usize,
        sets: &[NumberSet; 9],
        width: u8,
        clue: u8,
        kept: &[NumberSet; 9],
    )
        requires slot { slot < SLOTS }
        requires known { IsCached width clue sets.now kept.now }
    {
        self.widths[slot] = width;
        self.clues[slot] = clue;
        self.sets[slot] = *sets;
        self.kept[slot] = *kept;
    }
}

// The bucket in which a row is looked for and noted: most other rows have another one.
fn bucket_of(sets: &[NumberSet; 9], clue: u8) -> usize
    ensures { result < BUCKETS }
{
    let mut mixed = clue as u32;
    for k in 0..9 {
        let more = mixed.wrapping_add(sets[k].bits() as u32);
        mixed = more.wrapping_mul(SPREAD);
    }
    (mixed >> 16) as usize % BUCKETS
}

// The row without the numbers that stand alone elsewhere in it, which no filling has in a second square: more rows are the same then, and
// there is less to look through.
fn reduced(sets: &[NumberSet; 9]) -> [NumberSet; 9]
    ensures { IsReduced 9 sets.now result }
{
    let lone = lone_numbers(sets);
    let mut row = *sets;
    for k in 0..9 {
        row[k] = without(sets[k], lone);
    }
    row
}

// The set without these numbers; but where it has one number alone, that stays.
fn without(set: NumberSet, lone: NumberSet) -> NumberSet
    ensures { IsWithout set lone result }
{
    set.difference(lone).union(if_single(set))
}

// The numbers that are the only ones of their sets.
fn lone_numbers(sets: &[NumberSet; 9]) -> NumberSet
    ensures { (n : ℕ) → (has_number result n ≡ true) ↔ IsLone 9 sets.now n }
{
    let mut lone = NumberSet::empty();
    for k in 0..9 {
        lone = lone.union(if_single(sets[k]));
    }
    lone
}
