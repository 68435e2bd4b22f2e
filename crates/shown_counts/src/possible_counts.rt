//! The counts that a row can show at all, by the tallest tower of each start alone: so most counts that no filling shows are known at once.
ghost use Rattle.std.specs.Prelude.{◌≡◌, ℕ, ◌+◌, ◌<◌, ◌≤◌, true, List, take, slice_index};
ghost use Rattle.number_sets.specs.Sets.{has_number};
ghost use Rattle.tower_lines.specs.LineFillings.{IsFilling};
ghost use Rattle.shown_counts.specs.Inner.Possible.{IsOneLonger};

use number_sets::NumberSet;

// For each height from which on a next tower is seen, the counts that starts show.
type Starts = [NumberSet; 11];

/// All counts that fillings of a row show, and maybe others: it may have a number twice.
pub(crate) fn possible_counts(row: &[NumberSet; 9], width: u8) -> NumberSet
    requires { width ≤ 9 }
    ensures { (line : List ℕ) (count : ℕ) → IsFilling (take width row.now) count line
        → has_number result count ≡ true }
{
    let mut starts = [NumberSet::empty(); 11];
    starts[0] = NumberSet::one(0);
    for place in 0..width {
        // No filling has a number twice, so the tallest of its first towers is as tall as they are many, or taller.
        starts = one_longer(&starts, row[place as usize], place + 1);
    }
    union_of(&starts, 11)
}

// The starts with a number of the set more, as far as their tallest tower then has this height at least.
fn one_longer(starts: &Starts, set: NumberSet, low: u8) -> Starts
    requires { low ≤ 9 }
    ensures { IsOneLonger low set starts.now result }
{
    let mut longer = [NumberSet::empty(); 11];
    let mut lower = union_of(starts, low as usize);
    for height in low..10 {
        lower = lower.union(starts[height as usize]);
        let hidden = hidden_by(starts[height as usize + 1], set, height);
        longer[height as usize + 1] = hidden.union(seen_after(lower, set, height));
    }
    longer
}

// The counts of starts whose tallest tower has this height, where the set has a number up to it.
fn hidden_by(counts: NumberSet, set: NumberSet, height: u8) -> NumberSet
    requires { height < 15 }
    ensures { (k count : ℕ) → k ≤ height → has_number set k ≡ true → has_number counts count ≡ true
        → has_number result count ≡ true }
{
    if set.at_most(height).is_empty() {
        return NumberSet::empty();
    }
    counts
}

// One more than the counts of starts whose towers are all below this height, where the set has it.
fn seen_after(counts: NumberSet, set: NumberSet, height: u8) -> NumberSet
    requires { height < 16 }
    ensures { (count : ℕ) → count < 15 → has_number set height ≡ true → has_number counts count ≡ true
        → has_number result (count + 1) ≡ true }
{
    if !set.has(height) {
        return NumberSet::empty();
    }
    counts.raised()
}

// The counts of the first so many entries.
fn union_of(starts: &Starts, end: usize) -> NumberSet
    requires { end ≤ 11 }
    ensures { (k count : ℕ) → k < end → has_number (slice_index starts.now k) count ≡ true
        → has_number result count ≡ true }
{
    let mut counts = NumberSet::empty();
    for k in 0..end {
        counts = counts.union(starts[k]);
    }
    counts
}
