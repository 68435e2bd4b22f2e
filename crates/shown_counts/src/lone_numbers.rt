//! Rows without the numbers that stand alone in another square: no filling has a number twice.
ghost use Rattle.std.specs.Prelude.{◌≡◌, ◌↔◌, ℕ, ◌≤◌, true, List, take};
ghost use Rattle.number_sets.specs.Sets.{has_number, IsSingle};
ghost use Rattle.tower_lines.specs.LineFillings.{IsFilling};
ghost use Rattle.shown_counts.specs.Inner.Lone.{AreLone, IsWithout};

use number_sets::NumberSet;

/// The row whose squares lose the numbers that stand alone in another one. It has the same fillings, and fewer counts seem possible then.
pub(crate) fn without_lone(row: &[NumberSet; 9], width: u8) -> [NumberSet; 9]
    requires { width ≤ 9 }
    ensures { (line : List ℕ) (count : ℕ)
        → IsFilling (take width row.now) count line ↔ IsFilling (take width result) count line }
{
    let lone = lone_numbers(row, width);
    let mut rest = *row;
    for k in 0..width as usize {
        rest[k] = without(row[k], lone);
    }
    rest
}

// The numbers that are the only ones of their squares.
fn lone_numbers(row: &[NumberSet; 9], width: u8) -> NumberSet
    requires { width ≤ 9 }
    ensures { AreLone width row.now result }
{
    let mut lone = NumberSet::empty();
    for k in 0..width as usize {
        lone = lone.union(if_single(row[k]));
    }
    lone
}

// The set where it has just one number, and otherwise none.
fn if_single(set: NumberSet) -> NumberSet
    ensures { (number : ℕ) → has_number result number ≡ true → IsSingle set number }
{
    if !set.is_single() {
        return NumberSet::empty();
    }
    set
}

// The set without these numbers; but where it has one number alone, that stays.
fn without(set: NumberSet, lone: NumberSet) -> NumberSet
    ensures { IsWithout set lone result }
{
    if set.is_single() {
        return set;
    }
    set.difference(lone)
}
