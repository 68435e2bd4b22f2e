//! The starts of a line by levels, each level a set of masks, and how one more value leads on from there.
//!
//! A start's level is the number of towers that it shows. Nothing after the greatest value is seen, so a
//! start with this value has to show all towers of the clue. Such starts, and no others, are at the last
//! level, the one of the clue's number. So a mask can leave out the greatest value. It also leaves out the
//! least, 1, since the number of the other values tells whether a start has it.

ghost use Rattle.std.specs.Prelude.{◌≡◌, ℕ, ◌+◌, ◌-◌, ◌*◌, ◌^◌, ◌<◌, ◌≤◌, ◌↔◌, ◌==◌, ◌&&◌, true, false, count_ones, IsTrue};
ghost use Rattle.number_sets.specs.Sets.{has_number};
ghost use Rattle.tower_lines.specs.Inner.MaskSets.{has_mask, has_at};
ghost use Rattle.tower_lines.specs.Inner.Levels.{AreAdded, AreNoted, AreFew, IsCommon, IsReachedBy, IsReachedFrom};
ghost use Rattle.tower_lines.specs.Inner.Levels.{LacksLeast, LeadsToLevels, IsPassing, IsPassed, IsKeptBy};

use crate::mask_sets::MaskSet;
use number_sets::NumberSet;

/// A set of masks for each level, from 0 to the clue.
pub type Levels<const W: usize> = [MaskSet<W>; 10];

/// Levels without any mask.
pub fn no_levels<const W: usize>() -> Levels<W>
    ensures { (level mask : ℕ) → has_at result level mask ≡ false }
{
    [MaskSet::none(); 10]
}

/// The levels of the start without values, before any place.
pub fn first_levels<const W: usize>(clue: usize) -> Levels<W>
    requires { 0 < W }
    ensures { (level mask : ℕ) → (has_at result level mask ≡ true)
        ↔ ((level ≡ 0) × (mask ≡ 0) × (0 < clue)) }
{
    let mut levels = no_levels();
    if clue > 0 {
        levels[0] = MaskSet::start();
    }
    levels
}

/// Adds masks to a level.
fn add_at<const W: usize>(next: &mut Levels<W>, level: usize, more: &MaskSet<W>)
    requires { level ≤ 9 }
    ensures { AreAdded (λ at mask. (at ≡ level) × (has_mask more.now mask ≡ true)) next.old next.new }
{
    next[level] = next[level].union(more);
}

/// The masks at a level that have so many values.
fn counted<const W: usize>(levels: &Levels<W>, level: usize, count: usize) -> MaskSet<W>
    requires level { level ≤ 9 }
    requires count { count ≤ 8 }
    requires small { W ≤ 2 }
    ensures { (mask : ℕ) → has_mask result mask ≡ (has_at levels.now level mask && (count_ones mask == count)) }
{
    levels[level].of_count(count)
}

/// How many values the mask of a start without the least has: all `place`, or one fewer at the last level.
fn count_without_least(place: usize, last: usize, level: usize) -> usize
    requires some { 0 < place }
    requires level { level ≤ last }
    ensures most { result ≤ place }
    ensures count { (mask : ℕ) → (count_ones mask ≡ result) ↔ LacksLeast place last level mask }
{
    if level == last { place - 1 } else { place }
}

/// The masks at a level to which a value below the greatest leads from the levels. The least is seen if it is
/// the first, and hidden otherwise. Another leads to the last level from that level's masks; and to a level
/// before it from the masks there that hide it, and from those of the level before that don't.
fn reached<const W: usize>(
    levels: &Levels<W>,
    place: usize,
    last: usize,
    value: u8,
    level: usize,
) -> MaskSet<W>
    requires place { place ≤ 8 }
    requires last { last ≤ 9 }
    requires some { 1 ≤ value }
    requires most { value ≤ 6 + W }
    requires first { 1 ≤ level }
    requires level { level ≤ last }
    requires small { W ≤ 2 }
    ensures { (width mask : ℕ) → value < width
        → (has_mask result mask ≡ true) ↔ IsReachedBy place width last (value - 1) levels.now level mask }
{
    if value == 1 {
        return if place > 0 {
            counted(levels, level, count_without_least(place, last, level))
        } else if level < last {
            levels[level - 1]
        } else {
            MaskSet::none()
        };
    }
    let bit = value - 2;
    if level == last {
        return levels[level].with(bit);
    }
    let hiding = levels[level].from(bit);
    hiding.union(&levels[level - 1].below(bit)).with(bit)
}

/// The masks at a level from which a value below the greatest leads to the levels after it.
fn leading<const W: usize>(
    after: &Levels<W>,
    place: usize,
    last: usize,
    value: u8,
    level: usize,
) -> MaskSet<W>
    requires place { place ≤ 8 }
    requires last { last ≤ 9 }
    requires some { 1 ≤ value }
    requires most { value ≤ 6 + W }
    requires level { level ≤ last }
    requires small { W ≤ 2 }
    ensures { (width mask : ℕ) → value < width
        → (has_mask result mask ≡ true) ↔ LeadsToLevels place width last (value - 1) after.now level mask }
{
    if value == 1 {
        return if place > 0 {
            counted(after, level, count_without_least(place, last, level))
        } else if level + 1 < last {
            after[level + 1]
        } else {
            MaskSet::none()
        };
    }
    let bit = value - 2;
    if level == last {
        return after[level].without(bit);
    }
    let hidden = after[level].hiding(bit);
    if level + 1 < last {
        hidden.union(&after[level + 1].showing(bit)).without(bit)
    } else {
        hidden.without(bit)
    }
}

/// Adds the masks to which a value leads from the levels, which are those of starts with as many values as the place says.
fn add_reached<const W: usize>(
    levels: &Levels<W>,
    place: usize,
    width: u8,
    last: usize,
    value: u8,
    next: &mut Levels<W>,
)
    requires place { place < width }
    requires width { width ≤ 7 + W }
    requires last { last ≤ 9 }
    requires some { 1 ≤ value }
    requires most { value ≤ width }
    requires small { W ≤ 2 }
    requires few { AreFew last place levels.now }
    ensures { AreAdded (IsReachedBy place width last (value - 1) levels.now) next.old next.new }
{
    if value < width {
        for level in 1..last.min(place + 1) + 1 {
            add_at(next, level, &reached(levels, place, last, value, level));
        }
    } else if last > 0 {
        add_at(next, last, &levels[last - 1]);
    }
}

/// Adds the masks to which these values lead from the levels, those of the starts with `place` values.
pub fn add_levels<const W: usize>(
    levels: &Levels<W>,
    place: usize,
    width: u8,
    clue: usize,
    values: NumberSet,
    next: &mut Levels<W>,
)
    requires place { place < width }
    requires width { width ≤ 7 + W }
    requires clue { clue ≤ 9 }
    requires small { W ≤ 2 }
    requires few { AreFew clue place levels.now }
    ensures { AreAdded (IsReachedFrom place width clue values levels.now) next.old next.new }
{
    let mut left = values.intersection(NumberSet::up_to(width));
    while let Some(value) = left.least() {
        add_reached(levels, place, width, clue, value, next);
        left = left.difference(NumberSet::one(value));
    }
}

/// Adds those masks of a level that are in a set, and tells whether there are any.
fn add_common<const W: usize>(
    levels: &Levels<W>,
    level: usize,
    set: &MaskSet<W>,
    before: &mut Levels<W>,
) -> bool
    requires { level ≤ 9 }
    ensures before { AreAdded (λ at mask. (at ≡ level) × IsCommon levels.now set.now level mask) before.old before.new }
    ensures some { IsTrue result ↔ ((mask : ℕ) × IsCommon levels.now set.now level mask) }
{
    let common = levels[level].intersection(set);
    before[level] = before[level].union(&common);
    !common.is_empty()
}

/// Adds the masks of the levels from which a value leads to those after it, and tells whether there are any. The levels are those of starts
/// with as many values as the place says.
fn add_leading<const W: usize>(
    levels: &Levels<W>,
    after: &Levels<W>,
    place: usize,
    width: u8,
    last: usize,
    value: u8,
    before: &mut Levels<W>,
) -> bool
    requires place { place < width }
    requires width { width ≤ 7 + W }
    requires last { last ≤ 9 }
    requires some { 1 ≤ value }
    requires most { value ≤ width }
    requires small { W ≤ 2 }
    requires few { AreFew last place levels.now }
    ensures { AreNoted (IsPassing place width last (value - 1) levels.now after.now) before.old before.new result }
{
    if value == width {
        return last > 0 && add_common(levels, last - 1, &after[last], before);
    }
    let mut some = false;
    for level in place.min(1)..last.min(place) + 1 {
        some |= add_common(
            levels,
            level,
            &leading(after, place, last, value, level),
            before,
        );
    }
    some
}

/// Goes back by one square, from the levels after it to those before it, of the starts with `place` values.
/// Puts into `after` those of their masks from which some value leads on, and answers the values that do.
pub fn pass_back<const W: usize>(
    levels: &Levels<W>,
    place: usize,
    after: &mut Levels<W>,
    width: u8,
    clue: usize,
    values: NumberSet,
) -> NumberSet
    requires place { place < width }
    requires width { width ≤ 7 + W }
    requires clue { clue ≤ 9 }
    requires small { W ≤ 2 }
    requires few { AreFew clue place levels.now }
    ensures before { (level mask : ℕ) → (has_at after.new level mask ≡ true)
        ↔ IsPassed place width clue values levels.now after.old level mask }
    ensures kept { (value : ℕ) → (has_number result value ≡ true)
        ↔ IsKeptBy place width clue values levels.now after.old value }
{
    let mut before = no_levels();
    let mut kept = NumberSet::empty();
    let mut left = values.intersection(NumberSet::up_to(width));
    while let Some(value) = left.least() {
        if add_leading(levels, after, place, width, clue, value, &mut before) {
            kept = kept.union(NumberSet::one(value));
        }
        left = left.difference(NumberSet::one(value));
    }
    *after = before;
    kept
}
