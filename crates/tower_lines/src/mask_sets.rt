//! Sets of masks of values. Bit k of a mask stands for the value k + 2, since the least value is in no mask.

ghost use Rattle.std.specs.Prelude.{◌≡◌, ℕ, ◌+◌, ◌-◌, ◌*◌, ◌^◌, ◌<◌, ◌≤◌, ◌==◌, ◌&&◌, ◌||◌, true, false, not, length};
ghost use Rattle.std.specs.Prelude.{nat_le, nat_lt, List, count_ones};
ghost use Rattle.std.specs.Bool.{MatchBool};
ghost use Rattle.number_sets.specs.Sets.{has_number};
ghost use Rattle.tower_lines.specs.Inner.MaskSets.{has_mask};

use std::marker::Model;

// The numbers below 64 that have each of the six lowest bits, as the bits of a word.
const WITH_BIT: [u64; 6] = [
    0xaaaa_aaaa_aaaa_aaaa,
    0xcccc_cccc_cccc_cccc,
    0xf0f0_f0f0_f0f0_f0f0,
    0xff00_ff00_ff00_ff00,
    0xffff_0000_ffff_0000,
    0xffff_ffff_0000_0000,
];

// The masks below 128 that have so many values, from none to eight, as the words of a set.
const WITH_COUNT: [[u64; 2]; 9] = [
    [0x0000_0000_0000_0001, 0x0000_0000_0000_0000],
    [0x0000_0001_0001_0116, 0x0000_0000_0000_0001],
    [0x0001_0116_0116_1668, 0x0000_0001_0001_0116],
    [0x0116_1668_1668_6880, 0x0001_0116_0116_1668],
    [0x1668_6880_6880_8000, 0x0116_1668_1668_6880],
    [0x6880_8000_8000_0000, 0x1668_6880_6880_8000],
    [0x8000_0000_0000_0000, 0x6880_8000_8000_0000],
    [0x0000_0000_0000_0000, 0x8000_0000_0000_0000],
    [0x0000_0000_0000_0000, 0x0000_0000_0000_0000],
];

// The masks below 128 whose values are all lower than that of a bit, from the first bit to the ninth, as the words of a set.
const BELOW_BIT: [[u64; 2]; 9] = [
    [0x0000_0000_0000_0001, 0x0000_0000_0000_0000],
    [0x0000_0000_0000_0003, 0x0000_0000_0000_0000],
    [0x0000_0000_0000_000f, 0x0000_0000_0000_0000],
    [0x0000_0000_0000_00ff, 0x0000_0000_0000_0000],
    [0x0000_0000_0000_ffff, 0x0000_0000_0000_0000],
    [0x0000_0000_ffff_ffff, 0x0000_0000_0000_0000],
    [0xffff_ffff_ffff_ffff, 0x0000_0000_0000_0000],
    [0xffff_ffff_ffff_ffff, 0xffff_ffff_ffff_ffff],
    [0xffff_ffff_ffff_ffff, 0xffff_ffff_ffff_ffff],
];

/// A set of masks below 64 times `W`: bit b of word i stands for the mask 64 * i + b, so that one value more or less moves
/// all masks of a word at once. Contracts see the words, of which `has_mask` tells the masks.
#[derive(Clone, Copy)]
pub struct MaskSet<const W: usize> {
    words: [u64; W],
}

impl<const W: usize> Model for MaskSet<W> {
    ghost Value = { List ℕ };

    ghost view = { λ s. s.words };

    ghost inverse = { λ l. record { words = l } };
}

impl<const W: usize> MaskSet<W> {
    /// The set of no mask.
    pub fn none() -> Self
        ensures { (m : ℕ) → has_mask result m ≡ false }
    {
        MaskSet { words: [0; W] }
    }

    /// The set of the mask of no value alone.
    pub fn start() -> Self
        requires { 0 < W }
        ensures { (m : ℕ) → has_mask result m ≡ (m == 0) }
    {
        let mut words = [0; W];
        words[0] = 1;
        MaskSet { words }
    }

    /// The masks that are in either set.
    pub fn union(&self, other: &Self) -> Self
        ensures { (m : ℕ) → has_mask result m ≡ (has_mask self.now m || has_mask other.now m) }
    {
        let mut words = [0; W];
        for i in 0..W {
            words[i] = self.words[i] | other.words[i];
        }
        MaskSet { words }
    }

    /// The masks that are in both sets.
    pub fn intersection(&self, other: &Self) -> Self
        ensures { (m : ℕ) → has_mask result m ≡ (has_mask self.now m && has_mask other.now m) }
    {
        Self::common(&self.words, &other.words)
    }

    /// Whether the set has no mask.
    pub fn is_empty(&self) -> bool
        ensures { MatchBool result ((m : ℕ) → has_mask self.now m ≡ false) ((m : ℕ) × (has_mask self.now m ≡ true)) }
    {
        for i in 0..W {
            if self.words[i] != 0 {
                return false;
            }
        }
        true
    }

    /// The masks with no value greater than that of the bit, which was seen if it came last.
    pub fn showing(&self, bit: u8) -> Self
        requires bit { bit < 8 }
        requires small { W ≤ 2 }
        ensures { (m : ℕ) → has_mask result m ≡ (has_mask self.now m && nat_lt m (2 ^ (bit + 1))) }
    {
        self.below(bit + 1)
    }

    /// The masks with a value greater than that of the bit, which was hidden if it came last.
    pub fn hiding(&self, bit: u8) -> Self
        requires bit { bit < 8 }
        requires small { W ≤ 2 }
        ensures { (m : ℕ) → has_mask result m ≡ (has_mask self.now m && nat_le (2 ^ (bit + 1)) m) }
    {
        self.from(bit + 1)
    }

    /// The masks that have so many values.
    pub fn of_count(&self, count: usize) -> Self
        requires count { count ≤ 8 }
        requires small { W ≤ 2 }
        ensures { (m : ℕ) → has_mask result m ≡ (has_mask self.now m && (count_ones m == count)) }
    {
        Self::common(&self.words, &WITH_COUNT[count])
    }

    /// The masks whose values are all lower than that of the bit.
    pub fn below(&self, bit: u8) -> Self
        requires bit { bit ≤ 8 }
        requires small { W ≤ 2 }
        ensures { (m : ℕ) → has_mask result m ≡ (has_mask self.now m && nat_lt m (2 ^ bit)) }
    {
        Self::common(&self.words, &BELOW_BIT[usize::from(bit)])
    }

    /// The masks that have a value no lower than that of the bit.
    pub fn from(&self, bit: u8) -> Self
        requires bit { bit ≤ 8 }
        requires small { W ≤ 2 }
        ensures { (m : ℕ) → has_mask result m ≡ (has_mask self.now m && nat_le (2 ^ bit) m) }
    {
        Self::apart(&self.words, &BELOW_BIT[usize::from(bit)])
    }

    // The masks of the words that are in the others, too.
    fn common(words: &[u64; W], others: &[u64]) -> Self
        requires { W ≤ length others.now }
        ensures { (m : ℕ) → has_mask result m ≡ (has_mask words.now m && has_mask others.now m) }
    {
        let mut both = [0; W];
        for i in 0..W {
            both[i] = words[i] & others[i];
        }
        MaskSet { words: both }
    }

    // The masks of the words that are not in the others.
    fn apart(words: &[u64; W], others: &[u64]) -> Self
        requires { W ≤ length others.now }
        ensures { (m : ℕ) → has_mask result m ≡ (has_mask words.now m && not (has_mask others.now m)) }
    {
        let mut rest = [0; W];
        for i in 0..W {
            rest[i] = words[i] & !others[i];
        }
        MaskSet { words: rest }
    }

    /// The masks of the set that lack the bit, with the bit put in.
    pub fn with(&self, bit: u8) -> Self
        requires bit { bit < 5 + W }
        requires small { W ≤ 2 }
        ensures { (m : ℕ) → has_mask result m ≡ (has_number m bit && has_mask self.now (m - 2 ^ bit)) }
    {
        if bit < 6 {
            self.with_low(bit)
        } else {
            self.with_last()
        }
    }

    // `with` for a bit below 6: masks stay in their words.
    fn with_low(&self, bit: u8) -> Self
        requires { bit < 6 }
        ensures { (m : ℕ) → has_mask result m ≡ (has_number m bit && has_mask self.now (m - 2 ^ bit)) }
    {
        let shift = 1u32 << bit;
        let having = WITH_BIT[usize::from(bit)];
        let mut words = [0; W];
        for i in 0..W {
            words[i] = (self.words[i] << shift) & having;
        }
        MaskSet { words }
    }

    // `with` for bit 6 in a set of two words: masks go from the first word to the second.
    fn with_last(&self) -> Self
        requires { W ≡ 2 }
        ensures { (m : ℕ) → has_mask result m ≡ (has_number m 6 && has_mask self.now (m - 2 ^ 6)) }
    {
        let mut words = [0; W];
        words[1] = self.words[0];
        MaskSet { words }
    }

    /// The masks of the set that have the bit, with the bit taken out.
    pub fn without(&self, bit: u8) -> Self
        requires bit { bit < 5 + W }
        requires small { W ≤ 2 }
        ensures { (m : ℕ) → has_mask result m
            ≡ (not (has_number m bit) && has_mask self.now (m + 2 ^ bit)) }
    {
        if bit < 6 {
            self.without_low(bit)
        } else {
            self.without_last()
        }
    }

    // `without` for a bit below 6: masks stay in their words.
    fn without_low(&self, bit: u8) -> Self
        requires { bit < 6 }
        ensures { (m : ℕ) → has_mask result m
            ≡ (not (has_number m bit) && has_mask self.now (m + 2 ^ bit)) }
    {
        let shift = 1u32 << bit;
        let lacking = !WITH_BIT[usize::from(bit)];
        let mut words = [0; W];
        for i in 0..W {
            words[i] = (self.words[i] >> shift) & lacking;
        }
        MaskSet { words }
    }

    // `without` for bit 6 in a set of two words: masks go from the second word to the first.
    fn without_last(&self) -> Self
        requires { W ≡ 2 }
        ensures { (m : ℕ) → has_mask result m ≡ (not (has_number m 6) && has_mask self.now (m + 2 ^ 6)) }
    {
        let mut words = [0; W];
        words[0] = self.words[1];
        MaskSet { words }
    }
}
