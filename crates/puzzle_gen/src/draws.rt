//! The stream of a seed, and what is drawn from a stream: orders of the first numbers.

ghost use Rattle.std.specs.Prelude.{◌≡◌, ◌≤◌, length, IsPermutation};
ghost use Rattle.std.specs.List.{range_with_len};
ghost use Rattle.rand_chacha.specs.ChaCha.{of_seed};
ghost use Rattle.puzzle_gen.specs.declared.draws.TheConstants.{MOST_DRAWN};
ghost use Rattle.puzzle_gen.specs.Orders.{IsOrder};
ghost use Rattle.puzzle_gen.specs.SeededSquares.{key_bytes, drawn_order};

use arrayvec::ArrayVec;
use rand::seq::SliceRandom;
use rand_chacha::ChaCha20Rng;
use rand_core::{Rng, SeedableRng};

/// The most numbers that are drawn: as many as an Unequal puzzle of size 9 has signs and givens.
pub const MOST_DRAWN: usize = 225;

/// The generator of random words of a seed.
pub(crate) fn rng_of(seed: u64) -> ChaCha20Rng
    ensures { result ≡ of_seed (key_bytes seed) }
{
    let mut key = [0; 32];
    key[..8].copy_from_slice(&seed.to_be_bytes());
    ChaCha20Rng::from_seed(key)
}

/// The numbers below the count, in an order that is drawn.
pub fn draw_numbers<R: Rng>(rng: &mut R, count: usize) -> ArrayVec<u8, MOST_DRAWN>
    requires { count ≤ MOST_DRAWN }
    ensures permutation { IsPermutation (range_with_len 0 count) result.items }
    ensures order { IsOrder count result.items }
    ensures drawn { (result.items, R.stream rng.new) ≡ drawn_order count (R.stream rng.old) }
{
    let mut numbers = first_numbers(count);
    draw_order(rng, numbers.as_mut_slice());
    numbers
}

// The numbers below the count.
fn first_numbers(count: usize) -> ArrayVec<u8, MOST_DRAWN>
    requires { count ≤ MOST_DRAWN }
    ensures { result.items ≡ range_with_len 0 count }
{
    let mut numbers = ArrayVec::new();
    for number in 0..count {
        numbers.push(number as u8);
    }
    numbers
}

/// Puts the numbers from 0 up into an order that is drawn.
pub(crate) fn draw_order<R: Rng>(rng: &mut R, numbers: &mut [u8])
    requires { numbers.old ≡ range_with_len 0 (length numbers.old) }
    ensures permutation { IsPermutation numbers.old numbers.new }
    ensures drawn { (numbers.new, R.stream rng.new)
        ≡ drawn_order (length numbers.old) (R.stream rng.old) }
{
    numbers.shuffle(rng);
}
