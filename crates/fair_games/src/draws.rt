//! The stream of a fair game, and the orders that are drawn from it.

ghost use Rattle.std.specs.Prelude.{◌≡◌, ℕ, ◌+◌, ◌<◌, ◌≤◌, ◌++◌, length, map, slice_index};
ghost use Rattle.rand_chacha.specs.ChaCha.{of_seed};
ghost use Rattle.puzzle_gen.specs.declared.draws.TheConstants.{MOST_DRAWN};
ghost use Rattle.fair_games.specs.FairGames.{IsTriedIn};
ghost use Rattle.fair_games.specs.Pruned.{IsTrial, IsTried};
ghost use Rattle.fair_games.specs.Squares.{fair_key};
ghost use Rattle.fair_games.specs.Draws.{drawn_trial, in_turn};

use crate::trial::Trial;
use arrayvec::ArrayVec;
use latin_board::Size;
use puzzle_gen::{MOST_DRAWN, draw_numbers};
use rand_chacha::ChaCha20Rng;
use rand_core::{Rng, SeedableRng};

/// The generator of random words of a size, the letter of a grade, the initial of a game, and a seed.
pub(crate) fn rng_of(size: Size, letter: u8, initial: u8, seed: u64) -> ChaCha20Rng
    ensures { result ≡ of_seed (fair_key size letter initial seed) }
{
    let mut key = [0; 32];
    key[..8].copy_from_slice(&seed.to_be_bytes());
    key[8] = size.get();
    key[9] = letter;
    key[10] = initial;
    ChaCha20Rng::from_seed(key)
}

/// Draws an order of the givens and one of the clues (or signs), and puts them together.
pub(crate) fn draw_trial<R: Rng>(
    rng: &mut R,
    trial: Trial,
    clue_count: usize,
    cells: usize,
) -> ArrayVec<u8, MOST_DRAWN>
    requires clues { clue_count ≤ 144 }
    requires cells { cells ≤ 81 }
    ensures trial { IsTrial (clue_count + cells) result.items }
    ensures tried { (i : ℕ) → i < clue_count + cells → IsTriedIn trial clue_count i → IsTried i result.items }
    ensures drawn { (result.items, R.stream rng.new) ≡ drawn_trial trial clue_count cells (R.stream rng.old) }
{
    let givens = draw_numbers(rng, cells);
    let clues = draw_numbers(rng, clue_count);
    put_in_turn(trial, clues.as_slice(), givens.as_slice())
}

// The items of a trial, from orders of the clues (or signs) and of the givens.
fn put_in_turn(trial: Trial, clues: &[u8], givens: &[u8]) -> ArrayVec<u8, MOST_DRAWN>
    requires clues { length clues.now ≤ 144 }
    requires cells { length givens.now ≤ 81 }
    requires givens { (k : ℕ) → k < length givens.now → slice_index givens.now k < length givens.now }
    ensures { result.items ≡ in_turn trial (length clues.now) clues.now givens.now }
{
    let count = clues.len();
    let mut order = ArrayVec::new();
    match trial {
        Trial::GivensAlone => add_items(&mut order, givens, count),
        Trial::GivensFirst => {
            add_items(&mut order, givens, count);
            add_items(&mut order, clues, 0);
        }
        Trial::HalfFirst => {
            let (first, others) = clues.split_at(count / 2);
            add_items(&mut order, first, 0);
            add_items(&mut order, givens, count);
            add_items(&mut order, others, 0);
        }
    }
    order
}

// Adds the items of a list, each so many further on.
fn add_items(order: &mut ArrayVec<u8, MOST_DRAWN>, list: &[u8], further: usize)
    requires room { length order.old.items + length list.now ≤ MOST_DRAWN }
    requires bytes { (k : ℕ) → k < length list.now → slice_index list.now k + further ≤ 255 }
    ensures { order.new.items ≡ order.old.items ++ map (λ i. further + i) list.now }
{
    for k in 0..list.len() {
        order.push(list[k] + further as u8);
    }
}
