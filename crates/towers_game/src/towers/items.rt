//! The items of a Towers puzzle, its clues and its givens, and the numbers that they say.

ghost use Rattle.std.specs.Prelude.{◌≡◌, ◌*◌, ◌<◌, ◌≤◌, replicate};
ghost use Rattle.towers_game.specs.Towers.{IsTowers, blank_towers, with_clue, with_towers_given};

use crate::towers::{PLACES, Towers};
use latin_board::{Grid, Size};
use needed_items::Items;

impl Towers {
    // Puts a clue at an edge place, 0 for none.
    #[tactic(auto, using(crate::proofs::TowersTables::clue_put))]
    fn put_clue(&mut self, place: usize, clue: u8)
        requires inside { place < 4 * self.old.size }
        requires fits { clue ≤ self.old.size }
        ensures value { self.new ≡ with_clue self.old place clue }
        ensures valid { IsTowers self.new }
    {
        self.clues[place] = clue;
        let _valid = self.clues();
    }

    // Puts a given into a square, 0 for none.
    fn put_given(&mut self, cell: usize, number: u8)
        requires inside { cell < self.old.size * self.old.size }
        requires fits { number ≤ self.old.size }
        ensures value { self.new ≡ with_towers_given self.old cell number }
        ensures valid { IsTowers self.new }
    {
        self.givens.set(cell, number);
        let _valid = self.clues();
    }
}

// The puzzle without any clue or given.
#[tactic(auto, using(crate::proofs::TowersTables::blank_value))]
fn blank_towers(size: Size) -> Towers
    ensures value { result ≡ blank_towers size }
    ensures valid { IsTowers result }
{
    let givens = Grid::blank(size);
    let _valid = givens.size();
    let blank = Towers {
        clues: no_clues(),
        givens,
    };
    let _valid = blank.clues();
    blank
}

fn no_clues() -> [u8; PLACES]
    ensures { result ≡ replicate 36 0 }
{
    [0; PLACES]
}

/// The items are the clues in description order, and then the givens in reading order.
impl Items for Towers {
    ghost use Rattle.towers_game.specs.Towers.{towers_says, towers_most};
    ghost use Rattle.std.specs.Prelude.{◌+◌, ◌*◌, Some, None};
    ghost use Rattle.towers_game.specs.Laws.TowersValues as laws;

    ghost value_of = { towers_says };

    ghost most_of = { towers_most };

    #[tactic(auto, using(crate::specs::Laws::TowersValues::blank_none))]
    fn blank(size: Size) -> Towers {
        blank_towers(size)
    }

    fn item_value(&self, i: usize) -> u8 {
        let count = self.clues().len();
        if i < count {
            self.clues()[i]
        } else {
            self.givens.get(i - count)
        }
    }

    fn most_value(size: Size, _i: usize) -> u8 {
        size.get()
    }

    fn put_item(&mut self, i: usize, value: u8) {
        let count = self.clues().len();
        if i < count {
            self.put_clue(i, value);
        } else {
            self.put_given(i - count, value);
        }
    }

    ghost clue_item_of = { λ w place. Some place };

    ghost given_item_of = { λ w cell. 4 * w + cell };

    ghost sign_item_of = { λ w first second. None };

    fn clue_item(_size: Size, place: u8) -> Option<usize> {
        Some(place as usize)
    }

    fn given_item(size: Size, cell: usize) -> usize {
        4 * size.get() as usize + cell
    }

    fn sign_item(_size: Size, _first: usize, _second: usize) -> Option<usize> {
        None
    }

    ghost given_says = { λ p cell valid inside. laws.given_says p cell };

    ghost clue_says = { λ p place i valid inside is. laws.clue_says p place i inside is };

    ghost has_by_value = { λ p i valid. laws.has_by_value p i };

    ghost value_within = { laws.value_within };

    ghost value_all = { laws.value_all };
}
