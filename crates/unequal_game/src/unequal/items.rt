//! The items of an Unequal puzzle, its signs and its givens, and the numbers that they say.

ghost use Rattle.std.specs.Prelude.{◌≡◌, ℕ, IfSome, Some, ◌+◌, ◌*◌, ◌%◌, ◌<◌, ◌≤◌, replicate};
ghost use Rattle.unequal_game.specs.Unequal.{IsUnequal, UnequalValue, blank_unequal, item_most, sign_between, sign_item, sign_number, unequal_items, unequal_says};
ghost use Rattle.unequal_game.specs.Inner.UnequalItems.{HasPlace, with_item};

use crate::unequal::Unequal;
use crate::unequal::item::{Item, item_at};
use crate::unequal::sign::Sign;
use latin_board::{CELLS, Grid, Size};
use needed_items::Items;
use trail_solver::Rules;

impl Unequal {
    // Lets an item say a number, 0 for none.
    #[tactic(auto, using(crate::proofs::UnequalTables::sign_in_front, crate::proofs::UnequalTables::right_put, crate::proofs::UnequalTables::below_put))]
    pub(super) fn put(&mut self, item: Item, value: u8)
        requires inside { HasPlace self.old.size item }
        requires fits { value ≤ item_most self.old.size item }
        ensures value { self.new ≡ with_item self.old item value }
        ensures valid { IsUnequal self.new }
    {
        match item {
            Item::RightSign(cell) => self.right[cell] = Sign::numbered(value),
            Item::LowerSign(cell) => self.below[cell] = Sign::numbered(value),
            Item::Given(cell) => self.givens.set(cell, value),
        }
    }
}

// The number of the item of the sign between two squares.
fn number_of_sign(size: Size, first: usize, second: usize) -> Option<usize>
    requires first { first < size * size }
    requires second { second < size * size }
    ensures value { result ≡ sign_item size first second }
    ensures size { (3 ≤ size) × (size ≤ 9) }
{
    let width = size.get() as usize;
    let across = width * (width - 1);
    if second == first + 1 && first % width + 1 < width {
        Some(first / width * (width - 1) + first % width)
    } else if second == first + width {
        Some(across + first)
    } else {
        None
    }
}

// The puzzle without any sign or given.
#[tactic(auto, using(crate::proofs::UnequalTables::blank_value))]
fn blank_unequal(size: Size) -> Unequal
    ensures value { result ≡ blank_unequal size }
    ensures valid { IsUnequal result }
{
    let givens = Grid::blank(size);
    let _valid = givens.size();
    let blank = Unequal {
        right: no_signs(),
        below: no_signs(),
        givens,
    };
    let _valid = blank.givens();
    blank
}

fn no_signs() -> [Sign; CELLS]
    ensures { result ≡ replicate 81 Sign.Absent }
{
    [Sign::Absent; CELLS]
}

/// The items are the signs, each row's from the top and the left, then those below each square, and then the givens in
/// reading order. A sign says 1 where its left or upper square is the greater, and 2 where the other one is.
impl Items for Unequal {
    ghost use Rattle.unequal_game.specs.Unequal.{unequal_says, unequal_most};
    ghost use Rattle.std.specs.Prelude.{None};
    ghost use Rattle.unequal_game.specs.Unequal.{given_item, sign_item};
    ghost use Rattle.unequal_game.specs.Laws.UnequalValues as laws;

    ghost value_of = { unequal_says };

    ghost most_of = { unequal_most };

    #[tactic(auto, using(crate::specs::Laws::UnequalValues::blank_none))]
    fn blank(size: Size) -> Unequal {
        blank_unequal(size)
    }

    fn item_value(&self, i: usize) -> u8 {
        match item_at(self.givens.size(), i) {
            Item::RightSign(cell) => self.right_sign(cell).number(),
            Item::LowerSign(cell) => self.lower_sign(cell).number(),
            Item::Given(cell) => self.givens.get(cell),
        }
    }

    fn most_value(size: Size, i: usize) -> u8 {
        match item_at(size, i) {
            Item::RightSign(_) => 2,
            Item::LowerSign(_) => 2,
            Item::Given(_) => size.get(),
        }
    }

    #[tactic(auto, using(crate::specs::Laws::UnequalValues::put_one, crate::specs::Laws::UnequalValues::put_others))]
    fn put_item(&mut self, i: usize, value: u8) {
        let item = item_at(self.size(), i);
        self.put(item, value);
    }

    ghost clue_item_of = { λ w place. None };

    ghost given_item_of = { given_item };

    ghost sign_item_of = { sign_item };

    fn clue_item(_size: Size, _place: u8) -> Option<usize> {
        None
    }

    #[tactic(auto, using(crate::specs::Laws::UnequalValues::given_item_inside))]
    fn given_item(size: Size, cell: usize) -> usize {
        let width = size.get() as usize;
        2 * (width * (width - 1)) + cell
    }

    /// In each puzzle the item says 1 where the sign says that the first square is the greater, and 2 where the second.
    #[tactic(auto, using(crate::specs::Laws::UnequalValues::sign_item_inside, crate::specs::Laws::UnequalValues::sign_item_says))]
    fn sign_item(size: Size, first: usize, second: usize) -> Option<usize>
        requires first { first < size * size }
        requires second { second < size * size }
        ensures value { result ≡ sign_item size first second }
        ensures inside { IfSome result (λ i. i < unequal_items size) }
        ensures says { (v : UnequalValue) (i : ℕ) → IsUnequal v → v.size ≡ size → result ≡ Some i
            → unequal_says v i ≡ sign_number (sign_between v first second) }
    {
        number_of_sign(size, first, second)
    }

    ghost given_says = { laws.given_says };

    ghost clue_says = { λ p place i valid inside is. laws.clue_says p i is };

    ghost has_by_value = { λ p i valid. laws.has_by_value p i };

    ghost value_within = { laws.value_within };

    ghost value_all = { laws.value_all };
}
