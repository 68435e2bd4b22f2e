//! The items of an Unequal puzzle, and how they are numbered.

ghost use Rattle.std.specs.Prelude.{◌≡◌, ◌*◌, ◌<◌};
ghost use Rattle.unequal_game.specs.Unequal.{item_at, unequal_items};
ghost use Rattle.unequal_game.specs.Inner.UnequalItems.{HasPlace, item_cell};

use latin_board::Size;

/// A sign that a square has towards its right or its lower neighbour, or its given.
#[derive(Clone, Copy)]
pub(super) enum Item {
    RightSign(usize),
    LowerSign(usize),
    Given(usize),
}

/// How many items a puzzle of a size can have.
pub(super) fn item_count(size: Size) -> usize
    ensures { result ≡ unequal_items size }
{
    let width = size.get() as usize;
    2 * width * (width - 1) + width * width
}

/// The item of a number: each row's signs come first, from the top and the left, then those below each square, and then
/// the givens in reading order.
#[tactic(auto, using(crate::specs::Laws::UnequalItems::has_place))]
pub(super) fn item_at(size: Size, i: usize) -> Item
    requires { i < unequal_items size }
    ensures value { result ≡ item_at size i }
    ensures inside { item_cell result < size * size }
    ensures place { HasPlace size result }
{
    let width = size.get() as usize;
    let across = width * (width - 1);
    if i < across {
        Item::RightSign(i / (width - 1) * width + i % (width - 1))
    } else if i < 2 * across {
        Item::LowerSign(i - across)
    } else {
        Item::Given(i - 2 * across)
    }
}
