//! Whether an item alone is to blame that a puzzle has no solution.

ghost use Rattle.std.specs.Prelude.{◌≡◌, ◌<◌, ◌↔◌, IsTrue};
ghost use Rattle.needed_items.specs.Needed.{HasSome, IsSpare};

use trail_solver::{Answer, Rules, solve};

/// Whether the puzzle has the item, and some grid solves it without the item. It is to be asked of a puzzle with no solution.
pub fn is_blamed<P: Rules>(puzzle: &P, item: usize) -> bool
    requires inside { item < P.items_of (P.puzzle puzzle.now).size }
    ensures { IsTrue result ↔ IsSpare ⟦<P as Rules>⟧ (HasSome ⟦<P as Rules>⟧) puzzle.now item }
{
    let _size = puzzle.size();
    if !puzzle.has_item(item) {
        return false;
    }
    let mut fewer = *puzzle;
    fewer.drop_item(item);
    match solve(&fewer) {
        Answer::None => false,
        Answer::One(_) => true,
        Answer::Several(_, _) => true,
    }
}
