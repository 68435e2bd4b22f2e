//! The items of a puzzle, the number that each says, and how one is changed: for those who compose puzzles.
ghost use Rattle.std.specs.Prelude.{◌≡◌, ◌≢◌, ℕ, ◌*◌, ◌<◌, ◌≤◌, nat_lt, Option, Some, IfSome};

use latin_board::Size;
use trail_solver::Rules;

/// A game whose puzzles are composed item by item.
///
/// An item says a number: a clue or a given itself, a sign which of its two squares is the greater. 0 is said where the puzzle
/// hasn't the item. By the laws a puzzle is nothing beside its size and what its items say.
pub trait Items: Rules {
    // The number that an item says, 0 where the puzzle hasn't it.
    ghost value_of: { Self → ℕ → ℕ };

    // The most that an item can say in a puzzle of a width.
    ghost most_of: { ℕ → ℕ → ℕ };

    /// The puzzle of this size that has no item.
    fn blank(size: Size) -> Self
        ensures size { (Self.puzzle result).size ≡ size }
        ensures valid { Self.valid result }
        ensures none { (i : ℕ) → i < Self.items_of size → value_of result i ≡ 0 };

    /// The number that the item says, 0 where the puzzle hasn't it; i is below the count.
    fn item_value(&self, i: usize) -> u8
        requires { i < Self.items_of (Self.puzzle self.now).size }
        ensures { result ≡ value_of self.now i };

    /// The most that the item can say; i is below the count.
    fn most_value(size: Size, i: usize) -> u8
        requires { i < Self.items_of size }
        ensures { result ≡ most_of size i };

    /// Lets the item say the value, or takes it away where that is 0, and changes nothing else. i is below the count, and the
    /// value is no more than an item there can say.
    fn put_item(&mut self, i: usize, value: u8)
        requires inside { i < Self.items_of (Self.puzzle self.old).size }
        requires fits { value ≤ most_of (Self.puzzle self.old).size i }
        ensures size { (Self.puzzle self.new).size ≡ (Self.puzzle self.old).size }
        ensures valid { Self.valid self.new }
        ensures one { value_of self.new i ≡ value }
        ensures others { (j : ℕ) → j < Self.items_of (Self.puzzle self.old).size → j ≢ i
            → value_of self.new j ≡ value_of self.old j };

    // The item of the clue at an edge place, of a square's given, and of the sign between two squares, where there is one.
    ghost clue_item_of: { ℕ → ℕ → Option ℕ };

    ghost given_item_of: { ℕ → ℕ → ℕ };

    ghost sign_item_of: { ℕ → ℕ → ℕ → Option ℕ };

    /// The item of the clue at an edge place, which is below four times the width; nothing where the game has no clues.
    fn clue_item(size: Size, place: u8) -> Option<usize>
        requires { place < 4 * size }
        ensures value { result ≡ clue_item_of size place }
        ensures inside { IfSome result (λ i. i < Self.items_of size) };

    /// The item of the given of a square.
    fn given_item(size: Size, cell: usize) -> usize
        requires { cell < size * size }
        ensures value { result ≡ given_item_of size cell }
        ensures inside { result < Self.items_of size };

    /// The item of the sign between two squares, of which the second is the right or the lower neighbour of the first; nothing where
    /// it is neither, or the game has no signs.
    fn sign_item(size: Size, first: usize, second: usize) -> Option<usize>
        requires first { first < size * size }
        requires second { second < size * size }
        ensures value { result ≡ sign_item_of size first second }
        ensures inside { IfSome result (λ i. i < Self.items_of size) };

    // A given says itself, and where a clue stands its item says something.
    ghost given_says: { (p : Self) (cell : ℕ) → Self.valid p → cell < (Self.puzzle p).size * (Self.puzzle p).size
        → value_of p (given_item_of (Self.puzzle p).size cell) ≡ (Self.puzzle p).given cell };

    ghost clue_says: { (p : Self) (place i : ℕ) → Self.valid p → place < 4 * (Self.puzzle p).size
        → clue_item_of (Self.puzzle p).size place ≡ Some i
        → (Self.puzzle p).clued place ≡ nat_lt 0 (value_of p i) };

    // The puzzle has the items that say something.
    ghost has_by_value: { (p : Self) (i : ℕ) → Self.valid p → Self.has p i ≡ nat_lt 0 (value_of p i) };

    // No item says more than it can.
    ghost value_within: { (p : Self) (i : ℕ) → Self.valid p → i < Self.items_of (Self.puzzle p).size
        → value_of p i ≤ most_of (Self.puzzle p).size i };

    // Two puzzles of one size whose items all say the same are one puzzle. So a puzzle with one item changed is the only one
    // that says this there and otherwise what the old one says.
    ghost value_all: { (p q : Self) → Self.valid p → Self.valid q → (Self.puzzle p).size ≡ (Self.puzzle q).size
        → ((i : ℕ) → i < Self.items_of (Self.puzzle p).size → value_of p i ≡ value_of q i) → p ≡ q };
}
