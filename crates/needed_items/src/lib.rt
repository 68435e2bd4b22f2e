//! The items of a puzzle: its clues, signs and givens, each by a number. Of each there is the number that it
//! says and how that is changed (`Items`), and whether it could be left out, or is to blame; and there is the
//! puzzle without those that it can do without.
//!
//! ```
//! let mut puzzle = Towers::blank(size);
//! puzzle.put_item(Towers::given_item(size, 0), 3);
//! if let Answer::One(grid) = solve(&puzzle) {
//!     let fewer = thinned(&puzzle, &grid);
//! }
//! ```
#![tactic(auto)]

mod blame;
mod in_turn;
mod items;
mod needed;
mod order;
mod thinning;

pub use blame::is_blamed;
pub use in_turn::{Test, left_in_turn};
pub use items::Items;
pub use needed::{is_needed, is_spare};
pub use order::Order;
pub use thinning::thinned;
