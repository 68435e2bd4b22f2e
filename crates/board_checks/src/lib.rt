//! The errors of a board's numbers in its puzzle. Nothing here takes memory from the heap.
//!
//! A square is an error where its number stands a second time in its row or column. A spot, an edge clue or a sign, is one
//! where no numbers in the blank squares of its line could meet it. A game writes `Demands`, as Towers and Unequal do here;
//! of that alone `errors` tells which squares and spots are errors. Where one is, no solution has the board's numbers, and
//! a full board with the puzzle's givens has none only where it is a solution.
//!
//! ```
//! let found = errors(&puzzle, board.grid());
//! if found.is_repeated(4) || found.is_broken(Spot::Edge { place: 0 }) {
//!     println!(rt; "this can't be right")?;
//! }
//! ```
#![tactic(auto)]

mod board_errors;
mod checks;
mod demands;
mod repeats;
mod spot;
mod towers;
mod unequal;

pub use board_errors::BoardErrors;
pub use checks::errors;
pub use demands::Demands;
pub use spot::Spot;
