//! Lines of towers: the towers seen along a line, the values that each square of a line with a
//! clue can take, and whether there are any.
//!
//! [`seen`] goes along the line once. [`supported`] goes over the sets of used values twice, 64 of them at a time: for each square,
//! each of its candidates and each number of towers up to the clue it takes a step or two over the words that hold the sets, one word for up to
//! 8 squares, and two for 9. [`has_filling`] first makes a guess at a filling, in some w * w steps, and goes over these sets once only
//! where it is none. None of the three takes memory from the heap.
//!
//! ```
//! let shown = seen(&[2, 1, 3]);                       // 2
//! let left = supported(&[NumberSet::up_to(3); 3], 3); // 1, 2 and 3 alone, and then empty sets
//! let none = has_filling(&[NumberSet::one(1); 3], 1); // false, since no value stands twice
//! ```
#![tactic(auto)]

mod levels;
mod likely_lines;
mod line_checks;
mod line_fillings;
mod mask_sets;
mod towers_seen;

pub use line_fillings::{has_filling, supported};
pub use towers_seen::seen;
