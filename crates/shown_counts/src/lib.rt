//! The counts of towers that a clue's line shows with a number in one of its squares.
//!
//! Where a clue rules a number out, these counts say why: the clue isn't among them. `ClueCounts::of` looks at the line of a reason's clue
//! by what the reason knows of it, and `shows` gives the counts for numbers of a square: it asks count by count whether a filling has the
//! number there. Nothing here takes memory from the heap.
//!
//! ```
//! if let Some(counts) = ClueCounts::of(&candidates, Reason::Clue { place: 0 }) {
//!     let shows = counts.shows(4, NumberSet::one(5));  // shows[5]: the counts with a 5 in the square 4
//! }
//! ```
#![tactic(auto)]

mod clue_counts;
mod lone_numbers;
mod possible_counts;

pub use clue_counts::ClueCounts;
