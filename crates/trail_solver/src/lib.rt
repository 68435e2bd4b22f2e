//! Candidates of a Latin square's squares with a trail, and a solver for every puzzle on a Latin square.
//!
//! `Candidates` has a bit set for each square and a trail of what was removed, so a guess is taken back without a copy.
//! A game writes `Rules`: its size, givens and clues, how it narrows candidates, and the laws that generic code builds
//! on. Of that alone `solves` tells whether a grid is a solution, `solve` whether there are none, one or several,
//! `completion` the same of those that keep what stands on a grid, `has_other` whether there is another than a known one, and
//! `solutions` lists the first of them in order. Only `solutions` takes memory.
//!
//! ```
//! match solve(&puzzle) {
//!     Answer::None => println!(rt; "no solution")?,
//!     Answer::One(grid) => assert!(rt; solves(&puzzle, &grid)),
//!     Answer::Several(first, second) => assert!(rt; first != second),
//! }
//! ```
#![tactic(auto)]

mod answer;
mod candidates;
mod choice;
mod completions;
mod crowds;
mod guessing;
mod listing;
mod narrowing;
mod pairing;
mod rules;
mod search;
mod shaving;
mod solver;
mod squares;
mod trail;

pub use answer::Answer;
pub use candidates::{Candidates, Mark};
pub use completions::{completion, grid_candidates};
pub use listing::{MOST_LISTED, solutions};
pub use rules::{Rules, solves};
pub use solver::{has_other, solve};
