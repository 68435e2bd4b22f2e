//! Chains of named steps: why a number follows, step by step.
//!
//! The candidates in view of a grid are a filled square's number, and of an empty one the numbers that don't
//! stand in its row or column (`view_of`); or, of a board with pencil marks, those of them that are marked
//! (`view_on`, `next_hint_from`). From there `next_hint` finds steps that show a number of an empty
//! square, or that leave a square nothing and so refute the grid's numbers, of which none can be left out, by
//! the least grade that leads to such; or it tells that no steps do either. Chains take memory from the heap,
//! and nothing else here does.
//!
//! ```
//! match next_hint(rt.alloc(), &puzzle, &grid)? {
//!     NextHint::Follows { chain, .. } => println!(rt; "{} steps show a number", chain.steps.len())?,
//!     NextHint::Refuted { refutation, .. } => println!(rt; "{} steps refute the numbers", refutation.steps.len())?,
//!     NextHint::Nothing => println!(rt; "nothing follows by steps")?,
//! }
//! ```
#![tactic(auto)]

mod aims;
mod chain;
mod clues_alone;
mod cutting;
mod explaining;
mod first_aims;
mod goals;
mod hints;
mod joining;
mod kinds;
mod layers;
mod needs;
mod next_steps;
mod premises;
mod reasons;
mod replays;
mod seen;
mod shortest;
mod slices;
mod strike_laws;
mod tightening;
mod view;

pub use chain::{Chain, Refutation, Step};
pub use hints::{NextHint, next_hint, next_hint_from};
pub use replays::take_all;
pub use strike_laws::forced_laws;
pub use view::{copied, view_of, view_on};
