//! Seeded puzzles: for each game, size up to 6 and seed one puzzle, with exactly one solution and no item that it could do without.
//!
//! A seed gives a stream of random words, the stream gives a Latin square and an order of the items, and `generate` tries
//! each item of the square's full puzzle once, in that order: it goes where the rest still has just one solution. `square`
//! is the square alone, and `draw_numbers` an order of the first numbers from any stream. Nothing here takes memory.
//!
//! ```
//! let params = Params::read::<Towers>(b"5")?;
//! let puzzle = generate::<Towers>(&params, 7)?;
//! assert!(rt; solves(&puzzle, &square(params.size, 7)));
//! ```
#![tactic(auto)]

mod draws;
mod gen_fault;
mod generator;
mod pruning;
mod seeded_square;

pub use draws::{MOST_DRAWN, draw_numbers};
pub use gen_fault::GenFault;
pub use generator::generate;
pub use seeded_square::square;
