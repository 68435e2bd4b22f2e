//! Fair games: for each game, size, grade and seed one puzzle, or none, that follows by the steps of its grade without a guess,
//! asks for more than the grade below, and has no item too many of those that are tried.
//!
//! A seed gives a stream of random words, and the stream gives draws: a Latin square, row by row, and an order of items of its
//! full puzzle. Each of these is tried once, in that order: it goes if the rest still follows by the grade. `fair` is the
//! pruned puzzle of the first draw that gives one of the grade. Nothing here takes memory.
//!
//! ```
//! let size = Size::new(9).ok_or("no such width")?;
//! let puzzle = fair::<Towers>(size, Grade::Hard, 20261125)?;
//! assert!(rt; grade_of(&puzzle) == Some(Grade::Hard));
//! ```
#![tactic(auto)]

mod draws;
mod fair_fault;
mod fair_game;
mod games;
mod laws_of_games;
mod pruning;
mod square;
mod thinning;
mod trial;

pub use fair_fault::FairFault;
pub use fair_game::FairGame;
pub use games::{fair, grade_of_letter, is_offered, seeded};
pub use laws_of_games::fair_laws;
pub use thinning::{is_spare_by, thinned_by};
pub use trial::Trial;
