//! The texts by which a game is named: its parameters and its game IDs, with descriptions that the game reads and writes (`Game`).
//!
//! They are read alike for every game, but that one game of the collection has an adjacent mode. No game is known here.
#![tactic(auto)]

mod game;
mod game_id;
mod id_fault;
mod params;

pub use game::{Game, MOST_ITEMS};
pub use game_id::{GameId, read_id};
pub use id_fault::IdFault;
pub use params::Params;
