//! Towers and Unequal, with all that a client of the library needs of them: their puzzles, rules and items, steps, parameters,
//! descriptions and game IDs.
//!
//! Nothing is defined here. The games are `towers_game` and `unequal_game`, what is the same of both is in `line_steps` (reasons,
//! grades and steps), in `game_texts` (parameters, descriptions and IDs) and in `needed_items` (`Items`), and this crate gives their
//! words on.
//!
//! A game ID is read, its puzzle solved, and its description written:
//!
//! ```
//! if let GameId::Described(params, puzzle) = read_id::<Towers>(b"3de:3//////3/////")? {
//!     let width = params.size.get();
//!     let answer = solve(&puzzle);
//!     let text = puzzle.write_desc(alloc)?;
//! }
//! ```
#![tactic(auto)]

pub use game_texts::{Game, GameId, IdFault, MOST_ITEMS, Params, read_id};
pub use line_steps::{
    Grade, Reason, Steps, alone_values, has_no_other_place, narrow_by_givens, settle, strike,
    view_cell,
};
pub use needed_items::Items;
pub use towers_game::{Look, Towers, looked_row};
pub use unequal_game::Unequal;
