//! Towers: a Latin square with clues at its edges, each of which says how many towers are seen from there.
//!
//! `Towers` is a puzzle, with its rules, what its clues strike, and its description.
#![tactic(auto)]

mod towers;

pub use towers::Towers;
pub use towers::clue_rows::{Look, looked_row};
