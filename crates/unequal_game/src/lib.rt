//! Unequal: a Latin square with signs between neighbours, each of which says which of the two is the greater.
//!
//! `Unequal` is a puzzle, with its rules, what its signs strike, and its description.
#![tactic(auto)]

mod unequal;

pub use unequal::Unequal;
