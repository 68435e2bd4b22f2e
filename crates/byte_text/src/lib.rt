//! Shared parts of the readers of texts: cutting at a separator, and decimal numbers without leading zeros.
//!
//! Texts are bytes. Nothing here takes memory, and each function goes over its text once.
//!
//! ```
//! let (clues, squares) = cut(b"3//,a1", b',');  // "3//" and Some("a1")
//! let seed = number(b"42", u64::MAX);           // Some(42)
//! let none = number(b"042", u64::MAX);          // None
//! ```
#![tactic(auto)]

mod decimal;
mod pieces;

pub use decimal::{begins_with_digit, number};
pub use pieces::cut;
