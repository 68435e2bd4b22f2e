//! Towers and Unequal for a page in a browser: one function, which answers one line.
//!
//! The page keeps a session as the text of a save, and passes that text with each line. So nothing is kept between two calls: each
//! answer is made of the text and the line alone, and if a call breaks off, a new copy of the code goes on with the text that the page
//! has. The page calls `puzzles_turn`, which stands over this:
//!
//! ```
//! let turn = answer_line(alloc, GameName::Towers, b"", b"new 3:3//////3/////")?;
//! let turn = answer_line(alloc, GameName::Towers, &turn.saved, b"move R0,0,1")?;
//! ```
#![tactic(auto)]

mod exports;
mod outcome;
mod turn;
mod turn_laws;

pub use turn_laws::laws;
