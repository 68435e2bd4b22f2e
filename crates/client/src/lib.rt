//! A client of the library, written from its public calls alone: a third game, and a source and a sink of its own. `call_tests` makes
//! each call of the library at this game, in sessions and in runs (`third_game`).
//!
//! The game is plain: a Latin square of which some numbers are given. docs/THIRD_GAME.md explains what each of its members owes.
//!
//! ```
//! let session = begin::<Latin>(alloc, Some(b"3:123000000"), None)?;
//! let mut tape = Tape::of(b"move R0,1,2\nshow\n");
//! let mut sheet = Sheet::new(alloc);
//! let (session, end) = run(alloc, session, &mut tape, &mut sheet);
//! ```
#![tactic(auto)]

mod latin;
mod sheet;
mod tape;

pub use latin::Latin;
pub use sheet::Sheet;
pub use tape::Tape;
