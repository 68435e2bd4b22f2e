//! The mid-end of Latin square puzzles: moves and their texts, and a session with undo, redo and restart.
//!
//! It knows no game: all that differs between games goes through `Game`. A session owns its history, which is the list of
//! the moves, and shows one board. Beside each move stands the one change that takes it back or makes it again.
//!
//! ```
//! let mut session = Session::new(alloc, params, params, puzzle, extras)?;
//! session.play(read_move(b"R0,0,1")?)?;
//! session.undo()?;
//! assert_eq!(rt; session.board().digit(0), 0);
//! session.redo()?;
//! assert_eq!(rt; session.position(), 2);
//! ```
#![tactic(auto)]

mod extras;
mod fault;
mod moves;
mod session;
mod session_laws;
mod step;
mod texts;

pub use extras::Extras;
pub use fault::PlayFault;
pub use moves::Move;
pub use session::{MOST_STATES, Session};
pub use session_laws::{laws, move_list_laws};
pub use step::change_of;
pub use texts::{read_move, write_move};
