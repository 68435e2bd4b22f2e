//! Save files of the collection, version 1: their records, saving and loading a session.
//!
//! A save file is a list of records. `load` plays its state records on a real session and `save` writes a session's moves, so
//! a session that is saved loads back equal. No record is copied to be looked at, and both are linear in the text.
//!
//! ```
//! let text = save(alloc, &session)?;
//! let again = load::<Towers>(alloc, &text)?;
//! assert_eq!(rt; again.board(), session.board());
//! ```
#![tactic(auto)]

mod fault;
mod key;
mod loading;
mod met;
mod record;
mod save_format;
mod save_laws;
mod save_round;
mod saving;

pub use fault::LoadFault;
pub use loading::load;
pub use record::{Record, next_record};
pub use save_format::MOST_BYTES;
pub use save_laws::laws;
pub use save_round::saved_and_loaded;
pub use saving::save;
