//! A file takes the place of an old one, so that nothing is lost: not if a call fails, nor if the machine stops.
//!
//! [`save`] puts bytes at a path by a new file beside it, in any [`Folder`]: a trait that says what each call does to what
//! stands at each name, and what a crash may leave meanwhile. [`MemoryFolder`] tells all of that, so the contract of `save`
//! says something of each run over it; [`FilesFolder`], the system's, tells nothing. [`save_file`] is the whole way: where a
//! path leads, and then `save`.
//!
//! ```
//! save_file(&rt, "game.sav", text)?;
//! ```
#![tactic(auto)]

mod changes;
mod failures;
mod files;
mod folder;
mod memory;
mod saving;
mod target;

pub use failures::Failing;
pub use files::{FilesFolder, Standing};
pub use folder::{Folder, FolderCall, FolderFault};
pub use memory::MemoryFolder;
pub use saving::{SaveFault, save};
pub use target::{Unsaved, save_file};
