//! The files of the system, as a game loads from them and saves to them.

use crate::load_file::read_file;
use puzzle_cli::{GameFiles, Unwritten};
use safe_save::{Unsaved, save_file};
use std::fs::File;
use std::io;
use std::random::RandomSource;
use std::rt::Files;

/// A file that couldn't be read, and why.
#[derive(Drop)]
pub(crate) struct Unread {
    pub(crate) path: String,
    pub(crate) why: io::Error,
}

/// The files of the system. No contract can say what they hold.
#[derive(Drop)]
pub(crate) struct SystemFiles<'a, R> {
    pub(crate) rt: &'a R,
    /// The last one that couldn't be read, where there was memory for its path.
    pub(crate) unread: Option<Unread>,
}

impl<R: Files<File = File> + RandomSource + AllocGlobal> GameFiles for SystemFiles<'_, R> {
    ghost reads = { λ _ _ _ _ _. Unit {0} };

    ghost writes = { λ _ _ _ _ _. Unit {0} };

    fn read(&mut self, path: &str, most: usize) -> io::Result<Vec<u8>> {
        let read = read_file(self.rt, path, most);
        if let Err(why) = &read {
            let path = String::from_str(self.rt.alloc(), path).ok();
            self.unread = path.map(|path| Unread { path, why: *why });
        }
        read
    }

    fn write(&mut self, path: &str, bytes: &[u8]) -> Result<(), Unwritten> {
        match save_file(self.rt, path, bytes) {
            Ok(()) => Ok(()),
            Err(Unsaved::LeftBeside(path)) => Err(Unwritten::LeftAt(path)),
            Err(Unsaved::Failed(error)) => Err(Unwritten::Failed(error)),
        }
    }
}
