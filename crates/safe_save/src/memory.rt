//! A folder over memory, which tells all and fails at chosen calls.

ghost use Rattle.std.specs.Prelude.{◌≡◌, Some, None, option_map, OnOk, OnErr};
ghost use Rattle.safe_save.specs.Folder.{Same, Touched};

use crate::changes::{FolderChange, append, content_of, move_content, put, set_content};
use crate::failures::{FailedCalls, Failing};
use crate::folder::{Folder, FolderCall, FolderFault};
use std::alloc::{AllocError, Global};

/// A folder over memory. It keeps each change that was made, and each is made at once, so that a crash leaves what stands there.
///
/// A call fails where it was chosen to, and where no memory is left.
#[derive(Drop)]
pub struct MemoryFolder {
    alloc: Global,
    changes: Vec<FolderChange>,
    failures: FailedCalls,
}

impl MemoryFolder {
    ghost use Rattle.safe_save.specs.Memory.{contents, failing_of};

    /// An empty folder, whose calls fail as they are chosen to.
    pub fn new(alloc: Global, failing: Failing) -> MemoryFolder
        ensures empty { Same (λ _. None) (contents result) }
        ensures failing { failing_of result ≡ failing }
    {
        MemoryFolder {
            alloc,
            changes: Vec::new(alloc),
            failures: FailedCalls::new(failing),
        }
    }

    /// Puts a file with these bytes under the name, in the place of one that stands there. It counts as no call.
    ///
    /// `AllocError`: no memory is left, and what stands is unchanged.
    pub fn put(&mut self, name: &str, bytes: &[u8]) -> Result<(), AllocError>
        ensures put { OnOk result (contents self.new name.now ≡ Some bytes.now) }
        ensures others { Touched name.now (contents self.old) (contents self.new) }
        ensures err { OnErr result (Same (contents self.old) (contents self.new)) }
        ensures failing { failing_of self.new ≡ failing_of self.old }
    {
        put(self.alloc, &mut self.changes, name, bytes)
    }

    /// The bytes of the file under the name, or `None` where nothing stands there.
    pub fn content(&self, name: &str) -> Option<&[u8]>
        ensures { option_map (λ bytes. bytes.now) result ≡ contents self.now name.now }
    {
        content_of(&self.changes, name)
    }
}

impl Folder for MemoryFolder {
    ghost use Rattle.std.specs.Prelude.{refl};
    ghost use Rattle.safe_save.specs.Memory.{memory_state, stands_now, only_last};

    ghost tells = { Unit {0} };

    ghost state = { memory_state };

    ghost may_stand = { λ folder tells name. refl };

    ghost counts_now = { λ folder t f tells le now. stands_now folder.changes.items t f le now };

    ghost only_now = { λ folder f tells left. only_last folder.changes.items f left };

    fn open_new(&mut self, name: &str) -> Result<(), FolderFault> {
        self.failures
            .count_call(FolderCall::OpenNew, self.changes.len())?;
        if content_of(&self.changes, name).is_some() {
            return Err(
                self.failures.fail(FolderCall::OpenNew, FolderFault::Taken, self.changes.len()),
            );
        }
        match put(self.alloc, &mut self.changes, name, &[]) {
            Ok(()) => Ok(()),
            Err(AllocError) => Err(
                self.failures.fail(FolderCall::OpenNew, FolderFault::Failed, self.changes.len()),
            ),
        }
    }

    /// `Failed` also where nothing stands at the name.
    fn write(&mut self, name: &str, bytes: &[u8]) -> Result<(), FolderFault> {
        self.failures
            .count_call(FolderCall::Write, self.changes.len())?;
        if content_of(&self.changes, name).is_none() {
            return Err(
                self.failures
                    .fail(FolderCall::Write, FolderFault::Failed, self.changes.len()),
            );
        }
        match append(self.alloc, &mut self.changes, name, bytes) {
            Ok(()) => Ok(()),
            Err(AllocError) => Err(
                self.failures
                    .fail(FolderCall::Write, FolderFault::Failed, self.changes.len()),
            ),
        }
    }

    fn take_after(&mut self, _name: &str, _path: &str) -> Result<(), FolderFault> {
        self.failures
            .count_call(FolderCall::TakeAfter, self.changes.len())
    }

    fn flush(&mut self, _name: &str) -> Result<(), FolderFault> {
        self.failures
            .count_call(FolderCall::Flush, self.changes.len())
    }

    /// `Failed` also where nothing stands at `from`.
    fn rename(&mut self, from: &str, to: &str) -> Result<(), FolderFault> {
        self.failures
            .count_call(FolderCall::Rename, self.changes.len())?;
        if self.failures.refuses_rename {
            return Err(
                self.failures.fail(FolderCall::Rename, FolderFault::Refused, self.changes.len()),
            );
        }
        if content_of(&self.changes, from).is_none() {
            return Err(
                self.failures.fail(FolderCall::Rename, FolderFault::Failed, self.changes.len()),
            );
        }
        match move_content(self.alloc, &mut self.changes, from, to) {
            Ok(()) => Ok(()),
            Err(AllocError) => Err(
                self.failures.fail(FolderCall::Rename, FolderFault::Failed, self.changes.len()),
            ),
        }
    }

    fn overwrite(&mut self, name: &str, bytes: &[u8]) -> Result<(), FolderFault> {
        self.failures
            .count_call(FolderCall::Overwrite, self.changes.len())?;
        match put(self.alloc, &mut self.changes, name, bytes) {
            Ok(()) => Ok(()),
            Err(AllocError) => Err(
                self.failures.fail(
                    FolderCall::Overwrite,
                    FolderFault::Failed,
                    self.changes.len(),
                ),
            ),
        }
    }

    fn remove(&mut self, name: &str) -> Result<(), FolderFault> {
        self.failures
            .count_call(FolderCall::Remove, self.changes.len())?;
        match set_content(self.alloc, &mut self.changes, name, None) {
            Ok(()) => Ok(()),
            Err(AllocError) => Err(
                self.failures.fail(FolderCall::Remove, FolderFault::Failed, self.changes.len()),
            ),
        }
    }

    fn flush_folder(&mut self, _path: &str) -> Result<(), FolderFault> {
        self.failures
            .count_call(FolderCall::FlushFolder, self.changes.len())
    }
}
