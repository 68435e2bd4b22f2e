//! A folder of the system's files. It tells nothing of what stands there, since no contract can say what a file holds: what the
//! comments here say of files is trusted, and tried from outside.
//!
//! All that is done to the new file is done by its descriptor: a name can be made to lead elsewhere between two calls.
//!
//! A call by a name has room for that name on the stack. Functions that make such calls aren't inlined, so
//! that few have theirs at once.

use crate::{Folder, FolderFault};
use std::fs::{File, Files, Metadata, OpenOptions, Permissions};
use std::io::{ErrorKind, Write};
use std::os::unix::fs::{MetadataExt, OpenOptionsExt, PermissionsExt, fchown};
use std::path::Path;
use std::{fs, io};

/// The bits of reading, writing and running a file, without those that lend its owner's or group's rights to
/// users who run it.
const RIGHTS: u32 = 0o777;

/// The state of the place where a save is to go.
#[derive(Drop)]
pub enum Standing {
    /// Nothing: a new file may be made there.
    Nothing,
    /// This file, which a new one may replace if it may be written.
    File(Metadata),
    /// Something else, or what can't be told. It is never replaced, but written in place if it may be.
    Unclear,
}

/// A folder of the system's files, for one save.
#[derive(Drop)]
pub struct FilesFolder<'a, R: Files<File = File>> {
    files: &'a R,
    standing: Standing,
    new: Option<File>,
}

impl<'a, R: Files<File = File>> FilesFolder<'a, R> {
    /// The folder of a path where this stands.
    pub fn new(files: &'a R, standing: Standing) -> Self {
        FilesFolder {
            files,
            standing,
            new: None,
        }
    }

    // Whether a new file may take the place of what stands at the path.
    #[inline(never)]
    fn may_replace(&self, path: &str) -> bool {
        match &self.standing {
            Standing::Nothing => true,
            Standing::File(_) => OpenOptions::new()
                .write(true)
                .open(self.files, path)
                .is_ok(),
            Standing::Unclear => false,
        }
    }
}

impl<R: Files<File = File>> Folder for FilesFolder<'_, R> {
    ghost use Rattle.safe_save.specs.Folder.{untold};

    ghost tells = { ⊥ };

    ghost state = { λ _. untold };

    #[inline(never)]
    fn open_new(&mut self, name: &str) -> Result<(), FolderFault> {
        // A user who may not see the old file may not see the new one.
        let mode = match &self.standing {
            Standing::Nothing => 0o666,
            Standing::File(_) | Standing::Unclear => 0o600,
        };
        let opened = OpenOptions::new()
            .write(true)
            .create_new(true)
            .mode(mode)
            .open(self.files, name);
        match opened {
            Ok(file) => {
                self.new = Some(file);
                Ok(())
            }
            Err(error) if error.kind() == ErrorKind::AlreadyExists => Err(FolderFault::Taken),
            Err(error) => Err(fault_of(&error)),
        }
    }

    fn write(&mut self, _name: &str, bytes: &[u8]) -> Result<(), FolderFault> {
        match &mut self.new {
            Some(file) => file.write_all(bytes).map_err(|error| fault_of(&error)),
            None => Err(FolderFault::Failed),
        }
    }

    fn take_after(&mut self, _name: &str, _path: &str) -> Result<(), FolderFault> {
        match (&self.new, &self.standing) {
            (Some(file), Standing::File(old)) => {
                give_rights(file, old).map_err(|error| fault_of(&error))
            }
            (Some(_), Standing::Nothing | Standing::Unclear) => Ok(()),
            (None, _) => Err(FolderFault::Failed),
        }
    }

    fn flush(&mut self, _name: &str) -> Result<(), FolderFault> {
        match &self.new {
            Some(file) => file.sync_all().map_err(|error| fault_of(&error)),
            None => Err(FolderFault::Failed),
        }
    }

    #[inline(never)]
    fn rename(&mut self, from: &str, to: &str) -> Result<(), FolderFault> {
        if !self.may_replace(to) {
            return Err(FolderFault::Refused);
        }
        fs::rename(self.files, from, to).map_err(|error| fault_of(&error))
    }

    fn overwrite(&mut self, name: &str, bytes: &[u8]) -> Result<(), FolderFault> {
        overwrite(self.files, name, bytes).map_err(|error| fault_of(&error))
    }

    #[inline(never)]
    fn remove(&mut self, name: &str) -> Result<(), FolderFault> {
        fs::remove_file(self.files, name).map_err(|error| fault_of(&error))
    }

    fn flush_folder(&mut self, path: &str) -> Result<(), FolderFault> {
        flush_folder(self.files, folder_of(path)).map_err(|error| fault_of(&error))
    }

    ghost may_stand = { λ folder told. absurd told };

    ghost counts_now = { λ folder t f told. absurd told };

    ghost only_now = { λ folder f told. absurd told };
}

// `Refused` for what the system forbids here and may allow in another way, and otherwise `Failed`.
fn fault_of(error: &io::Error) -> FolderFault {
    match error.kind() {
        ErrorKind::PermissionDenied | ErrorKind::ResourceBusy | ErrorKind::CrossesDevices => {
            FolderFault::Refused
        }
        _ => FolderFault::Failed,
    }
}

/// The folder that a path's last part stands in.
pub(crate) fn folder_of(path: &str) -> &str {
    match Path::new(path).parent() {
        Some(folder) if !folder.as_str().is_empty() => folder.as_str(),
        _ => ".",
    }
}

// Gives a new file the group, the owner and the rights of the old one, as far as this user may.
fn give_rights(file: &File, old: &Metadata) -> io::Result<()> {
    let made = file.metadata()?;
    let keeps_group = made.gid() == old.gid() || fchown(file, None, Some(old.gid())).is_ok();
    if made.uid() != old.uid() {
        // Only root may give a file away. Where that is refused, the file is the user's.
        let _ = fchown(file, Some(old.uid()), None);
    }
    let rights = rights_of(old.mode(), keeps_group);
    if file.metadata()?.mode() & RIGHTS == rights {
        return Ok(());
    }
    file.set_permissions(Permissions::from_mode(rights))
}

// The rights of the new file. Where it hasn't the old one's group, its group has none, and since those of the old group
// are now among all others, these have no more than that group had.
fn rights_of(mode: u32, keeps_group: bool) -> u32 {
    let rights = mode & RIGHTS;
    if keeps_group {
        rights
    } else {
        rights & 0o700 | rights & (rights >> 3) & 0o007
    }
}

// Writes over what stands there, or makes it where nothing does after all, and waits until the disk has it.
#[inline(never)]
fn overwrite(files: &impl Files<File = File>, name: &str, bytes: &[u8]) -> io::Result<()> {
    let opened = OpenOptions::new()
        .write(true)
        .truncate(true)
        .open(files, name);
    match opened {
        Ok(file) => fill(file, bytes),
        Err(error) if error.kind() == ErrorKind::NotFound => {
            fill(File::create(files, name)?, bytes)?;
            flush_folder(files, folder_of(name))
        }
        Err(error) => Err(error),
    }
}

// Writes the bytes to the file, and waits until the disk has them.
fn fill(file: File, bytes: &[u8]) -> io::Result<()> {
    let mut file = file;
    file.write_all(bytes)?;
    file.sync_all()
}

// Waits until the disk has a folder's names. A folder that can't be asked is passed over.
#[inline(never)]
fn flush_folder(files: &impl Files<File = File>, folder: &str) -> io::Result<()> {
    let folder = match File::open(files, folder) {
        Ok(folder) => folder,
        Err(error) if error.kind() == ErrorKind::PermissionDenied => return Ok(()),
        Err(error) => return Err(error),
    };
    match folder.sync_all() {
        Err(error) if cannot_be_asked(error.kind()) => Ok(()),
        flushed => flushed,
    }
}

// Whether the system says that a folder of this kind can't be flushed.
fn cannot_be_asked(kind: ErrorKind) -> bool {
    matches!(
        kind,
        ErrorKind::InvalidInput | ErrorKind::Unsupported | ErrorKind::ReadOnlyFilesystem
    )
}
