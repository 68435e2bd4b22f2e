//! The file that a path leads to, and how a save is put there.
//!
//! A call by a name has room for that name on the stack. Functions that make such calls aren't inlined, so
//! that few have theirs at once.

ghost use Rattle.std.specs.Prelude.{◌≡◌, length, map, string_bytes, IfErr, IfOk, OnOk};
ghost use Rattle.safe_save.specs.Folder.{NoWider};
ghost use Rattle.safe_save.specs.Save.{IsStored};
ghost use Rattle.safe_save.specs.Targets.{HasItsCause, IsToldOfUnsaved};

use crate::files::{FilesFolder, Standing, folder_of};
use crate::folder::Folder;
use crate::saving::{SaveFault, save};
use std::fs::{File, Files, Metadata, OpenOptions};
use std::io::{ErrorKind, Write};
use std::os::unix::fs::MetadataExt;
use std::path::{Path, PathBuf};
use std::random::RandomSource;
use std::{fs, io};

/// How many links in a row are followed, as many as the system follows.
const MOST_LINKS: u32 = 40;

/// How many names are tried for the new file, each of which is free unless somebody guessed it.
const MOST_NAMES: usize = 4;

/// The names of the descriptors that this process holds open.
const DESCRIPTORS: &str = "/proc/self/fd";

/// The bit of a descriptor's name that says that it is open for writing.
const OPEN_TO_WRITE: u32 = 0o200;

/// Why a file was not saved.
#[derive(Debug, Drop)]
pub enum Unsaved {
    /// The system's error. The path has what it had; or all is done, and a crash could bring back the old.
    Failed(io::Error),
    /// The new file couldn't take its place. The whole save stands at this path.
    LeftBeside(String),
}

impl From<io::Error> for Unsaved {
    ghost use Rattle.std.specs.Prelude.{◌≡◌};
    ghost use Rattle.safe_save.specs.declared.target.Unsaved.TheVariants.{Failed};

    ghost from_gives = { λ error unsaved. unsaved ≡ Failed error };

    fn from(error: io::Error) -> Unsaved {
        Unsaved::Failed(error)
    }
}

/// Makes these bytes the content of the file at the path. No clause can say so of the system's files: what is told here is tried from
/// outside.
///
/// A pipe, a device, and a file that is open here for writing are written after what went there before. Links at the end of the
/// path stay. `LeftBeside`: the whole save stands beside it, as `.puzzles.` and 16 hexadecimal digits and `.tmp`. `Failed`: what stood
/// there stands there; or all is done, and a crash could bring back what stood there. The system's `OutOfMemory` comes before any change.
pub fn save_file<R>(rt: &R, path: &str, bytes: &[u8]) -> Result<(), Unsaved>
where
    R: Files<File = File> + RandomSource + AllocGlobal,
{
    let standing = match fs::metadata(rt, path) {
        Ok(found) if found.is_file() && is_open(rt, &found)? => return Ok(append(rt, path, bytes)?),
        Ok(found) if found.is_file() => Standing::File(found),
        Ok(found) if found.is_dir() => Standing::Unclear,
        Ok(_) => return Ok(append(rt, path, bytes)?),
        Err(error) if error.kind() == ErrorKind::NotFound => Standing::Nothing,
        Err(_) => Standing::Unclear,
    };
    match end_of_links(rt, path)? {
        Some(target) => replace(rt, target.as_str(), bytes, standing),
        None => replace(rt, path, bytes, Standing::Unclear),
    }
}

// Whether one of the descriptors that this process may write to is of this file.
#[inline(never)]
fn is_open<R: Files + AllocGlobal>(rt: &R, target: &Metadata) -> io::Result<bool> {
    let Ok(descriptors) = fs::read_dir(&rt, DESCRIPTORS) else {
        return Ok(false);
    };
    for descriptor in descriptors {
        let descriptor = match descriptor {
            Ok(descriptor) => descriptor,
            Err(error) if error.kind() == ErrorKind::OutOfMemory => return Err(error),
            // An answer that can't be had is no reason not to save.
            Err(_) => return Ok(false),
        };
        let path = descriptor.path();
        let (Ok(link), Ok(file)) = (
            fs::symlink_metadata(rt, path.as_str()),
            fs::metadata(rt, path.as_str()),
        ) else {
            continue;
        };
        if link.mode() & OPEN_TO_WRITE != 0
            && file.dev() == target.dev()
            && file.ino() == target.ino()
        {
            return Ok(true);
        }
    }
    Ok(false)
}

// Writes what stands at the path, after all that is there.
#[inline(never)]
fn append(rt: &impl Files, path: &str, bytes: &[u8]) -> io::Result<()> {
    OpenOptions::new()
        .append(true)
        .open(rt, path)?
        .write_all(bytes)
}

// Where the path leads past the links at its end; `None` where that can't be told, or where they have no end.
#[inline(never)]
fn end_of_links<R: Files + AllocGlobal>(rt: &R, path: &str) -> io::Result<Option<PathBuf>> {
    let mut target = PathBuf::from_str(rt.alloc(), path)?;
    for _ in 0..MOST_LINKS {
        match fs::symlink_metadata(rt, target.as_str()) {
            Ok(found) if found.is_symlink() => {}
            Ok(_) => return Ok(Some(target)),
            Err(error) if error.kind() == ErrorKind::NotFound => return Ok(Some(target)),
            Err(_) => return Ok(None),
        }
        let link = match fs::read_link(rt, target.as_str()) {
            Ok(link) => link,
            Err(error) if error.kind() == ErrorKind::OutOfMemory => return Err(error),
            Err(_) => return Ok(None),
        };
        target = Path::new(folder_of(target.as_str())).join(rt.alloc(), link.as_str())?;
    }
    Ok(None)
}

// Saves by a new file, under a name that nobody can know beforehand.
#[inline(never)]
fn replace<R>(rt: &R, path: &str, bytes: &[u8], standing: Standing) -> Result<(), Unsaved>
where
    R: Files<File = File> + RandomSource + AllocGlobal,
{
    let names = fresh_names(rt, path)?;
    let mut folder = FilesFolder::new(rt, standing);
    save_beside(&mut folder, path, names, bytes)
}

// Saves in any folder so, under the first of the names that isn't taken. An error of the kind `Other` tells that a call of the folder
// failed, one of the kind `AlreadyExists` that each of the names was taken.
fn save_beside<F: Folder>(
    folder: &mut F,
    path: &str,
    names: Vec<String>,
    bytes: &[u8],
) -> Result<(), Unsaved>
    ensures saved { F.tells → OnOk result (IsStored path.now bytes.now (F.state folder.new)) }
    ensures unsaved { F.tells → IfErr result (λ fault.
        IsToldOfUnsaved path.now bytes.now (F.state folder.old) (F.state folder.new) fault) }
    ensures cause { F.tells → IfErr result (λ fault.
        HasItsCause path.now (map string_bytes names.items) (F.state folder.old) (F.state folder.new) fault) }
    ensures private { F.tells → NoWider path.now path.now (F.state folder.old) (F.state folder.new) }
{
    for beside in names {
        match save(folder, path, beside.as_str(), bytes) {
            Ok(()) => return Ok(()),
            Err(SaveFault::Taken) => {}
            Err(SaveFault::LeftBeside) => return Err(Unsaved::LeftBeside(beside)),
            Err(SaveFault::NotSaved | SaveFault::NotFlushed) => {
                return Err(Unsaved::Failed(io::Error::from(ErrorKind::Other)));
            }
        }
    }
    Err(Unsaved::Failed(io::Error::from(ErrorKind::AlreadyExists)))
}

// Names in the folder of the path, each with a random part.
fn fresh_names<R: RandomSource + AllocGlobal>(rt: &R, path: &str) -> io::Result<Vec<String>>
    ensures { IfOk result (λ names. length names.items ≡ MOST_NAMES) }
{
    let mut names = Vec::new(rt.alloc());
    for _ in 0..MOST_NAMES {
        names.push(fresh_name(rt, path)?)?;
    }
    Ok(names)
}

// A name in the folder of the path, with a random part.
fn fresh_name<R: RandomSource + AllocGlobal>(rt: &R, path: &str) -> io::Result<String> {
    let mut random = [0; 8];
    rt.fill_bytes(&mut random)?;
    let number = u64::from_be_bytes(random);
    let folder = folder_of(path);
    Ok(format!(in rt.alloc(); "{folder}/.puzzles.{number:016x}.tmp")?)
}
