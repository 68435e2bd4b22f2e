//! The files that the words of a command line name.

ghost use Rattle.std.specs.Prelude.{◌≡◌, ◌≤◌, ℕ, List, Option, Result, Ok, Err, option_map, vec_items, vec_len, IfOk, IfErr, OnOk};
ghost use Rattle.std.specs.Result.{result_err};
ghost use Rattle.std.specs.declared.io.Error.{Error};
ghost use Rattle.puzzle_cli.specs.Faults.{fault_status};
ghost use Rattle.puzzle_cli.specs.GameFiles.{IsToldAs, IsToldOfUnwritten, Loads, Saves};
ghost use Rattle.puzzle_cli.specs.declared.program.game_files.Unwritten.{Unwritten};

use crate::fault::Fault;
use play_save::MOST_BYTES;
use std::io;

/// The most bytes that are asked for of a file to load: one more than a save may have, so that a longer file shows as too large.
const MOST_READ: usize = MOST_BYTES + 1;

/// Why a file wasn't written.
#[derive(Debug, Drop)]
pub enum Unwritten {
    /// The system's error.
    Failed(io::Error),
    /// The bytes stand at this path, and couldn't take the place of the file.
    LeftAt(String),
}

/// Where a game is loaded from and saved to.
pub trait GameFiles {
    // The outcomes of a read of the file at a path, up to so many bytes: bytes or an error, and the new
    // files.
    ghost reads: { Self → List ℕ → ℕ → Result (List ℕ) Error → Self → Type 0 };

    // The outcomes of a write of bytes to the file at a path: nothing, or why it failed, and the files after.
    ghost writes: { Self → List ℕ → List ℕ → Option Unwritten → Self → Type 0 };

    /// The bytes of the file at the path, no more than its first `most`.
    fn read(&mut self, path: &str, most: usize) -> io::Result<Vec<u8>>
        ensures bound { IfOk result (λ bytes. vec_len bytes ≤ most) }
        ensures ok { IfOk result (λ bytes. reads self.old path.now most (Ok bytes.items) self.new) }
        ensures err { IfErr result (λ error. reads self.old path.now most (Err error) self.new) };

    /// Makes the bytes the content of the file at the path.
    fn write(&mut self, path: &str, bytes: &[u8]) -> Result<(), Unwritten>
        ensures { writes self.old path.now bytes.now (result_err result) self.new };
}

/// The bytes of the file to load, where there is one. `LoadFile` or `OutOfMemory` where it can't be read.
pub(crate) fn load_file<F: GameFiles>(
    files: &mut F,
    path: &Option<String>,
) -> Result<Option<Vec<u8>>, Fault>
    ensures loaded { IfOk result (λ bytes.
        Loads F.reads path.now files.old (Ok (option_map vec_items bytes)) files.new) }
    ensures why { IfErr result (λ fault. Loads F.reads path.now files.old (Err fault) files.new) }
    ensures status { IfErr result (λ fault. fault_status fault ≡ 1) }
{
    let Some(path) = path else {
        return Ok(None);
    };
    match files.read(path.as_str(), MOST_READ) {
        Ok(bytes) => Ok(Some(bytes)),
        Err(error) => Err(told_as(Fault::LoadFile, &error)),
    }
}

/// Writes the text, if there is one, to the file to save to. `SaveFile` or `OutOfMemory` where it can't be written.
pub(crate) fn save_file<F: GameFiles>(
    files: &mut F,
    path: &Option<String>,
    text: &Option<Vec<u8>>,
) -> Result<(), Fault>
    ensures saved { OnOk result (Saves F.writes path.now (option_map vec_items text.now)
        files.old (Ok tt) files.new) }
    ensures why { IfErr result (λ fault. Saves F.writes path.now (option_map vec_items text.now)
        files.old (Err fault) files.new) }
    ensures status { IfErr result (λ fault. fault_status fault ≡ 1) }
{
    let (Some(path), Some(text)) = (path, text) else {
        return Ok(());
    };
    match files.write(path.as_str(), text) {
        Ok(()) => Ok(()),
        Err(why) => Err(told_of(why)),
    }
}

// The fault for bytes that weren't written.
fn told_of(why: Unwritten) -> Fault
    ensures told { IsToldOfUnwritten why result }
    ensures status { fault_status result ≡ 1 }
{
    match why {
        Unwritten::LeftAt(path) => Fault::SaveFile(Some(path)),
        Unwritten::Failed(error) => told_as(Fault::SaveFile(None), &error),
    }
}

// The fault for an error: this one, where the error isn't a want of memory.
fn told_as(other: Fault, error: &io::Error) -> Fault
    requires { fault_status other ≡ 1 }
    ensures told { IsToldAs other error.now result }
    ensures status { fault_status result ≡ 1 }
{
    if error.kind() == io::ErrorKind::OutOfMemory {
        Fault::OutOfMemory
    } else {
        other
    }
}
