//! A save: bytes take the place of a file, by a new file beside it.

ghost use Rattle.std.specs.Prelude.{◌≡◌, ◌≢◌, ◌⊎◌, Some, None, [], IsSome, OnOk, OnErr, IsErrOf};
ghost use Rattle.safe_save.specs.Folder.{Same, TouchedBoth, LeavesOnly, KeepsFaults, HasFailed, NoWider, WidensNoOther};
ghost use Rattle.safe_save.specs.Save.{IsStored, IsLeftBeside, IsGivenUp, IsCleared, KeepsName, KeepsPath, KeepsBeside};
ghost use Rattle.safe_save.specs.Save.{FillFailed, IsOldOrNew, IsAtEither, ReadAsEither, TouchesOnly};

use crate::folder::{Folder, FolderCall, FolderFault};

/// Why a save failed, and where the bytes are.
#[derive(Clone, Copy, Debug, PartialEq, Eq)]
pub enum SaveFault {
    /// The name of the new file is the path's, or something stands there. Nothing has changed.
    Taken,
    /// The new file wasn't made, filled or flushed. The old file stands.
    NotSaved,
    /// The new file has the bytes, and didn't take the old one's place.
    LeftBeside,
    /// The path has the bytes, and a crash may still leave the old ones.
    NotFlushed,
}

/// Makes these bytes the content of the file at the path, by a new file `beside` it.
///
/// `Taken`: `beside` is the path, or something stands there. `NotSaved`: the new file could not be made, filled or flushed, and
/// is taken away again. `LeftBeside`: it could not take the old file's place, and stays with the bytes. `NotFlushed`: it has
/// taken that place, and a crash may still leave the old file.
///
/// Where the folder refuses the rename, the bytes are written over the old file, while the new one keeps them.
pub fn save<F: Folder>(
    folder: &mut F,
    path: &str,
    beside: &str,
    bytes: &[u8],
) -> Result<(), SaveFault>
    // The path has the bytes, and each crash from then on leaves them there.
    ensures saved { F.tells → OnOk result (IsStored path.now bytes.now (F.state folder.new)) }
    ensures flushed { F.tells → IsErrOf result SaveFault.NotFlushed
        → (F.state folder.new).stands path.now ≡ Some bytes.now }

    // Where the name is taken, each name has what it had; where the save is given up, the path has.
    ensures unchanged { F.tells → IsErrOf result SaveFault.Taken
        → Same (F.state folder.old).stands (F.state folder.new).stands }
    ensures kept { F.tells → IsGivenUp result → KeepsName path.now (F.state folder.old) (F.state folder.new) }

    // The bytes stand beside, and the path is as it was, unless a rename was refused and an overwrite failed.
    ensures left { F.tells → IsErrOf result SaveFault.LeftBeside
        → IsLeftBeside path.now beside.now bytes.now (F.state folder.new) }
    ensures left_path { F.tells → IsErrOf result SaveFault.LeftBeside
        → KeepsPath path.now (F.state folder.old) (F.state folder.new) }

    ensures others { F.tells → TouchedBoth beside.now path.now (F.state folder.old).stands (F.state folder.new).stands }
    ensures gone { F.tells → IsCleared result
        → KeepsBeside beside.now (F.state folder.old) (F.state folder.new) }

    // A file at the path is never replaced by one that more may read.
    ensures private { F.tells → NoWider path.now path.now (F.state folder.old) (F.state folder.new) }

    // A crash at any moment of the call leaves the old file or the new one.
    ensures any_moment { F.tells → LeavesOnly (F.state folder.old) (F.state folder.new)
        (IsOldOrNew path.now beside.now bytes.now (F.state folder.old) (F.state folder.new)) }

    // It doesn't give up by itself.
    ensures faults { F.tells → KeepsFaults (F.state folder.old) (F.state folder.new) }
    ensures taken { F.tells → IsErrOf result SaveFault.Taken
        → (beside.now ≡ path.now) ⊎ IsSome ((F.state folder.old).stands beside.now) }
    ensures not_saved { F.tells → IsErrOf result SaveFault.NotSaved
        → FillFailed (F.state folder.old) (F.state folder.new) }
    ensures left_beside { F.tells → IsErrOf result SaveFault.LeftBeside
        → HasFailed FolderCall.Rename (F.state folder.old) (F.state folder.new) }
    ensures not_flushed { F.tells → IsErrOf result SaveFault.NotFlushed
        → HasFailed FolderCall.FlushFolder (F.state folder.old) (F.state folder.new) }
{
    if beside == path {
        return Err(SaveFault::Taken);
    }
    match folder.open_new(beside) {
        Ok(()) => {}
        Err(FolderFault::Taken) => return Err(SaveFault::Taken),
        Err(_) => return Err(SaveFault::NotSaved),
    }
    if fill(folder, path, beside, bytes).is_err() {
        let _ = folder.remove(beside);
        return Err(SaveFault::NotSaved);
    }
    replace(folder, path, beside, bytes)
}

// Fills the new file, which is empty.
fn fill<F: Folder>(
    folder: &mut F,
    path: &str,
    beside: &str,
    bytes: &[u8],
) -> Result<(), FolderFault>
    requires { F.tells → (F.state folder.old).stands beside.now ≡ Some [] }
    ensures filled { F.tells → OnOk result (IsStored beside.now bytes.now (F.state folder.new)) }
    ensures touches { F.tells → TouchesOnly beside.now (F.state folder.old) (F.state folder.new) }
    ensures private { F.tells → OnOk result (NoWider beside.now path.now (F.state folder.old) (F.state folder.new)) }
    ensures readers { F.tells → WidensNoOther beside.now (F.state folder.old) (F.state folder.new) }
    ensures cause { F.tells → OnErr result (FillFailed (F.state folder.old) (F.state folder.new)) }
{
    folder.take_after(beside, path)?;
    folder.write(beside, bytes)?;
    folder.flush(beside)
}

// Puts the new file, which is filled, in the place of the old one.
fn replace<F: Folder>(
    folder: &mut F,
    path: &str,
    beside: &str,
    bytes: &[u8],
) -> Result<(), SaveFault>
    requires apart { beside.now ≢ path.now }
    requires filled { F.tells → IsStored beside.now bytes.now (F.state folder.old) }
    ensures saved { F.tells → OnOk result (IsStored path.now bytes.now (F.state folder.new)) }
    ensures flushed { F.tells → IsErrOf result SaveFault.NotFlushed
        → (F.state folder.new).stands path.now ≡ Some bytes.now }
    ensures tried { IsGivenUp result → ⊥ }
    ensures left { F.tells → IsErrOf result SaveFault.LeftBeside
        → IsLeftBeside path.now beside.now bytes.now (F.state folder.new) }
    ensures left_path { F.tells → IsErrOf result SaveFault.LeftBeside
        → KeepsPath path.now (F.state folder.old) (F.state folder.new) }
    ensures others { F.tells → TouchedBoth beside.now path.now (F.state folder.old).stands (F.state folder.new).stands }
    ensures readers { F.tells → ReadAsEither path.now beside.now (F.state folder.old) (F.state folder.new) }
    ensures gone { F.tells → IsCleared result → ((F.state folder.new).stands beside.now ≡ None)
        ⊎ HasFailed FolderCall.Remove (F.state folder.old) (F.state folder.new) }
    ensures any_moment { F.tells → LeavesOnly (F.state folder.old) (F.state folder.new)
        (IsOldOrNew path.now beside.now bytes.now (F.state folder.old) (F.state folder.new)) }
    ensures faults { F.tells → KeepsFaults (F.state folder.old) (F.state folder.new) }
    ensures left_beside { F.tells → IsErrOf result SaveFault.LeftBeside
        → HasFailed FolderCall.Rename (F.state folder.old) (F.state folder.new) }
    ensures not_flushed { F.tells → IsErrOf result SaveFault.NotFlushed
        → HasFailed FolderCall.FlushFolder (F.state folder.old) (F.state folder.new) }
{
    match folder.rename(beside, path) {
        Ok(()) => match folder.flush_folder(path) {
            Ok(()) => Ok(()),
            Err(_) => Err(SaveFault::NotFlushed),
        },
        Err(FolderFault::Refused) => in_place(folder, path, beside, bytes),
        Err(_) => Err(SaveFault::LeftBeside),
    }
}

// Writes over the old file, and takes the new one away, which is filled.
fn in_place<F: Folder>(
    folder: &mut F,
    path: &str,
    beside: &str,
    bytes: &[u8],
) -> Result<(), SaveFault>
    requires apart { beside.now ≢ path.now }
    requires filled { F.tells → IsStored beside.now bytes.now (F.state folder.old) }
    ensures saved { F.tells → OnOk result (IsStored path.now bytes.now (F.state folder.new)) }
    ensures one_fault { OnErr result (result ≡ Err SaveFault.LeftBeside) }
    ensures left { F.tells → OnErr result (IsStored beside.now bytes.now (F.state folder.new)) }
    ensures others { F.tells → TouchedBoth beside.now path.now (F.state folder.old).stands (F.state folder.new).stands }
    ensures readers { F.tells → NoWider path.now path.now (F.state folder.old) (F.state folder.new) }
    ensures gone { F.tells → OnOk result (((F.state folder.new).stands beside.now ≡ None)
        ⊎ HasFailed FolderCall.Remove (F.state folder.old) (F.state folder.new)) }
    ensures any_moment { F.tells → LeavesOnly (F.state folder.old) (F.state folder.new)
        (IsAtEither path.now beside.now bytes.now) }
    ensures faults { F.tells → KeepsFaults (F.state folder.old) (F.state folder.new) }
    ensures cause { F.tells → OnErr result (HasFailed FolderCall.Overwrite (F.state folder.old) (F.state folder.new)) }
{
    if folder.overwrite(path, bytes).is_err() {
        return Err(SaveFault::LeftBeside);
    }
    let _ = folder.remove(beside);
    Ok(())
}
