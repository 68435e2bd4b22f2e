//! The duties of a folder, and the fault that its calls answer.

ghost use Rattle.std.specs.Prelude.{◌≡◌, ◌≢◌, ◌≤◌, ℕ, Some, None, [], IsSome, OnOk, OnErr, IsErrOf};
ghost use Rattle.safe_save.specs.Folder.{Image, FolderState, Same, Touched, TouchedBoth, Appended, Moved, MayMove};
ghost use Rattle.safe_save.specs.Folder.{LeavesChanged, IsDurable, Elapses, HasCause, NoWider, WidensNone, WidensNoOther};

/// Why a call of a folder failed.
#[derive(Clone, Copy, Debug, PartialEq, Eq)]
pub enum FolderFault {
    /// Something stands at the name already, where a new file was to be.
    Taken,
    /// The call isn't allowed here, where another way may be.
    Refused,
    /// Any other cause.
    Failed,
}

/// The kinds of calls of a folder, by which its failures are told apart.
#[derive(Clone, Copy, Debug, PartialEq, Eq)]
pub enum FolderCall {
    /// [`Folder::open_new`]
    OpenNew,
    /// [`Folder::write`]
    Write,
    /// [`Folder::take_after`]
    TakeAfter,
    /// [`Folder::flush`]
    Flush,
    /// [`Folder::rename`]
    Rename,
    /// [`Folder::overwrite`]
    Overwrite,
    /// [`Folder::remove`]
    Remove,
    /// [`Folder::flush_folder`]
    FlushFolder,
}

/// Where files stand, each under its name.
///
/// A type of folders tells what stands in them and what a crash may leave of that, or it tells nothing, and then the
/// clauses say nothing. A fault is told only where the call has failed.
pub trait Folder {
    // Whether folders of this type tell what stands in them.
    ghost tells: { Type 0 };

    // The state that a folder tells.
    ghost state: { Self → FolderState };

    /// Makes a new empty file under a name at which nothing stands.
    ///
    /// `Taken`: something stands there. After any fault what stands is unchanged.
    fn open_new(&mut self, name: &str) -> Result<(), FolderFault>
        ensures free { tells → OnOk result ((state self.old).stands name.now ≡ None) }
        ensures made { tells → OnOk result ((state self.new).stands name.now ≡ Some []) }
        ensures kept { tells → OnErr result (Same (state self.old).stands (state self.new).stands) }
        ensures taken { tells → IsErrOf result FolderFault.Taken
            → IsSome ((state self.old).stands name.now) }
        ensures others { tells → Touched name.now (state self.old).stands (state self.new).stands }
        ensures crash { tells → LeavesChanged (Touched name.now) (state self.old) (state self.new) }
        ensures time { tells → Elapses (Touched name.now) (state self.old) (state self.new) }
        ensures readers { tells → WidensNone (state self.old) (state self.new) }
        ensures cause { tells → HasCause FolderCall.OpenNew (state self.old) (state self.new) result };

    /// Writes all the bytes to the end of the new file that was opened last under the name.
    ///
    /// After a fault anything may stand at the name.
    fn write(&mut self, name: &str, bytes: &[u8]) -> Result<(), FolderFault>
        ensures written { tells → OnOk result (Appended name.now bytes.now
            (state self.old).stands (state self.new).stands) }
        ensures others { tells → Touched name.now (state self.old).stands (state self.new).stands }
        ensures crash { tells → LeavesChanged (Touched name.now) (state self.old) (state self.new) }
        ensures time { tells → Elapses (Touched name.now) (state self.old) (state self.new) }
        ensures readers { tells → WidensNone (state self.old) (state self.new) }
        ensures cause { tells → HasCause FolderCall.Write (state self.old) (state self.new) result };

    /// Gives the new file under the name the owner, the group and the mode of the file at the path, where one stands, so that
    /// nobody may read the one who may not read the other.
    ///
    /// No content changes, after a fault neither.
    fn take_after(&mut self, name: &str, path: &str) -> Result<(), FolderFault>
        ensures kept { tells → Same (state self.old).stands (state self.new).stands }
        ensures crash { tells → LeavesChanged (Touched name.now) (state self.old) (state self.new) }
        ensures time { tells → Elapses (Touched name.now) (state self.old) (state self.new) }
        ensures rights { tells → OnOk result (NoWider name.now path.now (state self.old) (state self.new)) }
        ensures readers { tells → WidensNoOther name.now (state self.old) (state self.new) }
        ensures cause { tells → HasCause FolderCall.TakeAfter (state self.old) (state self.new) result };

    /// Puts what stands at the name where a crash leaves it.
    ///
    /// After a fault anything may stand at the name.
    fn flush(&mut self, name: &str) -> Result<(), FolderFault>
        ensures kept { tells → OnOk result (Same (state self.old).stands (state self.new).stands) }
        ensures durable { tells → OnOk result (IsDurable name.now (state self.new)) }
        ensures others { tells → Touched name.now (state self.old).stands (state self.new).stands }
        ensures crash { tells → LeavesChanged (Touched name.now) (state self.old) (state self.new) }
        ensures time { tells → Elapses (Touched name.now) (state self.old) (state self.new) }
        ensures readers { tells → WidensNone (state self.old) (state self.new) }
        ensures cause { tells → HasCause FolderCall.Flush (state self.old) (state self.new) result };

    /// Moves the file at `from` to the name `to`, in the place of what stands there, so that a crash leaves the one or the other.
    ///
    /// `Refused`: no file can be moved to that name, though it may be written over; a crash leaves no more than before. After any
    /// fault what stands is unchanged, while a crash may leave the file moved.
    fn rename(&mut self, from: &str, to: &str) -> Result<(), FolderFault>
        requires { from.now ≢ to.now }
        ensures moved { tells → OnOk result (Moved from.now to.now (state self.old).stands
            (state self.new).stands) }
        ensures kept { tells → OnErr result (Same (state self.old).stands (state self.new).stands) }
        ensures refused { tells → IsErrOf result FolderFault.Refused
            → LeavesChanged Same (state self.old) (state self.new) }
        ensures others { tells → TouchedBoth from.now to.now (state self.old).stands
            (state self.new).stands }
        ensures crash { tells → LeavesChanged (MayMove from.now to.now) (state self.old)
            (state self.new) }
        ensures time { tells → Elapses (MayMove from.now to.now) (state self.old) (state self.new) }
        ensures rights { tells → OnOk result (NoWider to.now from.now (state self.old) (state self.new)) }
        ensures narrow { tells → OnErr result (WidensNone (state self.old) (state self.new)) }
        ensures readers { tells → WidensNoOther to.now (state self.old) (state self.new) }
        ensures cause { tells → HasCause FolderCall.Rename (state self.old) (state self.new) result };

    /// Writes the bytes over the file at the name, and puts them where a crash leaves them.
    ///
    /// After a fault, and after a crash on the way, anything may stand at the name.
    fn overwrite(&mut self, name: &str, bytes: &[u8]) -> Result<(), FolderFault>
        ensures written { tells → OnOk result ((state self.new).stands name.now ≡ Some bytes.now) }
        ensures durable { tells → OnOk result (IsDurable name.now (state self.new)) }
        ensures others { tells → Touched name.now (state self.old).stands (state self.new).stands }
        ensures crash { tells → LeavesChanged (Touched name.now) (state self.old) (state self.new) }
        ensures time { tells → Elapses (Touched name.now) (state self.old) (state self.new) }
        ensures readers { tells → WidensNone (state self.old) (state self.new) }
        ensures cause { tells → HasCause FolderCall.Overwrite (state self.old) (state self.new) result };

    /// Takes the file at the name away. After a fault what stands is unchanged.
    fn remove(&mut self, name: &str) -> Result<(), FolderFault>
        ensures gone { tells → OnOk result ((state self.new).stands name.now ≡ None) }
        ensures kept { tells → OnErr result (Same (state self.old).stands (state self.new).stands) }
        ensures others { tells → Touched name.now (state self.old).stands (state self.new).stands }
        ensures crash { tells → LeavesChanged (Touched name.now) (state self.old) (state self.new) }
        ensures time { tells → Elapses (Touched name.now) (state self.old) (state self.new) }
        ensures readers { tells → WidensNone (state self.old) (state self.new) }
        ensures cause { tells → HasCause FolderCall.Remove (state self.old) (state self.new) result };

    /// Puts what stands at the path, also after a rename, where a crash leaves it. No content changes, after a fault neither.
    fn flush_folder(&mut self, path: &str) -> Result<(), FolderFault>
        ensures kept { tells → Same (state self.old).stands (state self.new).stands }
        ensures durable { tells → OnOk result (IsDurable path.now (state self.new)) }
        ensures crash { tells → LeavesChanged Same (state self.old) (state self.new) }
        ensures time { tells → Elapses Same (state self.old) (state self.new) }
        ensures readers { tells → WidensNone (state self.old) (state self.new) }
        ensures cause { tells → HasCause FolderCall.FlushFolder (state self.old)
            (state self.new) result };

    // The image that stands is among those that a crash may leave.
    ghost may_stand: { (folder : Self) → tells → (state folder).may_leave (state folder).stands };

    // An image that a crash may leave now it might have left since any earlier moment.
    ghost counts_now: { (folder : Self) (t : ℕ) (f : Image) → tells → t ≤ (state folder).moment
        → (state folder).may_leave f → (state folder).left_since t f };

    // Since this moment a crash can have left only what it may leave now.
    ghost only_now: { (folder : Self) (f : Image) → tells
        → (state folder).left_since (state folder).moment f → (state folder).may_leave f };
}
