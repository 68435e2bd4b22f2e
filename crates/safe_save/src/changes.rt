//! The changes of a folder over memory.

ghost use Rattle.std.specs.Prelude.{◌≡◌, ◌≢◌, Some, None, option_map, IfOk, OnOk, OnErr};
ghost use Rattle.safe_save.specs.Folder.{Touched, TouchedBoth, Appended, Moved, MayMove, LeavesChanged, Elapses};
ghost use Rattle.safe_save.specs.Changes.{image_of, IsChanged, StandsSame, ChangesGoOn, content_told};

use std::alloc::{AllocError, Global};

// A change of a folder: the content stands at `name`, or nothing where there is none, and nothing at `gone`, if that is another name.
#[derive(Drop)]
pub(crate) struct FolderChange {
    pub(crate) name: String,
    pub(crate) content: Option<Vec<u8>>,
    pub(crate) gone: String,
}

impl FolderChange {
    ghost use Rattle.safe_save.specs.Changes.{changed};

    // The bytes at the name after the change, where `before` stood there.
    fn at<'a>(&'a self, name: &str, before: Option<&'a [u8]>) -> Option<&'a [u8]>
        ensures { option_map (λ bytes. bytes.now) result
            ≡ changed name.now (option_map (λ bytes. bytes.now) before.entry) self.entry.now }
    {
        if self.name.as_str() == name {
            return match &self.content {
                Some(bytes) => Some(bytes.as_slice()),
                None => None,
            };
        }
        if self.gone.as_str() == name {
            None
        } else {
            before
        }
    }
}

// The bytes at the name in a folder that was empty before these changes.
pub(crate) fn content_of<'a>(changes: &'a [FolderChange], name: &str) -> Option<&'a [u8]>
    ensures { option_map (λ bytes. bytes.now) result ≡ image_of changes.now name.now }
{
    let mut content: Option<&[u8]> = None;
    for change in changes {
        content = change.at(name, content);
    }
    content
}

// Makes a change, or leaves all as it was.
fn add(
    alloc: Global,
    changes: &mut Vec<FolderChange>,
    name: &str,
    content: Option<Vec<u8>>,
    gone: &str,
) -> Result<(), AllocError>
    ensures changed { OnOk result (IsChanged
        name.now (option_map (λ bytes. bytes.items) content) gone.now
        changes.old.items changes.new.items) }
    ensures kept { OnErr result (StandsSame changes.old.items changes.new.items) }
    ensures time { ChangesGoOn changes.old.items changes.new.items }
{
    let change = FolderChange {
        name: String::from_str(alloc, name)?,
        content,
        gone: String::from_str(alloc, gone)?,
    };
    changes.push(change)?;
    Ok(())
}

// Puts the content under the name, or nothing where there is none.
pub(crate) fn set_content(
    alloc: Global,
    changes: &mut Vec<FolderChange>,
    name: &str,
    content: Option<Vec<u8>>,
) -> Result<(), AllocError>
    ensures set { OnOk result (image_of changes.new.items name.now
        ≡ option_map (λ bytes. bytes.items) content) }
    ensures kept { OnErr result (StandsSame changes.old.items changes.new.items) }
    ensures others { Touched name.now (image_of changes.old.items) (image_of changes.new.items) }
    ensures crash { LeavesChanged (Touched name.now)
        (content_told changes.old.items) (content_told changes.new.items) }
    ensures time { Elapses (Touched name.now)
        (content_told changes.old.items) (content_told changes.new.items) }
{
    add(alloc, changes, name, content, name)
}

// Puts the bytes under the name.
pub(crate) fn put(
    alloc: Global,
    changes: &mut Vec<FolderChange>,
    name: &str,
    bytes: &[u8],
) -> Result<(), AllocError>
    ensures set { OnOk result (image_of changes.new.items name.now ≡ Some bytes.now) }
    ensures kept { OnErr result (StandsSame changes.old.items changes.new.items) }
    ensures others { Touched name.now (image_of changes.old.items) (image_of changes.new.items) }
    ensures crash { LeavesChanged (Touched name.now)
        (content_told changes.old.items) (content_told changes.new.items) }
    ensures time { Elapses (Touched name.now)
        (content_told changes.old.items) (content_told changes.new.items) }
{
    let content = bytes.to_vec(alloc)?;
    set_content(alloc, changes, name, Some(content))
}

// A copy of what stands under the name, as bytes that can grow, or `None` if nothing stands there.
fn copy_of(
    alloc: Global,
    changes: &[FolderChange],
    name: &str,
) -> Result<Option<Vec<u8>>, AllocError>
    ensures { IfOk result (λ copy. option_map (λ bytes. bytes.items) copy
        ≡ image_of changes.now name.now) }
{
    match content_of(changes, name) {
        Some(bytes) => Ok(Some(bytes.to_vec(alloc)?)),
        None => Ok(None),
    }
}

// Puts the bytes under the name, after what stands there. Where nothing stands, nothing is put there.
pub(crate) fn append(
    alloc: Global,
    changes: &mut Vec<FolderChange>,
    name: &str,
    bytes: &[u8],
) -> Result<(), AllocError>
    ensures appended { OnOk result (Appended name.now bytes.now
        (image_of changes.old.items) (image_of changes.new.items)) }
    ensures kept { OnErr result (StandsSame changes.old.items changes.new.items) }
    ensures others { Touched name.now (image_of changes.old.items) (image_of changes.new.items) }
    ensures crash { LeavesChanged (Touched name.now)
        (content_told changes.old.items) (content_told changes.new.items) }
    ensures time { Elapses (Touched name.now)
        (content_told changes.old.items) (content_told changes.new.items) }
{
    match copy_of(alloc, changes, name)? {
        Some(mut content) => {
            content.extend_from_slice(bytes)?;
            set_content(alloc, changes, name, Some(content))
        }
        None => Ok(()),
    }
}

// Puts what stands at one name under the other, and nothing stays where it stood.
pub(crate) fn move_content(
    alloc: Global,
    changes: &mut Vec<FolderChange>,
    from: &str,
    to: &str,
) -> Result<(), AllocError>
    requires { from.now ≢ to.now }
    ensures moved { OnOk result (Moved from.now to.now
        (image_of changes.old.items) (image_of changes.new.items)) }
    ensures kept { OnErr result (StandsSame changes.old.items changes.new.items) }
    ensures others { TouchedBoth from.now to.now
        (image_of changes.old.items) (image_of changes.new.items) }
    ensures crash { LeavesChanged (MayMove from.now to.now)
        (content_told changes.old.items) (content_told changes.new.items) }
    ensures time { Elapses (MayMove from.now to.now)
        (content_told changes.old.items) (content_told changes.new.items) }
{
    let content = copy_of(alloc, changes, from)?;
    add(alloc, changes, to, content, from)
}
