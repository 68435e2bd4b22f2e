//! The file that a session is loaded from.

ghost use Rattle.std.specs.Prelude.{◌≡◌, ◌≤◌, IfOk, IfSome, take, vec_len};

use std::alloc::Global;
use std::fs::File;
use std::io;
use std::io::Read;
use std::rt::Files;

/// The bytes of the file, cut at this many.
pub(crate) fn read_file(
    rt: &(impl Files + AllocGlobal),
    path: &str,
    most: usize,
) -> io::Result<Vec<u8>>
    ensures bound { IfOk result (λ bytes. vec_len bytes ≤ most) }
{
    read_cut(rt.alloc(), File::open(rt, path)?, most)
}

/// The bytes that the reader gives, cut at this many.
fn read_cut<R: Read + Drop>(alloc: Global, reader: R, most: usize) -> io::Result<Vec<u8>>
    ensures bound { IfOk result (λ bytes. vec_len bytes ≤ most) }
    ensures front { IfOk result (λ bytes. IfSome (R.remaining reader)
        (λ told. bytes.items ≡ take most told)) }
{
    let bytes = read_front(alloc, reader, most as u64)?;
    Ok(cut(bytes, most))
}

// The first bytes of a reader that tells them, up to the limit. Of one that tells nothing no clause of std bounds what is read.
fn read_front<R: Read + Drop>(alloc: Global, reader: R, limit: u64) -> io::Result<Vec<u8>>
    ensures { IfOk result (λ bytes. IfSome (R.remaining reader)
        (λ told. bytes.items ≡ take limit told)) }
{
    let mut bytes = Vec::new(alloc);
    reader.take(limit).read_to_end(&mut bytes)?;
    Ok(bytes)
}

// The first of these bytes, no more than so many.
fn cut(bytes: Vec<u8>, most: usize) -> Vec<u8>
    ensures bound { vec_len result ≤ most }
    ensures front { result.items ≡ take most bytes.items }
{
    let mut bytes = bytes;
    bytes.truncate(most);
    bytes
}
