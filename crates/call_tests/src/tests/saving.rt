//! A save over a folder in memory, in which a call fails, or the machine stops there.

use super::rows::{Row, check};
use safe_save::{Failing, MemoryFolder, SaveFault, save};
use std::alloc::Global;

// The number of the call that fails, whether the machine stops there, whether a rename is refused, the answer, whether the path
// has the new bytes in place of the old ones, and what stands beside.
struct Saved(
    u64,
    bool,
    bool,
    Result<(), SaveFault>,
    bool,
    Option<&'static [u8]>,
);

const NOTHING: Option<&[u8]> = None;

const NEW: Option<&[u8]> = Some(b"new");

const OLD: Option<&[u8]> = Some(b"old");

impl Row for Saved {
    fn holds(&self, alloc: Global) -> bool {
        let failing = Failing {
            at: self.0,
            stops: self.1,
            refuses_rename: self.2,
        };
        let mut folder = MemoryFolder::new(alloc, failing);
        folder.put("game", b"old").is_ok()
            && save(&mut folder, "game", "game.new", b"new") == self.3
            && folder.content("game") == if self.4 { NEW } else { OLD }
            && folder.content("game.new") == self.5
    }
}

#[test]
fn a_call_fails(rt: HostRuntime) {
    const ROWS: &[Saved] = &[
        Saved(0, false, false, Ok(()), true, NOTHING),
        Saved(1, false, false, Err(SaveFault::NotSaved), false, NOTHING),
        Saved(4, false, false, Err(SaveFault::NotSaved), false, NOTHING),
        Saved(5, false, false, Err(SaveFault::LeftBeside), false, NEW),
        Saved(6, false, false, Err(SaveFault::NotFlushed), true, NOTHING),
        Saved(4, true, false, Err(SaveFault::NotSaved), false, NEW),
        // Where the rename is refused, the old file is written over.
        Saved(0, false, true, Ok(()), true, NOTHING),
        Saved(6, false, true, Err(SaveFault::LeftBeside), false, NEW),
    ];
    check(&rt, rt.alloc(), ROWS);
}

#[test]
fn a_taken_name_is_left_alone(rt: HostRuntime) {
    const NEVER: Failing = Failing {
        at: 0,
        stops: false,
        refuses_rename: false,
    };
    let mut folder = MemoryFolder::new(rt.alloc(), NEVER);
    assert!(rt; folder.put("game.new", b"mine").is_ok());
    assert!(rt; save(&mut folder, "game", "game.new", b"new") == Err(SaveFault::Taken));
    assert!(rt; folder.content("game.new") == Some(b"mine".as_slice()));
}
