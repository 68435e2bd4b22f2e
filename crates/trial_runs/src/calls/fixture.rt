//! The sessions that the calls are made in.

use play_midend::{MOST_STATES, Move, PlayFault, Session, read_move};
use puzzle_cli::{Draw, begin};
use std::alloc::Global;

/// Where a session stands.
#[derive(Clone, Copy)]
pub(crate) enum Start {
    /// Two moves were made, and one was taken back: position 2 of 3.
    Undone,
    /// One move was made, as much as there is room for at first.
    AtEnd,
    /// As many moves were made as a session keeps.
    Full,
}

/// A session there, or `None` where memory was refused.
pub(crate) fn session_at<P: Draw>(alloc: Global, id: &str, start: Start) -> Option<Session<P>> {
    let mut session = begin::<P>(alloc, Some(id.as_bytes()), None).ok()??;
    match start {
        Start::Undone => {
            play(&mut session, b"R0,0,1").ok()?;
            play(&mut session, b"R1,0,2").ok()?;
            session.undo().ok()?;
        }
        Start::AtEnd => play(&mut session, b"R0,0,1").ok()?,
        Start::Full => {
            for _ in 1..MOST_STATES {
                session.play(Move::Real { x: 0, y: 0, n: 1 }).ok()?;
            }
        }
    }
    Some(session)
}

/// Makes the move that a text spells.
pub(crate) fn play<P: Draw>(session: &mut Session<P>, text: &[u8]) -> Result<(), PlayFault> {
    match read_move(text) {
        Ok(m) => session.play(m),
        Err(fault) => Err(fault),
    }
}
