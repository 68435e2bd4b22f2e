//! The ID of a session's game.

ghost use Rattle.std.specs.Prelude.{◌≡◌, IfOk};
ghost use Rattle.line_replies.specs.SessionReplies.{id_words};

use crate::draw::Draw;
use crate::reply::facts::Facts;
use game_texts::Game;
use latin_board::OutOfMemory;
use play_midend::Session;
use std::alloc::Global;

/// The ID of the game that is played, in its written form and without a line feed.
///
/// `OutOfMemory` where a growth was refused.
pub fn id_text<P: Draw>(alloc: Global, session: &Session<P>) -> Result<Vec<u8>, OutOfMemory>
    ensures { IfOk result (λ text. text.items ≡ id_words ⟦<P as Facts>⟧.facts session.now) }
{
    let mut text = Vec::new(alloc);
    text.extend_from_slice(&session.params().write())?;
    text.push(b':')?;
    let description = session.puzzle().write_desc(alloc).map_err(|_| OutOfMemory)?;
    text.extend_from_slice(&description)?;
    Ok(text)
}
