//! The object of a session.

ghost use Rattle.std.specs.Prelude.{◌∷◌, [], codes, OnOk};
ghost use Rattle.json_replies.specs.Counts.{count_data};
ghost use Rattle.json_replies.specs.Sessions.{game_data, session_data};
ghost use Rattle.json_replies.specs.WrittenData.{Follow};
ghost use Rattle.json_replies.specs.Inner.WrittenData.{MembersFollow};

use crate::written::{write_null, write_number_at, write_text, write_word_at};
use json::Writer;
use latin_board::OutOfMemory;
use line_replies::{Draw, Facts, id_text, status_word};
use play_midend::Session;
use std::alloc::{AllocError, Global};

/// Writes the session, or null where there is none. `OutOfMemory` where a growth was refused.
pub(crate) fn write_session<P: Draw>(
    alloc: Global,
    writer: &mut Writer,
    session: &Option<Session<P>>,
) -> Result<(), OutOfMemory>
    ensures { OnOk result (Follow (session_data ⟦<P as Facts>⟧.facts session.now ∷ []) writer.old writer.new) }
{
    match session {
        Some(session) => write_game(alloc, writer, session),
        None => Ok(write_null(writer)?),
    }
}

/// Writes the game, its ID, which state is shown, how many there are, and whether it is solved. `OutOfMemory` where a growth was
/// refused.
pub(crate) fn write_game<P: Draw>(
    alloc: Global,
    writer: &mut Writer,
    session: &Session<P>,
) -> Result<(), OutOfMemory>
    ensures { OnOk result (Follow (game_data ⟦<P as Facts>⟧.facts session.now ∷ []) writer.old writer.new) }
{
    let id = id_text(alloc, session)?;
    let status = status_word(session.board());
    writer.begin_object()?;
    write_word_at(writer, "game", Some(P::name()))?;
    writer.key("id")?;
    write_text(alloc, writer, &id)?;
    write_position(writer, session)?;
    write_number_at(writer, "states", Some(session.states()))?;
    write_word_at(writer, "status", Some(status))?;
    writer.end_object()?;
    Ok(())
}

// Writes which state is shown, as a member.
fn write_position<P: Draw>(writer: &mut Writer, session: &Session<P>) -> Result<(), AllocError>
    ensures { OnOk result (MembersFollow ((codes "position", count_data session.now.position) ∷ []) writer.old writer.new) }
{
    write_number_at(writer, "position", Some(session.position()))
}
