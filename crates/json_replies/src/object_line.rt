//! The line of an object, member by member in the order of their keys, as they are read back. That of a reply grows line by line,
//! since a reply can have millions.

ghost use Rattle.std.specs.Prelude.{◌≡◌, ◌∷◌, ◌++◌, [], IfOk, OnOk};
ghost use Rattle.std.specs.Option.{option_copied};
ghost use Rattle.byte_text.specs.Bytes.{line_feed};
ghost use Rattle.json.specs.Lex.{tokens};
ghost use Rattle.json.specs.Print.{print};
ghost use Rattle.json_replies.specs.Texts.{lines_data};
ghost use Rattle.json_replies.specs.Replies.{name_data, reply_data};
ghost use Rattle.json_replies.specs.Sessions.{session_data};
ghost use Rattle.json_replies.specs.ObjectLines.{IsLineOfData};
ghost use Rattle.json_replies.specs.Inner.ObjectMembers.{said_list};
ghost use Rattle.json_replies.specs.WrittenData.{Follow};
ghost use Rattle.json_replies.specs.Inner.WrittenData.{MembersFollow};

use crate::session::write_session;
use crate::written::{write_null, write_text};
use byte_text::cut;
use json::Writer;
use latin_board::OutOfMemory;
use line_replies::{Draw, Facts};
use play_midend::Session;
use std::alloc::{AllocError, Global};

/// The line of a reply's object: the refusal, the lines, the session that is left.
pub(crate) fn reply_line<P: Draw>(
    alloc: Global,
    session: &Option<Session<P>>,
    refused: Option<&[u8]>,
    reply: &[u8],
) -> Result<Vec<u8>, OutOfMemory>
    ensures { IfOk result (λ line. IsLineOfData (reply_data (option_copied refused.entry) reply.now
        (session_data ⟦<P as Facts>⟧.facts session.now)) line.items) }
{
    let mut writer = Writer::new(Vec::with_capacity(alloc, reply.len())?);
    writer.begin_object()?;
    write_said(alloc, &mut writer, refused, reply)?;
    writer.key("session")?;
    write_session(alloc, &mut writer, session)?;
    writer.end_object()?;
    Ok(ended(writer)?)
}

/// Writes what each object has before its session: the refusal and the lines.
pub(crate) fn write_said(
    alloc: Global,
    writer: &mut Writer,
    refused: Option<&[u8]>,
    reply: &[u8],
) -> Result<(), AllocError>
    ensures { OnOk result (MembersFollow (said_list (option_copied refused.entry) reply.now) writer.old writer.new) }
{
    writer.key("refused")?;
    write_name(alloc, writer, refused)?;
    writer.key("reply")?;
    write_reply(alloc, writer, reply)?;
    Ok(())
}

/// The line of what was written.
pub(crate) fn ended(writer: Writer) -> Result<Vec<u8>, AllocError>
    ensures text { IfOk result (λ line. line.items ≡ (writer.before ++ print writer.tokens) ++ line_feed ∷ []) }
    ensures reads_back { IfOk result (λ _. tokens (print writer.tokens) ≡ writer.tokens) }
{
    let mut line = writer.into_inner();
    line.push(b'\n')?;
    Ok(line)
}

// Writes the name of a refusal, or null.
fn write_name(alloc: Global, writer: &mut Writer, name: Option<&[u8]>) -> Result<(), AllocError>
    ensures { OnOk result (Follow (name_data (option_copied name.entry) ∷ []) writer.old writer.new) }
{
    match name {
        Some(name) => write_text(alloc, writer, name),
        None => write_null(writer),
    }
}

// Writes the lines of a reply, each without its LF.
fn write_reply(alloc: Global, writer: &mut Writer, reply: &[u8]) -> Result<(), AllocError>
    ensures { OnOk result (Follow (lines_data reply.now ∷ []) writer.old writer.new) }
{
    writer.begin_array()?;
    let mut rest = reply;
    while let (line, Some(more)) = cut(rest, b'\n') {
        write_text(alloc, writer, line)?;
        rest = more;
    }
    writer.end_array()?;
    Ok(())
}
