//! The first session of the program: of a game ID, of a file, or none.

ghost use Rattle.std.specs.Prelude.{◌≡◌, Ok, None, IfOk, IfErr, IfSome, IsSomeAnd};
ghost use Rattle.play_save.specs.SaveTexts.{saves_of, SaveText};
ghost use Rattle.play_save.specs.FirstFaults.{load_at};
ghost use Rattle.line_replies.specs.Starts.{NotBoth};
ghost use Rattle.line_replies.specs.GameFacts.{undrawn_facts};
ghost use Rattle.line_replies.specs.NewSessions.{TextBegins, IsStartRefusal};
ghost use Rattle.line_replies.specs.RunLaws.{IsNoneOrStorable};
ghost use Rattle.line_replies.specs.Starts.{IsFileRefusal};

pub(crate) mod game_name;
pub(crate) mod start_fault;

use crate::reply::new_session::new_session;
use crate::start::start_fault::StartFault;
use game_texts::Game;
use play_midend::Session;
use play_save::load;
use std::alloc::Global;

/// The first session: the new one of a game ID, the one that was saved to a file, or none where neither is there.
///
/// An ID is refused as `read_id` refuses its text, or as `generate` refuses its seed; a file as `load` refuses its bytes; and
/// either where memory is refused, which is `StartFault::OutOfMemory` also where the fault inside says so.
///
/// A session that it gives can be stored.
pub fn begin<P: Game>(
    alloc: Global,
    id: Option<&[u8]>,
    file: Option<&[u8]>,
) -> Result<Option<Session<P>>, StartFault>
    requires { NotBoth id file }
    ensures none { id.entry ≡ None → file.entry ≡ None → result ≡ Ok None }
    ensures storable { IfOk result (IsNoneOrStorable (undrawn_facts P.Rules P.Game.own)) }
    ensures of_id { IfSome id.entry (λ text. IfOk result (λ first. IsSomeAnd first (λ session.
        TextBegins (undrawn_facts P.Rules P.Game.own) text.now (Ok session)))) }
    ensures id_refused { IfSome id.entry (λ text. IfErr result
        (IsStartRefusal (TextBegins (undrawn_facts P.Rules P.Game.own) text.now))) }
    ensures of_file { IfSome file.entry (λ bytes. IfOk result (λ first. IsSomeAnd first (λ session.
        SaveText (saves_of P.Rules P.Game.own) session bytes.now))) }
    ensures file_refused { IfSome file.entry (λ bytes. IfErr result
        (IsFileRefusal (load_at (saves_of P.Rules P.Game.own) bytes.now))) }
{
    match (id, file) {
        (Some(id), _) => Ok(Some(new_session(alloc, id)?)),
        (None, Some(file)) => Ok(Some(load(alloc, file)?)),
        (None, None) => Ok(None),
    }
}
