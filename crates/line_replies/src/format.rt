//! The format in which the lines of a session are answered: its words, over the same sessions and the same lines.

ghost use Rattle.std.specs.Prelude.{Option};
ghost use Rattle.std.specs.Option.{option_copied};
ghost use Rattle.play_midend.specs.Histories.{History};
ghost use Rattle.line_replies.specs.Lines.{ReplyRule};
ghost use Rattle.line_replies.specs.Commands.{is_quit};
ghost use Rattle.line_replies.specs.Machines.{IsResponse};
ghost use Rattle.line_replies.specs.Formats.{LeavesAsAnswers};

use crate::draw::Draw;
use crate::machine::Response;
use crate::reply::answers::execute;
use crate::reply::facts::Facts;
use crate::reply::text::Text;
use play_midend::Session;
use std::alloc::Global;

/// A format in which the lines of a game's session are answered. It says what it likes to a line, and ends the run at the same
/// lines as any other; what it leaves of the session is what [`execute`](crate::execute) may leave, of that line or of one in its place.
pub trait Format<P: Draw> {
    // The replies that may be given to a line, no bytes where it has none: the session before, or none, the
    // line, the bytes, the session after.
    ghost reply: { ReplyRule (Option (History P)) };

    /// The answer to a line, which comes without its LF and without one CR at its end; `None` is one that is
    /// too long. The session, or none, becomes the one that the line leaves.
    fn answer(alloc: Global, session: &mut Option<Session<P>>, line: Option<&[u8]>) -> Response
        ensures { IsResponse reply is_quit session.old (option_copied line.entry) result session.new };

    ghost leaves_as_answers: { LeavesAsAnswers ⟦<P as Facts>⟧.facts reply };
}

/// The format of the program `puzzles`: lines of text. A refusal is `refused: ` and its name.
pub enum Plain {}

impl<P: Draw> Format<P> for Plain {
    ghost use Rattle.line_replies.specs.Replies.{Reply};

    ghost reply = { Reply ⟦<P as Facts>⟧.facts };

    ghost leaves_as_answers = { λ _ _ line _ said. (line, (said.0, said.1, said.3)) };

    fn answer(alloc: Global, session: &mut Option<Session<P>>, line: Option<&[u8]>) -> Response {
        match execute(alloc, session, line) {
            Ok(response) => response,
            Err(refusal) => Response::Reply(Text::refused(refusal.name())),
        }
    }
}
