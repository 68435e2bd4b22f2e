//! The format of the program `puzzles-json`: each reply is one JSON object on one line.

ghost use Rattle.std.specs.Prelude.{◌≡◌, ◌≤◌, false, length, Some, None, Ok};
ghost use Rattle.std.specs.Option.{option_copied};
ghost use Rattle.line_replies.specs.Machines.{IsResponse};
ghost use Rattle.line_replies.specs.Replies.{refusal_line};
ghost use Rattle.line_replies.specs.Texts.{text_bytes};
ghost use Rattle.json_replies.specs.BeginLines.{begin_copied};
ghost use Rattle.json_replies.specs.FurtherLines.{IsFurtherLine};
ghost use Rattle.json_replies.specs.Inner.ToldResponses.{TellsBegun, TellsResponse};
ghost use Rattle.json_replies.specs.JsonReplies.{JsonReply, TellsOutcome};
ghost use Rattle.json_replies.specs.ObjectLines.{IsLineOfData, OrLost, lost_line};
ghost use Rattle.json_replies.specs.Replies.{reply_data};
ghost use Rattle.json_replies.specs.Sessions.{session_data};

use crate::begin::{asked_game, begin_puzzle};
use crate::begin_line::{BeginLine, read_begin};
use crate::begin_refusal::BeginRefusal;
use crate::further::answer_line;
use crate::further_line::{FurtherLine, read_further};
use crate::object_line::reply_line;
use crate::shown::{ShownFacts, Shows};
use line_replies::{Draw, Facts, Format, LineFault, Refusal, Response, Text, execute};
use play_midend::Session;
use std::alloc::Global;

/// Each reply is one JSON object on one line: the refusal or null, the lines that the plain program says, and the session that is left;
/// or the answer to one of the lines beside the commands. `fair`, `blank`, `item` and `thin` are answered as `new` with the ID of the game
/// that they ask for.
///
/// Where the object can't be made for want of memory, the line is `{"lost":"OutOfMemory"}`, and the session is left as the plain
/// program leaves it.
pub enum Json {}

impl<P: Shows> Format<P> for Json {
    ghost reply = { JsonReply ⟦<P as Facts>⟧.facts ⟦<P as ShownFacts>⟧.board_facts };

    ghost leaves_as_answers = { λ old new line bytes said. said.leaves };

    fn answer(alloc: Global, session: &mut Option<Session<P>>, line: Option<&[u8]>) -> Response {
        match read_further::<P>(line) {
            Some(asked) => Response::Reply(further_object(alloc, session, asked)),
            None => match read_begin(line) {
                Some(asked) => begin_response(alloc, session, asked),
                None => {
                    let answer = execute(alloc, session, line);
                    told(alloc, session, answer)
                }
            },
        }
    }
}

// The answer to a line that begins this game. Its frame isn't on the stack while a hint is looked for.
#[inline(never)]
fn begin_response<P: Shows>(
    alloc: Global,
    session: &mut Option<Session<P>>,
    asked: BeginLine<&[u8]>,
) -> Response
    ensures { IsResponse
        (λ old line bytes new. TellsBegun ⟦<P as Facts>⟧.facts ⟦<P as ShownFacts>⟧.board_facts old
        (begin_copied asked.entry) bytes new) (λ _. false) session.old None result session.new }
{
    match asked_game(session, asked) {
        Ok((params, puzzle)) => {
            let answer = begin_puzzle(alloc, session, params, puzzle);
            told(alloc, session, answer)
        }
        Err(refusal) => Response::Reply(refused_object(alloc, session, refusal.name())),
    }
}

// The response that tells what `execute` answered, where this session is left.
fn told<P: Draw>(
    alloc: Global,
    session: &Option<Session<P>>,
    answer: Result<Response, Refusal>,
) -> Response
    ensures { TellsResponse ⟦<P as Facts>⟧.facts answer session.now result }
{
    match answer {
        Ok(Response::Reply(said)) => {
            Response::Reply(said_object(alloc, session, said.as_bytes()))
        }
        Ok(Response::Silence) => Response::Silence,
        Ok(Response::Quit) => Response::Quit,
        Err(refusal) => Response::Reply(refused_object(alloc, session, refusal.name())),
    }
}

// The object that answers a line beside the commands: NoGame without a session, and then its own refusal.
fn further_object<P: Shows>(
    alloc: Global,
    session: &Option<Session<P>>,
    asked: Result<FurtherLine, BeginRefusal>,
) -> Text
    ensures { OrLost (IsFurtherLine ⟦<P as Facts>⟧.facts ⟦<P as ShownFacts>⟧.board_facts
        asked session.now) (text_bytes result) }
{
    let Some(shown) = session else {
        return refused_object(alloc, session, Refusal::Line(LineFault::NoGame).name());
    };
    match asked {
        Ok(which) => match answer_line(alloc, shown, which) {
            Ok(line) => Text::Long(line),
            Err(_) => lost(),
        },
        Err(refusal) => refused_object(alloc, session, refusal.name()),
    }
}

// The object of what is said; nothing where nothing is said.
#[tactic(auto, using(crate::proofs::ToldReplies::tells_nothing, crate::proofs::ToldReplies::tells_said))]
fn said_object<P: Draw>(alloc: Global, session: &Option<Session<P>>, said: &[u8]) -> Text
    ensures { TellsOutcome ⟦<P as Facts>⟧.facts (Ok (said.now, session.now)) session.now
        (text_bytes result) }
{
    if said.is_empty() {
        return Text::Long(Vec::new(alloc));
    }
    object(alloc, session, None, said)
}

// The object of a refusal of this name.
fn refused_object<P: Draw>(alloc: Global, session: &Option<Session<P>>, name: &'static str) -> Text
    requires { length name.now ≤ 16 }
    ensures { OrLost (IsLineOfData (reply_data (Some name.now) (refusal_line name.now)
        (session_data ⟦<P as Facts>⟧.facts session.now))) (text_bytes result) }
{
    let line = Text::refused(name);
    object(alloc, session, Some(name.as_bytes()), line.as_bytes())
}

// The object's line, or what is said where memory is wanting.
fn object<P: Draw>(
    alloc: Global,
    session: &Option<Session<P>>,
    refused: Option<&[u8]>,
    reply: &[u8],
) -> Text
    ensures { OrLost (IsLineOfData (reply_data (option_copied refused.entry) reply.now
        (session_data ⟦<P as Facts>⟧.facts session.now))) (text_bytes result) }
{
    match reply_line(alloc, session, refused, reply) {
        Ok(line) => Text::Long(line),
        Err(_) => lost(),
    }
}

// The text where memory is wanting.
fn lost() -> Text
    ensures { text_bytes result ≡ lost_line }
{
    Text::line("{\"lost\":\"OutOfMemory\"}")
}
