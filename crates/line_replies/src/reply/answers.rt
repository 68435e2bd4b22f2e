//! The answers to lines: what a line makes of a session, or of none, and what is said to it.
ghost use Rattle.std.specs.Prelude.{◌≡◌, ◌∷◌, ◌++◌, [], false, Some, Ok, Err, IfOk, IfErr, OnErr};
ghost use Rattle.std.specs.Option.{option_copied};
ghost use Rattle.byte_text.specs.Bytes.{line_feed};
ghost use Rattle.play_save.specs.Written.{save_of};
ghost use Rattle.line_replies.specs.Texts.{text_bytes};
ghost use Rattle.line_replies.specs.Commands.{is_quit, action_copied, request_copied, IsInRange};
ghost use Rattle.line_replies.specs.SessionReplies.{id_words, view_text, ViewTakesMemory, RequestGives, RequestTakesMemory};
ghost use Rattle.line_replies.specs.Replies.{LineGives, Explains};
ghost use Rattle.line_replies.specs.Inner.Answers.{ActionAnswered};
ghost use Rattle.line_replies.specs.Machines.{IsResponse};

use crate::command::line_fault::LineFault;
use crate::command::{Action, Command, Request, View, read_command};
use crate::draw::{Draw, picture};
use crate::machine::Response;
use crate::reply::facts::Facts;
use crate::reply::new_session::new_session;
use crate::reply::refusal::Refusal;
use crate::reply::solution_list::solution_list;
use crate::reply::solve_reply::solve_reply;
use crate::reply::text::Text;
use crate::view::done_clues::done_text;
use crate::view::id::id_text;
use crate::view::pencil_marks::marks_text;
use crate::view::status::status_text;
use latin_board::OutOfMemory;
use play_midend::{PlayFault, Session, read_move};
use play_save::save;
use std::alloc::Global;

/// Carries out a line on a session, or on none, and gives the answer, or why the line is refused; `None` is a
/// line that is too long. Each format tells this answer in its words.
///
/// A line that is refused leaves the session as it was, and ends no run.
#[tactic(auto, using(crate::proofs::CommandLaws::goes_on))]
pub fn execute<P: Draw>(
    alloc: Global,
    session: &mut Option<Session<P>>,
    line: Option<&[u8]>,
) -> Result<Response, Refusal>
    ensures ok { IfOk result (λ answer. IsResponse
        (λ old line said new. LineGives ⟦<P as Facts>⟧.facts old line (Ok (said, new)))
        is_quit session.old (option_copied line.entry) answer session.new) }
    ensures err { OnErr result (session.new ≡ session.old) }
    ensures goes_on { OnErr result (is_quit (option_copied line.entry) ≡ false) }
    ensures why { IfErr result (λ refusal.
        LineGives ⟦<P as Facts>⟧.facts session.old (option_copied line.entry) (Err refusal)) }
{
    match read_command(line)? {
        None => Ok(Response::Silence),
        Some(Command::Quit) => Ok(Response::Quit),
        Some(Command::New(id)) => {
            *session = Some(new_session(alloc, id)?);
            Ok(Response::Reply(Text::line("ok")))
        }
        Some(Command::Ask(request)) => match session {
            None => Err(Refusal::Line(LineFault::NoGame)),
            Some(session) => Ok(Response::Reply(answer_request(alloc, session, request)?)),
        },
    }
}

// A session's answer to a request.
fn answer_request<P: Draw>(
    alloc: Global,
    session: &mut Session<P>,
    request: Request<&[u8]>,
) -> Result<Text, Refusal>
    requires { IsInRange request }
    ensures ok { IfOk result (λ text. RequestGives ⟦<P as Facts>⟧.facts session.old
        (request_copied request.entry) (Ok (text_bytes text, Some session.new))) }
    ensures err { OnErr result (session.new ≡ session.old) }
    ensures why { IfErr result (Explains
        (RequestGives ⟦<P as Facts>⟧.facts session.old (request_copied request.entry))
        (RequestTakesMemory ⟦<P as Facts>⟧.facts session.old (request_copied request.entry))) }
{
    match request {
        Request::Act(action) => answer_action(session, action),
        Request::Tell(view) => Ok(text_of_view(alloc, session, view)?),
        Request::Listing(limit) => Ok(Text::Long(solution_list(alloc, session, limit)?)),
    }
}

// A session's answer to a call.
fn answer_action<P: Draw>(session: &mut Session<P>, action: Action<&[u8]>) -> Result<Text, Refusal>
    ensures ok { IfOk result (λ text. RequestGives ⟦<P as Facts>⟧.facts session.old
        (Request.Act (action_copied action.entry)) (Ok (text_bytes text, Some session.new))) }
    ensures err { OnErr result (session.new ≡ session.old) }
    ensures why { IfErr result (Explains
        (RequestGives ⟦<P as Facts>⟧.facts session.old (Request.Act (action_copied action.entry)))
        (RequestTakesMemory ⟦<P as Facts>⟧.facts session.old
        (Request.Act (action_copied action.entry)))) }
{
    let _board = session.board();
    let answer = carry_out(session, action);
    match action {
        Action::Solve => solve_reply(session, answer),
        _ => {
            answer?;
            Ok(Text::line("ok"))
        }
    }
}

// Makes a call of the session.
fn carry_out<P: Draw>(session: &mut Session<P>, action: Action<&[u8]>) -> Result<(), PlayFault>
    ensures answered { ActionAnswered (P.puzzle session.old.puzzle) session.old
        (action_copied action.entry) result session.new }
    ensures err { OnErr result (session.new ≡ session.old) }
{
    match action {
        Action::Play(text) => session.play(read_move(text)?),
        Action::Undo => session.undo(),
        Action::Redo => session.redo(),
        Action::Restart => session.restart(),
        Action::Solve => session.solve(),
    }
}

// The text of a view of a session.
fn text_of_view<P: Draw>(
    alloc: Global,
    session: &Session<P>,
    view: View,
) -> Result<Text, OutOfMemory>
    ensures ok { IfOk result (λ text.
        text_bytes text ≡ view_text ⟦<P as Facts>⟧.facts session.now view) }
    ensures err { OnErr result (ViewTakesMemory view) }
{
    match view {
        View::Show => Ok(Text::Long(picture(alloc, session)?)),
        View::Marks => Ok(Text::Long(marks_text(alloc, session)?)),
        View::Status => Ok(Text::line(status_text(session).as_str())),
        View::Id => Ok(Text::Long(id_line(alloc, session)?)),
        View::Done => Ok(Text::Clues(done_text(session))),
        View::Save => Ok(Text::Long(save_text(alloc, session)?)),
    }
}

fn id_line<P: Draw>(alloc: Global, session: &Session<P>) -> Result<Vec<u8>, OutOfMemory>
    ensures { IfOk result (λ text.
        text.items ≡ id_words ⟦<P as Facts>⟧.facts session.now ++ line_feed ∷ []) }
{
    let mut text = id_text(alloc, session)?;
    text.push(b'\n')?;
    Ok(text)
}

// The save text of the session.
fn save_text<P: Draw>(alloc: Global, session: &Session<P>) -> Result<Vec<u8>, OutOfMemory>
    ensures { IfOk result (λ text. text.items ≡ save_of P.title P.desc_of session.now) }
{
    save(alloc, session).map_err(|_| OutOfMemory)
}
