//! A turn of a game: from the text of a save, or of none, and a line, to what is said and the text of a save of the session after.

ghost use Rattle.std.specs.Prelude.{◌≡◌, ◌≢◌, ◌≤◌, length, vec_items, IfErr, IfOk, Some, None, Err};
ghost use Rattle.std.specs.Option.{option_copied};
ghost use Rattle.line_replies.specs.declared.start.start_fault.StartFault.{StartFault};
ghost use Rattle.line_replies.specs.Starts.{Begins, OfGame};
ghost use Rattle.web_turn.specs.Turns.{IsTurnOutcome, IsTurn, file_of, is_end, come_line, said_text, saved_text};

use crate::outcome::Outcome;
use clue_rules::{Towers, Unequal};
use json_replies::Json;
use line_replies::{Draw, Facts, Format, GameName, LINE_BYTES, Response, StartFault, begin};
use play_midend::Session;
use play_save::save;
use std::alloc::{AllocError, Global};

/// The outcome of a line.
#[derive(Drop)]
pub(crate) struct Answer {
    /// `Answered`, `Ended` or `Unread`.
    pub(crate) outcome: Outcome,
    /// The reply with its LF, or nothing; of a text that is no save, the program's line on it.
    pub(crate) said: Vec<u8>,
    /// The text of a save of the session after, or nothing where there is none.
    pub(crate) saved: Vec<u8>,
}

// A line that was answered to a session.
#[derive(Drop)]
struct Turn {
    said: Vec<u8>,
    saved: Vec<u8>,
    // Whether the line was `quit`.
    ends: bool,
}

/// The outcome of a line's bytes, without their LF, in this game, with the session of the text before.
pub(crate) fn answer_line(
    alloc: Global,
    game: GameName,
    before: &[u8],
    come: &[u8],
) -> Result<Answer, AllocError>
    ensures { IfOk result (λ answer. OfGame game
        (IsTurnOutcome ⟦<Towers as Facts>⟧.facts ⟦<Json as Format<Towers>>⟧.reply before.now (come_line come.now)
        (vec_items answer.said) (vec_items answer.saved) answer.outcome)
        (IsTurnOutcome ⟦<Unequal as Facts>⟧.facts ⟦<Json as Format<Unequal>>⟧.reply before.now (come_line come.now)
        (vec_items answer.said) (vec_items answer.saved) answer.outcome)) }
{
    match game {
        GameName::Towers => answer_in::<Json, Towers>(alloc, before, line(come)),
        GameName::Unequal => answer_in::<Json, Unequal>(alloc, before, line(come)),
    }
}

// The outcome of the line in this game and format.
fn answer_in<T: Format<P>, P: Draw>(
    alloc: Global,
    before: &[u8],
    line: Option<&[u8]>,
) -> Result<Answer, AllocError>
    ensures { IfOk result (λ answer.
        IsTurnOutcome ⟦<P as Facts>⟧.facts T.reply before.now (option_copied line.entry)
        (vec_items answer.said) (vec_items answer.saved) answer.outcome) }
{
    match turn_in::<T, P>(alloc, before, line) {
        Ok(
            Turn {
                said,
                saved,
                ends: false,
            },
        ) => Ok(Answer {
            outcome: Outcome::Answered,
            said,
            saved,
        }),
        Ok(
            Turn {
                said,
                saved,
                ends: true,
            },
        ) => Ok(Answer {
            outcome: Outcome::Ended,
            said,
            saved,
        }),
        Err(StartFault::OutOfMemory) => Err(AllocError),
        Err(fault) => Ok(Answer {
            outcome: Outcome::Unread,
            said: Vec::from_slice(alloc, fault.fault_line().as_bytes())?,
            saved: Vec::new(alloc),
        }),
    }
}

// The turn in this game and format.
fn turn_in<T: Format<P>, P: Draw>(
    alloc: Global,
    before: &[u8],
    line: Option<&[u8]>,
) -> Result<Turn, StartFault>
    ensures turn { IfOk result (λ turn.
        IsTurn ⟦<P as Facts>⟧.facts T.reply before.now (option_copied line.entry)
        (vec_items turn.said) (vec_items turn.saved) turn.ends) }
    ensures unread { IfErr result (λ fault. fault ≢ StartFault.OutOfMemory →
        Begins ⟦<P as Facts>⟧.facts None (file_of before.now) (Err fault)) }
{
    let mut session = first::<P>(alloc, before)?;
    let response = T::answer(alloc, &mut session, line);
    let (said, ends) = told(alloc, response)?;
    let saved = text_of(alloc, &session)?;
    Ok(Turn { said, saved, ends })
}

// The line, or none where it is too long.
fn line(come: &[u8]) -> Option<&[u8]>
    ensures { option_copied result ≡ come_line come.now }
{
    if come.len() > LINE_BYTES {
        return None;
    }
    match come {
        [front @ .., b'\r'] => Some(front),
        _ => Some(come),
    }
}

// The session of the text before, or none.
fn first<P: Draw>(alloc: Global, before: &[u8]) -> Result<Option<Session<P>>, StartFault>
    ensures { Begins ⟦<P as Facts>⟧.facts None (file_of before.now) result }
{
    begin::<P>(alloc, None, file(before))
}

// The text before as a file, where there is one.
fn file(before: &[u8]) -> Option<&[u8]>
    ensures { option_copied result ≡ file_of before.now }
{
    if before.is_empty() {
        None
    } else {
        Some(before)
    }
}

// The text of the response, and whether it ends the session.
fn told(alloc: Global, response: Response) -> Result<(Vec<u8>, bool), StartFault>
    ensures said { IfOk result (λ told. vec_items told.0 ≡ said_text response) }
    ensures ends { IfOk result (λ told. told.1 ≡ is_end response) }
    ensures memory { IfErr result (λ fault. fault ≡ StartFault.OutOfMemory) }
{
    match response {
        Response::Reply(text) => match Vec::from_slice(alloc, text.as_bytes()) {
            Ok(said) => Ok((said, false)),
            Err(_) => Err(StartFault::OutOfMemory),
        },
        Response::Silence => Ok((Vec::new(alloc), false)),
        Response::Quit => Ok((Vec::new(alloc), true)),
    }
}

// The text of a save of the session, or nothing.
fn text_of<P: Draw>(alloc: Global, session: &Option<Session<P>>) -> Result<Vec<u8>, StartFault>
    ensures text { IfOk result (λ text. vec_items text ≡ saved_text ⟦<P as Facts>⟧.facts session.now) }
    ensures memory { IfErr result (λ fault. fault ≡ StartFault.OutOfMemory) }
{
    let Some(session) = session else {
        return Ok(Vec::new(alloc));
    };
    match save(alloc, session) {
        Ok(text) => Ok(text),
        Err(_) => Err(StartFault::OutOfMemory),
    }
}
