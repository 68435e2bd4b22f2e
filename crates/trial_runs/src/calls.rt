//! One call in a run of its own, so that each of its requests for memory can be refused from outside.
//!
//! It writes how the call was answered, `ok` or the name of the refusal; then `same` or `changed`, as the session is after the call; then
//! what the call made, as text. Where memory is refused before the call, it writes `fixture` alone; where it is refused after the call, for
//! the text, it writes `afterwards` alone.
//!
//! ```text
//! $ trial_runs call towers restart
//! ok
//! changed
//! ```

mod call;
mod fixture;
pub(crate) mod made;
mod twins;

use crate::calls::call::{CALLS, Call, FIXTURE, call_named, make};
use crate::calls::fixture::{Start, session_at};
use crate::calls::twins::are_equal;
use clue_rules::{Towers, Unequal};
use puzzle_cli::Draw;
use std::io;
use std::io::Write;

/// A Towers puzzle with one solution, 123 231 312.
const TOWERS: &str = "3:3//////3/////";

/// An Unequal puzzle with the same solution.
const UNEQUAL: &str = "3:0,0L,0L,0U,0,0,0U,0,0,";

/// Makes the call with this name in a session of this game.
pub(crate) fn make_call(rt: &(impl Print + AllocGlobal), game: &str, name: &str) -> io::Result<()> {
    match (game, call_named(name)) {
        ("towers", Some((start, call))) => make_in::<Towers>(rt, TOWERS, start, call),
        ("unequal", Some((start, call))) => make_in::<Unequal>(rt, UNEQUAL, start, call),
        _ => println!(rt; "no such call"),
    }
}

/// Lists the calls, each with its game.
pub(crate) fn list_calls(rt: &impl Print) -> io::Result<()> {
    list_calls_of(rt, "towers")?;
    list_calls_of(rt, "unequal")
}

fn list_calls_of(rt: &impl Print, game: &str) -> io::Result<()> {
    for (name, _, _) in CALLS.iter() {
        println!(rt; "{game} {name}")?;
    }
    Ok(())
}

// Makes a call in one of two sessions that are equal, and says what came of it.
fn make_in<P: Draw>(
    rt: &(impl Print + AllocGlobal),
    id: &str,
    start: Start,
    call: &Call,
) -> io::Result<()> {
    let (Some(mut session), Some(mut twin)) = (
        session_at::<P>(rt.alloc(), id, start),
        session_at::<P>(rt.alloc(), id, start),
    ) else {
        return println!(rt; "{FIXTURE}");
    };
    let made = make(rt.alloc(), id, &mut session, call);
    let is_same = are_equal(&mut session, &mut twin);
    match made {
        Err(name) if name == FIXTURE => println!(rt; "{FIXTURE}"),
        Err(name) => print_answer(rt, name, is_same, b""),
        Ok(made) => match made.text(rt.alloc()) {
            Ok(text) => print_answer(rt, "ok", is_same, &text),
            Err(_) => println!(rt; "afterwards"),
        },
    }
}

fn print_answer(rt: &impl Print, name: &str, is_same: bool, text: &[u8]) -> io::Result<()> {
    let likeness = if is_same { "same" } else { "changed" };
    println!(rt; "{name}\n{likeness}")?;
    io::writer(rt).write_all(text)
}
