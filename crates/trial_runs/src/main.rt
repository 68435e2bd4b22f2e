//! Runs for trials from outside: answers that another implementation made too, calls whose memory can be refused, and times.
//!
//! The words after the program's name are its parts, which it does one after the other.
//!
//! | words | part |
//! |---|---|
//! | `answers` | answers the lines of standard input, requests whose answers were made elsewhere ([`requests`]) |
//! | `calls` | lists the calls that it can make, each with its game |
//! | `call GAME NAME` | makes one of them ([`calls`]) |
//! | `each`, `each-listing` | times the solver on the puzzles of standard input ([`timing`]) |
//!
//! Where memory is refused before the words are known, it writes `fixture` alone.
#![tactic(auto)]

mod calls;
mod requests;
mod timing;

use crate::calls::{list_calls, make_call};
use crate::requests::answer_requests;
use crate::timing::{Task, time_lines};
use std::alloc::Global;
use std::process::ExitCode;
use std::rt::{Clock, Env, Files};
use std::{env, io};

fn main(rt: HostRuntime) -> io::Result<ExitCode> {
    let words = match process_words(&rt) {
        Ok(words) => words,
        Err(error) if error.kind() == io::ErrorKind::OutOfMemory => {
            println!(rt; "fixture")?;
            return Ok(ExitCode::SUCCESS);
        }
        Err(error) => return Err(error),
    };
    match words.as_slice() {
        [_, parts @ ..] if !parts.is_empty() => do_parts(&rt, parts),
        _ => say_parts(&rt),
    }
}

fn process_words(rt: &(impl Env + AllocGlobal)) -> io::Result<Vec<String>> {
    Ok(env::args(rt)?.collect(rt.alloc())?)
}

// Does the parts that the words name, up to a word that names none.
fn do_parts<R: Clock + Alloc<A = Global> + Input + Files + Print + Eprint>(
    rt: &R,
    words: &[String],
) -> io::Result<ExitCode> {
    let mut rest = words;
    for _ in 0..words.len() {
        match rest {
            [] => break,
            [word, game, name, more @ ..] if word.as_str() == "call" => {
                make_call(rt, game.as_str(), name.as_str())?;
                rest = more;
            }
            [word, more @ ..] => {
                if !do_part(rt, word.as_str())? {
                    return say_parts(rt);
                }
                rest = more;
            }
        }
    }
    Ok(ExitCode::SUCCESS)
}

// Does the part of one word; answers false where there is none of this name.
fn do_part<R: Clock + Alloc<A = Global> + Input + Files + Print + Eprint>(
    rt: &R,
    word: &str,
) -> io::Result<bool> {
    match word {
        "answers" => answer_requests(rt)?,
        "calls" => list_calls(rt)?,
        "each" => time_lines(rt, Task::Solve)?,
        "each-listing" => time_lines(rt, Task::List)?,
        _ => return Ok(false),
    }
    Ok(true)
}

// Says which parts there are.
fn say_parts(rt: &impl Eprint) -> io::Result<ExitCode> {
    eprintln!(rt; "trial_runs: answers, calls, call GAME NAME, each or each-listing")?;
    Ok(ExitCode::from(2))
}
