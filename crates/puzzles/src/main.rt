//! Towers and Unequal as programs: `puzzles GAME [--id ID] [--load FILE] [--save FILE]`, and `puzzles-json` with the same words.
//!
//! Each line of standard input is answered on standard output: by lines of text, or, where the program is called `puzzles-json`, by
//! one JSON object on one line ([`program_name`]). The words of the process, the file to load, the first session, the run from standard
//! input to standard output, the file to save to, in this order ([`whole_game`]). The first fault ends the program with its status and
//! its line on standard error; help goes to standard output ([`ending`]). At a terminal the first thing that is
//! told there is which lines can be typed.
#![tactic(auto)]

mod ending;
mod json_texts;
mod load_file;
mod process_words;
mod program_name;
mod system_files;
mod whole_game;

use crate::ending::{status_of, tell_unread};
use crate::process_words::{ProcessWords, Words};
use crate::program_name::program_name;
use crate::system_files::SystemFiles;
use crate::whole_game::program;
use puzzle_cli::Fault;
use puzzle_io::{FromRead, ToWrite};
use std::io;
use std::io::IsTerminal;
use std::process::ExitCode;

fn main(rt: HostRuntime) -> ExitCode {
    let words = ProcessWords { rt: &rt };
    let mut files = SystemFiles {
        rt: &rt,
        unread: None,
    };
    let ended = program(
        &rt,
        rt.alloc(),
        rt.stdin().is_terminal(),
        &words,
        &mut files,
        &mut FromRead::new(rt.reader()),
        &mut ToWrite::new(io::writer(&rt)),
    );
    let is_unread = matches!(ended, Err(Fault::LoadFile));
    let status = status_of(&rt, ended);
    if is_unread && let Ok(words) = words.words() {
        tell_unread(&rt, program_name(&words), files.unread);
    }
    ExitCode::from(status)
}
