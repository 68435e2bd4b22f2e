//! Words of a command line of another program over the same calls: what is read of them, and how its help is told. Those of our own are tried from
//! outside.

use super::rows::{Row, check};
use puzzle_cli::{CommandFault, GameName, ProgramTexts, read_words_of};
use std::alloc::Global;

const DOTS: ProgramTexts = ProgramTexts {
    name: "dots",
    about: "Towers and Unequal in dots",
    more_help: "Each reply is a dot.",
};

fn is_read(alloc: Global) -> bool {
    match read_words_of(alloc, &DOTS, &["dots", "--save", "b", "unequal"]) {
        Ok(args) => {
            let is_saved = match &args.save {
                Some(path) => path.as_str() == "b",
                None => false,
            };
            is_saved && args.game == GameName::Unequal && args.id.is_none() && args.load.is_none()
        }
        Err(_) => false,
    }
}

#[test]
fn words_that_name_a_game(rt: HostRuntime) {
    assert!(rt; is_read(rt.alloc()));
}

// The words, the fault's number, name and status, and a part of its text, which ends with LF.
struct Told(&'static [&'static str], u8, &'static str, u8, &'static str);

fn is_said(fault: &CommandFault, part: &str) -> bool {
    match fault {
        CommandFault::BadWords(text) | CommandFault::HelpAsked(text) => {
            text.as_str().contains(part) && text.as_str().ends_with("\n")
        }
        CommandFault::OutOfMemory => false,
    }
}

impl Row for Told {
    fn holds(&self, alloc: Global) -> bool {
        match read_words_of(alloc, &DOTS, self.0) {
            Ok(_) => false,
            Err(fault) => {
                fault.number() == self.1
                    && fault.name() == self.2
                    && fault.status() == self.3
                    && is_said(&fault, self.4)
            }
        }
    }
}

#[test]
fn words_that_are_answered_at_once(rt: HostRuntime) {
    const HELP: &[&str] = &["dots", "--help"];
    const ROWS: &[Told] = &[
        Told(&["dots", "chess"], 1, "BadWords", 2, ""),
        Told(HELP, 2, "HelpAsked", 0, "Usage: dots"),
        Told(HELP, 2, "HelpAsked", 0, "Towers and Unequal in dots"),
        Told(HELP, 2, "HelpAsked", 0, "Each reply is a dot."),
        Told(&["dots", "-V"], 2, "HelpAsked", 0, "dots 3.0"),
    ];
    check(&rt, rt.alloc(), ROWS);
}
