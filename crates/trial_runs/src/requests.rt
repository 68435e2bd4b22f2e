//! Answers lines of requests whose answers were made elsewhere: by the usual program, by its manual, and by
//! tests/second_implementation, which is written from docs/RULES.md and docs/FORMATS.md alone and makes the wanted output.
//!
//! | line | answer |
//! |---|---|
//! | `load FILE` | what becomes of a save: the refusal's name; or the status, the game ID, and `respelled` where the session is written otherwise |
//! | `damage FILE` | for each kind of damage how many texts were made of the save, a digest of the answers to them in order, and how often each answer came |
//! | `square SIZE SEED` | the numbers of a seed's square |
//! | `towers SIZE SEED`, `unequal SIZE SEED` | the ID of a seed's game |
//! | `fair GAME SIZE LETTER SEED` | the ID of a seed's fair game, or the refusal's name |
//!
//! A line that begins with # comes back as it is. Files lie in data/, in a folder for each game: fresh-, solved- and played- ones were
//! written by the usual program (docs/SOURCES.md), worked- ones by hand.
//!
//! ```text
//! $ printf 'load towers/worked-undone.sav\nsquare 3 0\n' | trial_runs answers
//! towers/worked-undone.sav; ok; playing 2/3; 3:3//////3/////;
//! square 3 0 132213321
//! ```

mod answers;
mod damage;
mod saves;
mod seeded;

use crate::requests::saves::{print_damaged, print_loaded};
use crate::requests::seeded::seeded_answer;
use clue_rules::{Game, Towers, Unequal};
use std::io::Write;
use std::rt::Files;
use std::{fs, io};

fn answer_save<P: Game>(
    rt: &(impl Files + Print + AllocGlobal),
    line: &str,
    name: &str,
) -> io::Result<()> {
    let text = fs::read(rt, name)?;
    if line.starts_with("load ") {
        return print_loaded::<P>(rt, name, &text);
    }
    println!(rt; "{line}")?;
    print_damaged::<P>(rt, &text)
}

// Answers one line. The folder of a save says which game it is of.
fn answer(rt: &(impl Files + Print + AllocGlobal), line: &str) -> io::Result<()> {
    match line.split_once(' ') {
        _ if line.starts_with('#') => println!(rt; "{line}"),
        Some(("load" | "damage", name)) if name.starts_with("towers/") => {
            answer_save::<Towers>(rt, line, name)
        }
        Some(("load" | "damage", name)) => answer_save::<Unequal>(rt, line, name),
        _ => {
            let answer = seeded_answer(rt.alloc(), line)?;
            print!(rt; "{line} ")?;
            io::writer(rt).write_all(&answer)?;
            println!(rt; "")
        }
    }
}

/// Answers the lines of standard input.
pub(crate) fn answer_requests(rt: &(impl Input + Files + Print + AllocGlobal)) -> io::Result<()> {
    for line in rt.lines(rt.alloc()) {
        answer(rt, line?.as_str())?;
    }
    Ok(())
}
