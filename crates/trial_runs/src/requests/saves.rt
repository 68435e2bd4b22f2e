//! The lines that are printed of a save: what becomes of it, or of the texts that damage makes of it.

use crate::requests::answers::{Answer, Tally};
use crate::requests::damage::{DAMAGES, Damage, SaveText};
use clue_rules::Game;
use play_midend::Session;
use play_save::{load, save};
use puzzle_cli::status_text;
use std::alloc::Global;
use std::io;
use std::io::Write;

/// Prints what becomes of a save file.
pub(crate) fn print_loaded<P: Game>(
    rt: &(impl Print + AllocGlobal),
    name: &str,
    bytes: &[u8],
) -> io::Result<()> {
    match load::<P>(rt.alloc(), bytes) {
        Ok(session) => print_session(rt, name, bytes, &session),
        Err(fault) => println!(rt; "{name}; {}", fault.name()),
    }
}

fn print_session<P: Game>(
    rt: &(impl Print + AllocGlobal),
    name: &str,
    bytes: &[u8],
    session: &Session<P>,
) -> io::Result<()> {
    let (Some(respelled), Ok(desc)) = (
        respelled(rt.alloc(), bytes, session),
        session.puzzle().write_desc(rt.alloc()),
    ) else {
        return println!(rt; "{name}; no memory");
    };
    print!(rt; "{name}; ok; {}; ", status_text(session).as_str())?;
    io::writer(rt).write_all(session.params().write().as_slice())?;
    print!(rt; ":")?;
    io::writer(rt).write_all(&desc)?;
    println!(rt; ";{respelled}")
}

// A remark where the session is written otherwise; None where memory is refused.
fn respelled<P: Game>(alloc: Global, bytes: &[u8], session: &Session<P>) -> Option<&'static str> {
    match save(alloc, session) {
        Ok(again) if again.as_slice() == bytes => Some(""),
        Ok(_) => Some(" respelled"),
        Err(_) => None,
    }
}

/// Prints of each kind of damage what came of the texts that it makes of a save file.
pub(crate) fn print_damaged<P: Game>(
    rt: &(impl Print + AllocGlobal),
    bytes: &[u8],
) -> io::Result<()> {
    let save = SaveText::new(rt.alloc(), bytes)?;
    for damage in DAMAGES.iter() {
        print_kind::<P>(rt, &save, *damage)?;
    }
    Ok(())
}

fn print_kind<P: Game>(
    rt: &(impl Print + AllocGlobal),
    save: &SaveText,
    damage: Damage,
) -> io::Result<()> {
    let mut tally = Tally::new();
    for number in 0..damage.numbers(save) {
        if let Some(text) = damage.text(rt.alloc(), save, number)? {
            tally.take(&Answer::of::<P>(rt.alloc(), &text)?);
        }
    }
    print!(rt;
        "{}; {}; {:016x}",
        damage.name(),
        tally.texts,
        tally.digest()
    )?;
    for (name, texts) in tally.counts.iter() {
        if *texts > 0 {
            print!(rt; "; {name} {texts}")?;
        }
    }
    println!(rt; "")
}
