//! How a program ends: what it says at its end, and its status.

ghost use Rattle.std.specs.Prelude.{◌≡◌, OnErr, OnOk};
ghost use Rattle.std.specs.Result.{result_err};
ghost use Rattle.puzzles.specs.Endings.{IsStatus};

use crate::program_name::ProgramName;
use crate::system_files::Unread;
use puzzle_cli::{CommandFault, Fault};
use std::io;

/// The status that a program ends with, after it has said what there is to say.
///
/// 0 where its work is done. Otherwise the line of the fault, or the text of refused words, goes to standard error, and the status is the
/// fault's. The text of help goes to standard output, with status 0, or 1 where that can't be written. The
/// printed texts are only tested.
pub(crate) fn status_of(rt: &(impl Print + Eprint), ended: Result<(), Fault>) -> u8
    ensures { IsStatus (result_err ended) result }
{
    match ended {
        Ok(()) => 0,
        Err(Fault::Words(CommandFault::HelpAsked(text))) => help_status(rt, print!(rt; "{text}")),
        Err(fault) => {
            complain(rt, &fault);
            fault.status()
        }
    }
}

// The status after help, by whether its text could be written; where it couldn't, that is said.
fn help_status(rt: &impl Eprint, written: io::Result<()>) -> u8
    ensures written { OnOk written (result ≡ 0) }
    ensures unwritten { OnErr written (result ≡ 1) }
{
    if written.is_err() {
        complain(rt, &Fault::Output);
        return Fault::Output.status();
    }
    0
}

// Says what there is to say of a fault. Where standard error fails too, nothing is left to say.
fn complain(rt: &impl Eprint, fault: &Fault) {
    if let Fault::Words(CommandFault::BadWords(text)) = fault {
        let _ = eprint!(rt; "{text}");
        return;
    }
    let line = fault.line();
    let _ = eprintln!(rt; "{line}");
    if let Some(path) = fault.left_at() {
        let _ = eprintln!(rt; "the save is in {path}");
    }
}

/// Of a file that couldn't be read `puzzles-json` says which it is, and why. `puzzles` says no more than the line of the fault.
pub(crate) fn tell_unread(rt: &impl Eprint, name: ProgramName, unread: Option<Unread>) {
    if let (ProgramName::PuzzlesJson, Some(Unread { path, why })) = (name, unread) {
        let _ = eprintln!(rt; "{path}: {why}");
    }
}
