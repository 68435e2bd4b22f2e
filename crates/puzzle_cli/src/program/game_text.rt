//! A game from its first session to the text to be saved.

ghost use Rattle.std.specs.Prelude.{◌≡◌, ◌≢◌, false, option_map, vec_items, Ok, Err, IfOk, IfErr, OnOk};
ghost use Rattle.std.specs.Option.{option_copied};
ghost use Rattle.puzzle_cli.specs.Faults.{fault_status};
ghost use Rattle.line_replies.specs.Starts.{Begins};
ghost use Rattle.puzzle_cli.specs.Programs.{Plays, Runs, Spells};
ghost use Rattle.line_replies.specs.RunLaws.{IsNoneOrStorable};

use crate::fault::Fault;
use crate::run_end::End;
use crate::session_run::run_with;
use crate::start::command_line::Args;
use line_replies::{Draw, Facts, Format, StartFault, begin};
use play_midend::Session;
use play_save::save;
use puzzle_io::{Sink, Source};
use std::alloc::Global;

/// Plays a game with replies in this format, from the session of the ID or of the file's bytes on, or from none, and gives the text to be saved.
pub(crate) fn game_text<T: Format<P>, P: Draw, R: Source, W: Sink>(
    alloc: Global,
    args: &Args,
    bytes: &Option<Vec<u8>>,
    source: &mut R,
    sink: &mut W,
) -> Result<Option<Vec<u8>>, Fault>
    requires source { R.has_failed source.old ≡ false }
    requires sink { W.has_failed sink.old ≡ false }
    ensures played { IfOk result (λ text.
        Plays ⟦<P as Facts>⟧.facts T.reply R.Source W.Sink args.now (option_map vec_items bytes.now)
        (source.old, sink.old) (Ok (option_map vec_items text)) (source.new, sink.new)) }
    ensures unplayed { IfErr result (λ fault.
        Plays ⟦<P as Facts>⟧.facts T.reply R.Source W.Sink args.now (option_map vec_items bytes.now)
        (source.old, sink.old) (Err fault) (source.new, sink.new)) }
    ensures status { IfErr result (λ fault. fault_status fault ≢ 0) }
    ensures flushed { OnOk result (W.flushed sink.old ≡ W.taken sink.old
        → W.flushed sink.new ≡ W.taken sink.new) }
{
    let first = first_session::<P>(alloc, &args.id, bytes)?;
    let last = run_game::<T, P, R, W>(alloc, first, source, sink)?;
    let text = text_of(alloc, &last, &args.save)?;
    Ok(text)
}

// The session that the game begins with, or none.
fn first_session<P: Draw>(
    alloc: Global,
    id: &Option<String>,
    bytes: &Option<Vec<u8>>,
) -> Result<Option<Session<P>>, StartFault>
    ensures first { IfOk result (λ first.
        Begins ⟦<P as Facts>⟧.facts id.now (option_map vec_items bytes.now) (Ok first)) }
    ensures refused { IfErr result (λ fault.
        Begins ⟦<P as Facts>⟧.facts id.now (option_map vec_items bytes.now) (Err fault)) }
    ensures storable { IfOk result (IsNoneOrStorable ⟦<P as Facts>⟧.facts) }
{
    match id {
        Some(id) => begin::<P>(alloc, Some(id.as_bytes()), None),
        None => begin::<P>(alloc, None, file_of(bytes)),
    }
}

fn file_of(bytes: &Option<Vec<u8>>) -> Option<&[u8]>
    ensures { option_copied result ≡ option_map vec_items bytes.now }
{
    match bytes {
        Some(bytes) => Some(bytes),
        None => None,
    }
}

// Runs the game with replies in this format, and gives the session that is left.
fn run_game<T: Format<P>, P: Draw, R: Source, W: Sink>(
    alloc: Global,
    first: Option<Session<P>>,
    source: &mut R,
    sink: &mut W,
) -> Result<Option<Session<P>>, Fault>
    requires storable { IsNoneOrStorable ⟦<P as Facts>⟧.facts first }
    requires source { R.has_failed source.old ≡ false }
    requires sink { W.has_failed sink.old ≡ false }
    ensures finished { IfOk result (λ last. Runs ⟦<P as Facts>⟧.facts T.reply R.Source W.Sink first
        (source.old, sink.old) (Ok last) (source.new, sink.new)) }
    ensures broken { IfErr result (λ fault. Runs ⟦<P as Facts>⟧.facts T.reply R.Source W.Sink first
        (source.old, sink.old) (Err fault) (source.new, sink.new)) }
    ensures status { IfErr result (λ fault. fault_status fault ≢ 0) }
    ensures flushed { OnOk result (W.flushed sink.old ≡ W.taken sink.old
        → W.flushed sink.new ≡ W.taken sink.new) }
{
    let (last, end) = run_with::<T, P, R, W>(alloc, first, source, sink);
    match end {
        End::Finished => Ok(last),
        End::ReadFault => Err(Fault::Input),
        End::WriteFault => Err(Fault::Output),
    }
}

// The save text of the last session, where there is one and a file to save to.
fn text_of<P: Draw>(
    alloc: Global,
    last: &Option<Session<P>>,
    path: &Option<String>,
) -> Result<Option<Vec<u8>>, Fault>
    ensures text { IfOk result (λ text.
        Spells ⟦<P as Facts>⟧.facts path.now last.now (Ok (option_map vec_items text))) }
    ensures memory { IfErr result (λ fault. Spells ⟦<P as Facts>⟧.facts path.now last.now (Err fault)) }
    ensures status { IfErr result (λ fault. fault_status fault ≢ 0) }
{
    match (last, path) {
        (Some(session), Some(_)) => match save(alloc, session) {
            Ok(text) => Ok(Some(text)),
            Err(_) => Err(Fault::OutOfMemory),
        },
        _ => Ok(None),
    }
}
