//! The program: a game from the words of its command line to the file that it is saved to.

ghost use Rattle.std.specs.Prelude.{◌≡◌, ◌≢◌, false, IfErr, OnOk};
ghost use Rattle.puzzle_cli.specs.Faults.{fault_status};
ghost use Rattle.puzzle_cli.specs.Programs.{IsGame};
ghost use Rattle.line_replies.specs.Starts.{OfGame};

pub(crate) mod game_files;
pub(crate) mod game_text;

use crate::fault::Fault;
use crate::program::game_files::{GameFiles, load_file, save_file};
use crate::program::game_text::game_text;
use crate::start::command_line::Args;
use line_replies::{Draw, Facts, Format, GameName};
use puzzle_io::{Sink, Source};
use std::alloc::Global;
use towers_game::Towers;
use unequal_game::Unequal;

/// Plays the game that the words name, from the file to load to the file to save to, with replies in this format.
///
/// The first session is that of the game ID, that of the file to load, or none. The lines of the source are answered to the sink
/// as by [`run_with`](crate::run_with). The session that is left is saved, where there is one and the words name a file to save to.
///
/// `LoadFile` and `SaveFile` where a file can't be read or written, `Start` where the first session is refused, `Input` and `Output`
/// where a device failed, and `OutOfMemory`, each with a status other than 0. Of files no more is asked than to read the one, and, once
/// the run has finished, to write the other.
///
/// Where the words name both an ID and a file to load, the file is read and not used. Neither device has failed before.
pub fn play<T: Format<Towers> + Format<Unequal>, F: GameFiles, R: Source, W: Sink>(
    alloc: Global,
    args: &Args,
    files: &mut F,
    source: &mut R,
    sink: &mut W,
) -> Result<(), Fault>
    requires source { R.has_failed source.old ≡ false }
    requires sink { W.has_failed sink.old ≡ false }
    ensures game { OfGame args.now.game
        (IsGame ⟦<Towers as Facts>⟧.facts ⟦<T as Format<Towers>>⟧.reply F.reads F.writes R.Source W.Sink args.now)
        (IsGame ⟦<Unequal as Facts>⟧.facts ⟦<T as Format<Unequal>>⟧.reply F.reads F.writes R.Source W.Sink args.now)
        (files.old, (source.old, sink.old)) result (files.new, (source.new, sink.new)) }
    ensures status { IfErr result (λ fault. fault_status fault ≢ 0) }
    ensures flushed { OnOk result (W.flushed sink.old ≡ W.taken sink.old
        → W.flushed sink.new ≡ W.taken sink.new) }
{
    match args.game {
        GameName::Towers => play_as::<T, Towers, F, R, W>(alloc, args, files, source, sink),
        GameName::Unequal => play_as::<T, Unequal, F, R, W>(alloc, args, files, source, sink),
    }
}

// Plays this game as `play` does, whichever game the words name.
fn play_as<T: Format<P>, P: Draw, F: GameFiles, R: Source, W: Sink>(
    alloc: Global,
    args: &Args,
    files: &mut F,
    source: &mut R,
    sink: &mut W,
) -> Result<(), Fault>
    requires source { R.has_failed source.old ≡ false }
    requires sink { W.has_failed sink.old ≡ false }
    ensures game { IsGame ⟦<P as Facts>⟧.facts T.reply F.reads F.writes R.Source W.Sink args.now
        (files.old, (source.old, sink.old)) result (files.new, (source.new, sink.new)) }
    ensures status { IfErr result (λ fault. fault_status fault ≢ 0) }
    ensures flushed { OnOk result (W.flushed sink.old ≡ W.taken sink.old
        → W.flushed sink.new ≡ W.taken sink.new) }
{
    let bytes = load_file(files, &args.load)?;
    let text = game_text::<T, P, R, W>(alloc, args, &bytes, source, sink)?;
    save_file(files, &args.save, &text)?;
    Ok(())
}
