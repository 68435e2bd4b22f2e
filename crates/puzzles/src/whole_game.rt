//! The program as one expression: from the words of a process to a status, over files and streams.

ghost use Rattle.std.specs.Prelude.{◌≡◌, false};
ghost use Rattle.puzzle_cli.specs.Programs.{IsGame};
ghost use Rattle.puzzle_cli.specs.Starts.{OfGame};
ghost use Rattle.puzzles.specs.WholePrograms.{IsOfWords, IsProgram};

use crate::json_texts::PUZZLES_JSON;
use crate::process_words::{Words, args};
use crate::program_name::{ProgramName, program_name};
use clue_rules::{Towers, Unequal};
use json_replies::Json;
use puzzle_cli::{Facts, Fault, Format, GameFiles, PUZZLES, Plain, ProgramTexts, play};
use puzzle_io::{Sink, Source};
use std::alloc::Global;

/// The line that tells a user who types at a terminal of the lines and of the board.
const GREETING: &str = "puzzles --help has the lines that can be typed; puzzles-play is the board";

/// Reads the words, and plays the game that they name, in the format of the name that the program is called by, as
/// [`play`](puzzle_cli::play) does, from the source to the sink and over the files.
///
/// It can say nothing on standard output but by the sink. Neither stream has failed before. Where lines of text are typed at a terminal,
/// it tells on standard error beforehand which those are.
///
/// The contract says first how the program answers under the name `puzzles`, and then under `puzzles-json`, each for Towers
/// and for Unequal.
pub(crate) fn program<T: Eprint, A: Words, F: GameFiles, R: Source, W: Sink>(
    rt: &T,
    alloc: Global,
    is_typed: bool,
    words: &A,
    files: &mut F,
    source: &mut R,
    sink: &mut W,
) -> Result<(), Fault>
    requires source { R.has_failed source.old ≡ false }
    requires sink { W.has_failed sink.old ≡ false }
    ensures { IsProgram (A.gives words.now)
        (λ args. OfGame args.game
        (IsGame ⟦<Towers as Facts>⟧.facts ⟦<Plain as Format<Towers>>⟧.reply F.reads F.writes R.Source W.Sink args)
        (IsGame ⟦<Unequal as Facts>⟧.facts ⟦<Plain as Format<Unequal>>⟧.reply F.reads F.writes R.Source W.Sink args))
        (λ args. OfGame args.game
        (IsGame ⟦<Towers as Facts>⟧.facts ⟦<Json as Format<Towers>>⟧.reply F.reads F.writes R.Source W.Sink args)
        (IsGame ⟦<Unequal as Facts>⟧.facts ⟦<Json as Format<Unequal>>⟧.reply F.reads F.writes R.Source W.Sink args))
        (files.old, (source.old, sink.old)) result (files.new, (source.new, sink.new)) }
{
    let words = match words.words() {
        Ok(words) => words,
        Err(fault) => return Err(Fault::Words(fault)),
    };
    match program_name(&words) {
        ProgramName::Puzzles => {
            play_words::<Plain, T, F, R, W>(
                rt, alloc, is_typed, &PUZZLES, &words, files, source, sink,
            )
        }
        ProgramName::PuzzlesJson => {
            play_words::<Json, T, F, R, W>(
                rt,
                alloc,
                false,
                &PUZZLES_JSON,
                &words,
                files,
                source,
                sink,
            )
        }
    }
}

// Reads the words and plays the game.
fn play_words<N: Format<Towers> + Format<Unequal>, T: Eprint, F: GameFiles, R: Source, W: Sink>(
    rt: &T,
    alloc: Global,
    is_typed: bool,
    texts: &ProgramTexts,
    words: &[String],
    files: &mut F,
    source: &mut R,
    sink: &mut W,
) -> Result<(), Fault>
    requires source { R.has_failed source.old ≡ false }
    requires sink { W.has_failed sink.old ≡ false }
    ensures { IsOfWords
        (λ args. OfGame args.game
        (IsGame ⟦<Towers as Facts>⟧.facts ⟦<N as Format<Towers>>⟧.reply F.reads F.writes R.Source W.Sink args)
        (IsGame ⟦<Unequal as Facts>⟧.facts ⟦<N as Format<Unequal>>⟧.reply F.reads F.writes R.Source W.Sink args))
        words.now (files.old, (source.old, sink.old)) result (files.new, (source.new, sink.new)) }
{
    match args(alloc, texts, words) {
        Ok(args) => {
            greet(rt, is_typed);
            play::<N, F, R, W>(alloc, &args, files, source, sink)
        }
        Err(fault) => Err(Fault::Words(fault)),
    }
}

// Tells a user who types lines what there is. Where standard error fails, nothing is left to say.
fn greet(rt: &impl Eprint, is_typed: bool) {
    if is_typed {
        let _ = eprintln!(rt; "{GREETING}");
    }
}
