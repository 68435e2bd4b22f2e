//! The command line: which game, what it begins with, and where it is saved.

ghost use Rattle.std.specs.Prelude.{◌≡◌, ◌≢◌, Err, false, codes, option_map, Some, IfOk, IfErr, MatchOption};
ghost use Rattle.std.specs.Option.{option_copied};
ghost use Rattle.std.specs.String.{string_bytes};
ghost use Rattle.clap.specs.Values.{kind_of};
ghost use Rattle.clap.specs.Words.{app_of, first_value, found_of, rule_of};
ghost use Rattle.line_replies.specs.declared.start.game_name.GameName.{GameName};
ghost use Rattle.puzzle_cli.specs.CommandLine.{AreRead, AreUnfit, IsCommandLine, game_word, option_rule, program_line, word_texts};
ghost use Rattle.line_replies.specs.Starts.{NotBoth};
ghost use Rattle.puzzle_cli.specs.Inner.WordReading.{AreParsed, AreValuesFound, IsGameRule, IsParseFault, AreWordsRefused, IsToldOfKind};

use crate::start::command_fault::CommandFault;
use crate::start::program_texts::{PUZZLES, ProgramTexts};
use crate::start::refused_words::advised;
use clap::error::ErrorKind;
use clap::{Arg, ArgMatches, Command};
use line_replies::GameName;
use std::alloc::{AllocError, Global};

/// The arguments of a command line.
#[derive(Debug, PartialEq, Eq, Drop)]
pub struct Args {
    /// The game to play.
    pub game: GameName,
    /// The game ID to begin with.
    pub id: Option<String>,
    /// The path of the file to load the first session from.
    pub load: Option<String>,
    /// The path of the file to save the last session to.
    pub save: Option<String>,
}

const GAME: &str = "game";

const ID: &str = "id";

const LOAD: &str = "load";

const SAVE: &str = "save";

const ID_HELP: &str = "Begin with the puzzle of this game ID";

const LOAD_HELP: &str = "Begin with the session that was saved to this file";

const SAVE_HELP: &str = "Save the session to this file after the last command";

static GAMES: [&str; 2] = ["towers", "unequal"];

/// Reads the words of a command line, `puzzles GAME [--id ID] [--load FILE] [--save FILE]`.
///
/// The first word is the program's name; an empty list is read as that name alone. GAME is `towers` or `unequal`; of an ID
/// and a file to load there may be one.
///
/// `BadWords` has the text of `clap` for words that it refuses, with a tip of our own where one helps, `HelpAsked` that for
/// `--help` and `--version`, and `OutOfMemory` is a refusal of memory.
#[tactic(auto, using(crate::proofs::CommandLines::one_start_is_read))]
pub fn read_words(alloc: Global, words: &[&str]) -> Result<Args, CommandFault>
    ensures read { AreRead (word_texts words.now) result }
    ensures one_start { IfOk result (λ args. NotBoth args.id args.load) }
{
    read_words_of(alloc, &PUZZLES, words)
}

/// Reads the words of a command line as [`read_words`] does, for a program whose help and version say these texts.
///
/// `BadWords`, `HelpAsked` and `OutOfMemory` as there.
#[tactic(auto, using(crate::proofs::CommandLines::one_start_is_read))]
pub fn read_words_of(
    alloc: Global,
    texts: &ProgramTexts,
    words: &[&str],
) -> Result<Args, CommandFault>
    ensures read { AreRead (word_texts words.now) result }
    ensures one_start { IfOk result (λ args. NotBoth args.id args.load) }
{
    match parse(alloc, texts, words) {
        Ok(matches) => args_in(alloc, texts, words, &matches),
        Err(error) => Err(fault_of(alloc, texts, words, &error)?),
    }
}

// Parses the words as the command line without the rule on an ID and a file to load, since no clause of `clap` says which words such a
// rule refuses.
fn parse<'a>(
    alloc: Global,
    texts: &ProgramTexts,
    words: &'a [&'a str],
) -> Result<ArgMatches<'a>, clap::Error>
    ensures matched { IfOk result (λ matches. AreParsed (word_texts words.now) (found_of matches)) }
    ensures refused { IfErr result (λ error. IsParseFault (word_texts words.now) (kind_of error)) }
{
    let id = option(alloc, ID, "ID", ID_HELP);
    command_line(alloc, texts, id)?.try_get_matches_from(words)
}

// The command line of a program with these texts, with this option for an ID.
fn command_line<'a>(
    alloc: Global,
    texts: &ProgramTexts,
    id: Arg<'a>,
) -> Result<Command<'a>, AllocError>
    ensures { rule_of id.entry ≡ option_rule (codes "id") → id.entry.global ≡ false
        → IfOk result (λ command. IsCommandLine (app_of command)) }
{
    let line = bare_command(alloc, texts)?
        .arg(game(alloc))?
        .arg(id)?
        .arg(option(alloc, LOAD, "FILE", LOAD_HELP))?
        .arg(option(alloc, SAVE, "FILE", SAVE_HELP))?;
    Ok(line)
}

// The argument for the game.
fn game<'a>(alloc: Global) -> Arg<'a>
    ensures rule { IsGameRule (rule_of result) }
    ensures local { result.global ≡ false }
{
    Arg::new(alloc, GAME)
        .value_name("GAME")
        .required(true)
        .value_parser(GAMES.as_slice())
        .help("The game to play")
}

// A program with these texts and no arguments.
fn bare_command<'a>(alloc: Global, texts: &ProgramTexts) -> Result<Command<'a>, AllocError>
    ensures { IfOk result (λ command. app_of command ≡ program_line texts.now.name.now) }
{
    Ok(
        Command::new(alloc, texts.name)
            .bin_name(texts.name)?
            .version("3.0")
            .about(texts.about)
            .after_help(texts.more_help),
    )
}

// An option of this name with one value.
fn option<'a>(alloc: Global, name: &'a str, value: &'a str, help: &'a str) -> Arg<'a>
    ensures rule { rule_of result ≡ option_rule name.entry.now }
    ensures local { result.global ≡ false }
{
    Arg::new(alloc, name)
        .long(name)
        .value_name(value)
        .help(help)
}

// The arguments that the parsed words give, or their refusal.
#[tactic(auto, using(crate::proofs::CommandLines::found_is_read, crate::proofs::CommandLines::unfit_is_refused))]
fn args_in(
    alloc: Global,
    texts: &ProgramTexts,
    words: &[&str],
    matches: &ArgMatches<'_>,
) -> Result<Args, CommandFault>
    requires { AreParsed (word_texts words.now) (found_of matches.now) }
    ensures { AreRead (word_texts words.now) result }
{
    match args_of(alloc, matches)? {
        Some(args) => Ok(args),
        None => Err(CommandFault::BadWords(refusal_text(alloc, texts, words)?)),
    }
}

// The arguments of words that are parsed; none where they aren't one game with one way to begin.
fn args_of(alloc: Global, matches: &ArgMatches<'_>) -> Result<Option<Args>, AllocError>
    ensures { IfOk result (λ args. MatchOption args
        (AreUnfit (first_value (found_of matches.now) (codes "game"))
        (first_value (found_of matches.now) (codes "id"))
        (first_value (found_of matches.now) (codes "load")))
        (λ args. AreValuesFound (found_of matches.now) args)) }
{
    let Some(game) = game_of(matches) else {
        return Ok(None);
    };
    let id = matches.get_str(ID);
    let load = matches.get_str(LOAD);
    if id.is_some() && load.is_some() {
        return Ok(None);
    }
    Ok(Some(Args {
        game,
        id: owned(alloc, id)?,
        load: owned(alloc, load)?,
        save: owned(alloc, matches.get_str(SAVE))?,
    }))
}

// The game that the words name.
fn game_of(matches: &ArgMatches<'_>) -> Option<GameName>
    ensures { MatchOption result
        ((name : GameName) → first_value (found_of matches.now) (codes "game") ≢ Some (game_word name))
        (λ name. first_value (found_of matches.now) (codes "game") ≡ Some (game_word name)) }
{
    match matches.get_str(GAME) {
        Some("towers") => Some(GameName::Towers),
        Some("unequal") => Some(GameName::Unequal),
        _ => None,
    }
}

fn owned(alloc: Global, text: Option<&str>) -> Result<Option<String>, AllocError>
    ensures { IfOk result (λ copy. option_map string_bytes copy ≡ option_copied text.entry) }
{
    match text {
        Some(text) => Ok(Some(String::from_str(alloc, text)?)),
        None => Ok(None),
    }
}

// The fault for what `clap` answers in place of matches.
#[tactic(auto, using(crate::proofs::CommandLines::told_is_read))]
fn fault_of(
    alloc: Global,
    texts: &ProgramTexts,
    words: &[&str],
    error: &clap::Error,
) -> Result<CommandFault, AllocError>
    requires { IsParseFault (word_texts words.now) (kind_of error.now) }
    ensures { IfOk result (λ fault. AreWordsRefused (word_texts words.now) fault) }
{
    if error.kind() == ErrorKind::OutOfMemory {
        return Ok(CommandFault::OutOfMemory);
    }
    let text = refusal_text(alloc, texts, words)?;
    Ok(told_of(error, text))
}

// The fault of an error of `clap` with this text.
fn told_of(error: &clap::Error, text: String) -> CommandFault
    ensures { IsToldOfKind (kind_of error.now) result }
{
    if error.use_stderr() {
        CommandFault::BadWords(text)
    } else {
        CommandFault::HelpAsked(text)
    }
}

// The whole text of `clap` on words that are refused, or that ask for help, its last LF included.
fn refusal_text(alloc: Global, texts: &ProgramTexts, words: &[&str]) -> Result<String, AllocError> {
    match parse_strictly(alloc, texts, words) {
        Ok(_) => Ok(String::new(alloc)),
        Err(error) => text_of(alloc, &error),
    }
}

// Parses the words as the whole command line, whose errors tell of all its rules.
fn parse_strictly<'a>(
    alloc: Global,
    texts: &ProgramTexts,
    words: &'a [&'a str],
) -> Result<ArgMatches<'a>, clap::Error> {
    let id = option(alloc, ID, "ID", ID_HELP).conflicts_with(LOAD)?;
    command_line(alloc, texts, id)?.try_get_matches_from(words)
}

fn text_of(alloc: Global, error: &clap::Error) -> Result<String, AllocError> {
    if error.kind() == ErrorKind::OutOfMemory {
        return Err(AllocError);
    }
    let text = error.to_string(alloc)?;
    if error.use_stderr() {
        advised(alloc, error.kind(), &text)
    } else {
        Ok(text)
    }
}
