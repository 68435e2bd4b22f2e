//! The text on refused words: that of `clap`, with the tip that is of use here.

use clap::error::ErrorKind;
use std::alloc::{AllocError, Global};

/// Where a text of `clap` goes over to how the program is used.
const USAGE: &str = "\n\nUsage: ";

/// Where `clap` says that a word may be written after `--`. That is of no use: the only word to be read there is the game.
const AFTER_DASHES: &str = "\n\n  tip: to pass '";

/// The tip where no game is named.
const BOARD: &str = "\n\n  tip: to play on a board, use puzzles-play";

/// The text of words that `clap` refused, for a cause of this kind, in this text. The last LF stays.
///
/// Where no game is named it tells of the board, and where a game ID is there without its option, of the option.
pub(crate) fn advised(alloc: Global, kind: ErrorKind, text: &str) -> Result<String, AllocError> {
    match (kind, text.rsplit_once(USAGE)) {
        (ErrorKind::MissingRequiredArgument, Some((said, usage))) => {
            format!(in alloc; "{said}{BOARD}{USAGE}{usage}")
        }
        (ErrorKind::UnknownArgument, Some((said, usage))) => {
            unknown_word(alloc, without_dashes(said), usage)
        }
        _ => String::from_str(alloc, text),
    }
}

fn without_dashes(said: &str) -> &str {
    match said.split_once(AFTER_DASHES) {
        Some((said, _)) => said,
        None => said,
    }
}

fn unknown_word(alloc: Global, said: &str, usage: &str) -> Result<String, AllocError> {
    match id_without_its_option(said) {
        Some(id) => {
            format!(in alloc; "{said}\n\n  tip: did you mean --id '{id}'?{USAGE}{usage}")
        }
        None => format!(in alloc; "{said}{USAGE}{usage}"),
    }
}

// The word that was not expected, where it looks like a game ID.
fn id_without_its_option(said: &str) -> Option<&str> {
    let word = said
        .strip_prefix("error: unexpected argument '")?
        .strip_suffix("' found")?;
    if word.starts_with(is_size) && word.contains(is_separator) {
        Some(word)
    } else {
        None
    }
}

fn is_size(first: char) -> bool {
    matches!(first, '3'..='9')
}

fn is_separator(letter: char) -> bool {
    matches!(letter, ':' | '!' | '#')
}
