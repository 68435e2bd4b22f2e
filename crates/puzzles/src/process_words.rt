//! The words of a program, and what they say.

ghost use Rattle.std.specs.Prelude.{◌≡◌, List, Result, Ok, Err, IfOk, IfErr, map, string_bytes};
ghost use Rattle.puzzle_cli.specs.CommandLine.{AreRead, word_texts};
ghost use Rattle.puzzle_cli.specs.Starts.{Word};
ghost use Rattle.puzzle_cli.specs.declared.start.command_fault.CommandFault.{CommandFault};

use puzzle_cli::{Args, CommandFault, ProgramTexts, read_words_of};
use std::alloc::{AllocError, Global};
use std::rt::Env;
use std::{env, io};

/// The message on words that no text can hold.
const NO_TEXT: &str =
    "error: a word of the command line is no UTF-8 text\n\nFor more information, try '--help'.\n";

/// Where the words of a program come from.
pub(crate) trait Words {
    // The outcomes of asking for the words: these, the name that the program was called by before the others,
    // or why there are none.
    ghost gives: { Self → Result (List Word) CommandFault → Type 0 };

    /// The words.
    fn words(&self) -> Result<Vec<String>, CommandFault>
        ensures ok { IfOk result (λ words. gives self.now (Ok words.items)) }
        ensures err { IfErr result (λ fault. gives self.now (Err fault)) };
}

/// The words of the process. No contract can say which they are.
#[derive(Drop)]
pub(crate) struct ProcessWords<'a, R> {
    pub(crate) rt: &'a R,
}

impl<R: Env + AllocGlobal> Words for ProcessWords<'_, R> {
    ghost gives = { λ _ _. Unit {0} };

    fn words(&self) -> Result<Vec<String>, CommandFault> {
        match env::args(self.rt) {
            Ok(words) => Ok(words.collect(self.rt.alloc())?),
            Err(error) if error.kind() == io::ErrorKind::OutOfMemory => {
                Err(CommandFault::OutOfMemory)
            }
            Err(_) => Err(CommandFault::BadWords(String::from_str(self.rt.alloc(), NO_TEXT)?)),
        }
    }
}

/// The arguments that these words give to a program with these texts.
pub(crate) fn args(
    alloc: Global,
    texts: &ProgramTexts,
    words: &[String],
) -> Result<Args, CommandFault>
    ensures { AreRead (map string_bytes words.now) result }
{
    let words = texts_of(alloc, words)?;
    read_words_of(alloc, texts, &words)
}

// These words as texts.
fn texts_of<'a>(alloc: Global, words: &'a [String]) -> Result<Vec<&'a str>, AllocError>
    ensures { IfOk result (λ list. word_texts list.items ≡ map string_bytes words.now) }
{
    let mut list = Vec::new(alloc);
    for word in words {
        list.push(word.as_str())?;
    }
    Ok(list)
}
