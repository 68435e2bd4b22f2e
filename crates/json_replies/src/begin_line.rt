//! The lines that begin a game and are no commands.

ghost use Rattle.std.specs.Prelude.{◌≡◌, option_map};
ghost use Rattle.std.specs.Option.{option_copied};
ghost use Rattle.json_replies.specs.BeginLines.{begin_at, begin_copied, first_tried_at, thin_at};

use crate::fair_words::{FairWords, one_word, three_words};
use crate::item_words::{ItemNumbers, item_numbers};
use byte_text::cut;

/// Which game a line begins, in words of type `T`.
#[derive(Clone, Copy)]
pub(crate) enum BeginLine<T> {
    /// A fair game.
    Fair(FairWords<T>),
    /// The puzzle of a size without any item.
    Blank(T),
    /// The session's puzzle with one item changed.
    Item(ItemNumbers),
    /// The session's puzzle without items that it can do without.
    Thin,
    /// The session's puzzle without items that it can do without by a grade.
    ThinBy(T, FirstTried),
    /// The puzzle with the givens of the session's one, and all else that its only solution can say.
    Fill,
}

/// Which items a line `thin` has tried first.
#[derive(Clone, Copy)]
pub(crate) enum FirstTried {
    /// The givens.
    Givens,
    /// The clues or the signs.
    Others,
}

/// Which game a line begins, if it is one of these lines; `None` is a line that is too long.
pub(crate) fn read_begin(line: Option<&[u8]>) -> Option<BeginLine<&[u8]>>
    ensures { option_map begin_copied result ≡ begin_at (option_copied line.entry) }
{
    let text = line?;
    if text == b"thin".as_slice() {
        return Some(BeginLine::Thin);
    }
    if text == b"fill".as_slice() {
        return Some(BeginLine::Fill);
    }
    if let Some(words) = text.strip_prefix(b"thin ") {
        return thin_words(words);
    }
    if let Some(words) = text.strip_prefix(b"fair ") {
        return Some(BeginLine::Fair(three_words(words)?));
    }
    if let Some(word) = text.strip_prefix(b"blank ") {
        return Some(BeginLine::Blank(one_word(word)?));
    }
    Some(BeginLine::Item(item_numbers(text.strip_prefix(b"item ")?)?))
}

// The letter of a line `thin`, and which items it has tried first.
fn thin_words(words: &[u8]) -> Option<BeginLine<&[u8]>>
    ensures { option_map begin_copied result ≡ thin_at words.now }
{
    let (letter, order) = cut(words, b' ');
    let first = first_tried(order)?;
    Some(BeginLine::ThinBy(one_word(letter)?, first))
}

// Which items are tried first, by the word behind the letter, if there is one.
fn first_tried(word: Option<&[u8]>) -> Option<FirstTried>
    ensures { result ≡ first_tried_at (option_copied word.entry) }
{
    let Some(word) = word else {
        return Some(FirstTried::Givens);
    };
    if word == b"givens".as_slice() {
        return Some(FirstTried::Givens);
    }
    if word == b"clues".as_slice() || word == b"signs".as_slice() {
        return Some(FirstTried::Others);
    }
    None
}
