//! The words of the line `fair`.

ghost use Rattle.std.specs.Prelude.{◌≡◌, option_map};
ghost use Rattle.std.specs.Option.{option_copied};
ghost use Rattle.json_replies.specs.BeginLines.{three_words_at};
ghost use Rattle.json_replies.specs.FairLines.{is_word, one_word_at, words_copied};

use byte_text::cut;

/// The words of a line `fair`, each of type `T`.
#[derive(Clone, Copy)]
pub(crate) struct FairWords<T> {
    /// For the size.
    pub(crate) size: T,
    /// For the grade.
    pub(crate) grade: T,
    /// For the seed.
    pub(crate) seed: T,
}

/// The three words of a text, if it is three words with one space between each.
pub(crate) fn three_words(text: &[u8]) -> Option<FairWords<&[u8]>>
    ensures { option_map words_copied result ≡ three_words_at text.now }
{
    let (size, rest) = cut(text, b' ');
    let (grade, seed) = cut(rest?, b' ');
    let seed = seed?;
    if is_word(size) && is_word(grade) && is_word(seed) {
        Some(FairWords { size, grade, seed })
    } else {
        None
    }
}

/// The word that a text is, if it is one.
pub(crate) fn one_word(text: &[u8]) -> Option<&[u8]>
    ensures { option_copied result ≡ one_word_at text.now }
{
    if is_word(text) { Some(text) } else { None }
}

// Whether a text is a word: it has bytes, and none is a space.
fn is_word(text: &[u8]) -> bool
    ensures { result ≡ is_word text.now }
{
    !text.is_empty() && cut(text, b' ').1.is_none()
}
