//! The request of a line `fair`.

ghost use Rattle.std.specs.Prelude.{◌≡◌, ℕ, MatchOption};
ghost use Rattle.line_steps.specs.declared.grade.Grade.{Grade};
ghost use Rattle.json_replies.specs.FairLines.{IsSizeWord, IsGradeWord, IsSeedWord, IsAsked, is_letter, letter_at, words_copied};

use crate::begin_refusal::BeginRefusal;
use crate::fair_words::FairWords;
use crate::shown::Shows;
use byte_text::number;
use fair_games::{FairGame, grade_of_letter, is_offered};
use latin_board::Size;
use named_steps::Grade;

/// A fair game by its size, its grade and its seed.
#[derive(Clone, Copy)]
pub(crate) struct FairRequest {
    pub(crate) size: Size,
    pub(crate) grade: Grade,
    pub(crate) seed: u64,
}

/// The request of the words, in the game `P`.
///
/// Refused, in this order, as `BadSize`, `BadLetter`, `BadSeed`.
pub(crate) fn read_request<P: Shows>(words: FairWords<&[u8]>) -> Result<FairRequest, BeginRefusal>
    ensures { IsAsked P.letter_of (words_copied words.entry) result }
{
    let Some(size) = read_size(words.size) else {
        return Err(BeginRefusal::BadSize);
    };
    let Some(grade) = read_grade::<P>(size, words.grade) else {
        return Err(BeginRefusal::BadLetter);
    };
    match number(words.seed, u64::MAX) {
        Some(seed) => Ok(FairRequest { size, grade, seed }),
        None => Err(BeginRefusal::BadSeed),
    }
}

/// The size that a word says.
pub(crate) fn read_size(word: &[u8]) -> Option<Size>
    ensures { MatchOption result ((size : ℕ) → IsSizeWord size word.now → ⊥)
        (λ size. IsSizeWord size word.now) }
{
    match word {
        [digit] => Size::new(digit.wrapping_sub(b'0')),
        _ => None,
    }
}

// The grade that a word says, of those that fair games of the size have.
fn read_grade<P: Shows>(size: Size, word: &[u8]) -> Option<Grade>
    ensures { MatchOption result ((grade : Grade) → IsGradeWord P.letter_of size grade word.now → ⊥)
        (λ grade. IsGradeWord P.letter_of size grade word.now) }
{
    let [letter] = word else {
        return None;
    };
    let grade = grade_of_letter::<P>(*letter)?;
    if is_offered::<P>(size, grade) {
        Some(grade)
    } else {
        None
    }
}

/// The grade of which a word is the letter.
pub(crate) fn read_letter<P: Shows>(word: &[u8]) -> Option<Grade>
    ensures { result ≡ letter_at P.letter_of word.now }
{
    if is_letter::<P>(Grade::Latin, word) {
        Some(Grade::Latin)
    } else if is_letter::<P>(Grade::Easy, word) {
        Some(Grade::Easy)
    } else if is_letter::<P>(Grade::Hard, word) {
        Some(Grade::Hard)
    } else {
        None
    }
}

// Whether the word is the letter of the grade.
fn is_letter<P: Shows>(grade: Grade, word: &[u8]) -> bool
    ensures { result ≡ is_letter (P.letter_of grade) word.now }
{
    match (<P as FairGame>::letter(grade), word) {
        (Some(own), [letter]) => own == *letter,
        _ => false,
    }
}
