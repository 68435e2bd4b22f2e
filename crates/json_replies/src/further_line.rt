//! The lines beside the commands that are answered from the session.

ghost use Rattle.std.specs.Prelude.{◌≡◌};
ghost use Rattle.std.specs.Option.{option_copied};
ghost use Rattle.json_replies.specs.FurtherLines.{further_at, further_key, is_last_key, spare_at};

use crate::begin_refusal::BeginRefusal;
use crate::fair_request::read_letter;
use crate::fair_words::one_word;
use crate::shown::Shows;
use named_steps::Grade;

/// A line that is no command, by what it asks for.
#[derive(Clone, Copy)]
pub(crate) enum FurtherLine {
    /// The board that is shown.
    Board,
    /// How many solutions keep the board's numbers.
    Completable,
    /// A number that follows from the board's numbers.
    Hint,
    /// A number that follows from the board's pencil marks.
    HintMarks,
    /// The grade of the steps by which the puzzle follows.
    Grade,
    /// Two of the solutions that keep the board's numbers, or as many as there are.
    Solutions,
    /// The items that could be left out, or of which one is to blame.
    Spare,
    /// The items without each of which the puzzle follows by a grade.
    SpareBy(Grade),
}

impl FurtherLine {
    /// Under which key the answer stands.
    pub(crate) fn key(self) -> &'static str
        ensures { result.now ≡ further_key self }
    {
        match self {
            FurtherLine::Board => "board",
            FurtherLine::Completable => "completable",
            FurtherLine::Hint => "hint",
            FurtherLine::HintMarks => "hint",
            FurtherLine::Grade => "grade",
            FurtherLine::Solutions => "solutions",
            FurtherLine::Spare => "spare",
            FurtherLine::SpareBy(_) => "spare",
        }
    }
}

impl FurtherLine {
    /// Whether the answer's key comes after those of all members.
    pub(crate) fn is_last(self) -> bool
        ensures { result ≡ is_last_key self }
    {
        match self {
            FurtherLine::Solutions => true,
            FurtherLine::Spare => true,
            FurtherLine::SpareBy(_) => true,
            _ => false,
        }
    }
}

/// Which of these lines a line is, if any, or why it is none that can be answered: `BadLetter`; `None` is a line that is too long.
pub(crate) fn read_further<P: Shows>(
    line: Option<&[u8]>,
) -> Option<Result<FurtherLine, BeginRefusal>>
    ensures { result ≡ further_at P.letter_of (option_copied line.entry) }
{
    let line = line?;
    if line == b"board".as_slice() {
        Some(Ok(FurtherLine::Board))
    } else if line == b"completable".as_slice() {
        Some(Ok(FurtherLine::Completable))
    } else if line == b"hint".as_slice() {
        Some(Ok(FurtherLine::Hint))
    } else if line == b"hint marks".as_slice() {
        Some(Ok(FurtherLine::HintMarks))
    } else if line == b"grade".as_slice() {
        Some(Ok(FurtherLine::Grade))
    } else if line == b"solutions".as_slice() {
        Some(Ok(FurtherLine::Solutions))
    } else if line == b"spare".as_slice() {
        Some(Ok(FurtherLine::Spare))
    } else {
        Some(spare_by::<P>(one_word(line.strip_prefix(b"spare ")?)?))
    }
}

// The line `spare` and this word.
fn spare_by<P: Shows>(word: &[u8]) -> Result<FurtherLine, BeginRefusal>
    ensures { result ≡ spare_at P.letter_of word.now }
{
    match read_letter::<P>(word) {
        Some(grade) => Ok(FurtherLine::SpareBy(grade)),
        None => Err(BeginRefusal::BadLetter),
    }
}
