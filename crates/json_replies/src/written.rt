//! Data that are written token by token: numbers, words, lists of them, and members.

ghost use Rattle.std.specs.Prelude.{◌≡◌, ℕ, ◌+◌, ◌*◌, ◌<◌, ◌≤◌, List, ◌∷◌, [], codes, OnOk, IfSome};
ghost use Rattle.std.specs.List.{range_with_len};
ghost use Rattle.std.specs.Option.{option_copied};
ghost use Rattle.number_sets.specs.Sets.{has_number};
ghost use Rattle.serde_json.specs.Data.{Data, array, boolean, no_items, null, number, string};
ghost use Rattle.serde_json.specs.Find.{of_integer};
ghost use Rattle.step_texts.specs.Lines.{line_texts};
ghost use Rattle.json_replies.specs.Counts.{count_data};
ghost use Rattle.json_replies.specs.Boards.{listed_data, when, squares, mark_set_data};
ghost use Rattle.json_replies.specs.Steps.{x_data, y_data};
ghost use Rattle.json_replies.specs.Texts.{text_data, list_data};
ghost use Rattle.json_replies.specs.WrittenData.{Follow};
ghost use Rattle.json_replies.specs.Inner.WrittenData.{count_or_null, integer_or_null, word_or_null, MembersFollow};

use crate::text::latin_text;
use json::Writer;
use latin_board::{Size, edge_xy};
use number_sets::NumberSet;
use std::alloc::{AllocError, Global};
use std::str;
use step_texts::Line;

/// Writes null.
#[tactic(auto, using(crate::proofs::WrittenData::token_follows))]
pub(crate) fn write_null(writer: &mut Writer) -> Result<(), AllocError>
    ensures { OnOk result (Follow (null ∷ []) writer.old writer.new) }
{
    writer.null()?;
    Ok(())
}

/// Writes an empty list.
pub(crate) fn write_none(writer: &mut Writer) -> Result<(), AllocError>
    ensures { OnOk result (Follow (array no_items ∷ []) writer.old writer.new) }
{
    writer.begin_array()?;
    writer.end_array()?;
    Ok(())
}

// Writes true or false.
#[tactic(auto, using(crate::proofs::WrittenData::token_follows))]
fn write_flag(writer: &mut Writer, flag: bool) -> Result<(), AllocError>
    ensures { OnOk result (Follow (boolean flag ∷ []) writer.old writer.new) }
{
    writer.boolean(flag)?;
    Ok(())
}

/// Writes a number.
pub(crate) fn write_number(writer: &mut Writer, n: usize) -> Result<(), AllocError>
    ensures { OnOk result (Follow (count_data n ∷ []) writer.old writer.new) }
{
    writer.u64(n as u64)?;
    Ok(())
}

/// Writes the number where the test holds.
#[tactic(auto, using(crate::proofs::WrittenData::none_follow))]
pub(crate) fn write_number_when(writer: &mut Writer, test: bool, n: usize) -> Result<(), AllocError>
    ensures { OnOk result (Follow (when test (count_data n)) writer.old writer.new) }
{
    if test {
        write_number(writer, n)?;
    }
    Ok(())
}

/// The data that are written for each of some numbers.
pub(crate) trait Each {
    // The numbers that are asked for, and the data of each.
    ghost asks: { Self → ℕ → Type 0 };

    ghost tells: { Self → ℕ → List Data };

    /// Writes the data of a number.
    fn write(&self, writer: &mut Writer, n: usize) -> Result<(), AllocError>
        requires small { n < 256 }
        requires asked { asks self.now n }
        ensures { OnOk result (Follow (tells self.now n) writer.old writer.new) };
}

/// Writes the list of the data of so many numbers from the first one on.
pub(crate) fn write_range<E: Each>(
    writer: &mut Writer,
    first: usize,
    count: usize,
    each: &E,
) -> Result<(), AllocError>
    requires small { first + count ≤ 256 }
    requires asked { (k : ℕ) → k < count → E.asks each.now (first + k) }
    ensures { OnOk result (Follow (listed_data (E.tells each.now) (range_with_len first count) ∷ [])
        writer.old writer.new) }
{
    writer.begin_array()?;
    for k in 0..count {
        each.write(writer, first + k)?;
    }
    writer.end_array()?;
    Ok(())
}

/// Writes the list of the data of each square.
pub(crate) fn write_squares<E: Each>(
    writer: &mut Writer,
    size: Size,
    each: &E,
) -> Result<(), AllocError>
    requires { (cell : ℕ) → cell < size * size → E.asks each.now cell }
    ensures { OnOk result (Follow (listed_data (E.tells each.now) (squares size) ∷ []) writer.old writer.new) }
{
    write_range(writer, 0, square_count(size), each)
}

/// How many squares a grid has.
pub(crate) fn square_count(size: Size) -> usize
    ensures value { result ≡ size * size }
    ensures bound { result ≤ 81 }
{
    let width = usize::from(size.get());
    width * width
}

impl Each for NumberSet {
    ghost asks = { λ _ n. n < 10 };

    ghost tells = { λ set n. when (has_number set n) (count_data n) };

    fn write(&self, writer: &mut Writer, n: usize) -> Result<(), AllocError> {
        write_number_when(writer, self.has(n as u8), n)
    }
}

/// Writes the numbers of a set from 1 to 9, rising.
pub(crate) fn write_numbers(writer: &mut Writer, set: NumberSet) -> Result<(), AllocError>
    ensures { OnOk result (Follow (mark_set_data set ∷ []) writer.old writer.new) }
{
    write_range(writer, 1, 9, &set)
}

/// Writes lines, each as a text.
pub(crate) fn write_lines(
    alloc: Global,
    writer: &mut Writer,
    lines: &[Line],
) -> Result<(), AllocError>
    ensures { OnOk result (Follow (list_data text_data (line_texts lines.now) ∷ []) writer.old writer.new) }
{
    writer.begin_array()?;
    for line in lines {
        write_text(alloc, writer, line.as_slice())?;
    }
    writer.end_array()?;
    Ok(())
}

/// Writes a member that is a number, or null.
#[tactic(auto, using(crate::proofs::WrittenData::key_follows))]
pub(crate) fn write_number_at(
    writer: &mut Writer,
    key: &str,
    n: Option<usize>,
) -> Result<(), AllocError>
    ensures { OnOk result (MembersFollow ((key.now, count_or_null n) ∷ []) writer.old writer.new) }
{
    writer.key(key)?;
    match n {
        Some(n) => write_number(writer, n)?,
        None => write_null(writer)?,
    }
    Ok(())
}

/// Writes a member that is a word, or null.
#[tactic(auto, using(crate::proofs::WrittenData::key_follows))]
pub(crate) fn write_word_at(
    writer: &mut Writer,
    key: &str,
    word: Option<&str>,
) -> Result<(), AllocError>
    ensures { OnOk result (MembersFollow ((key.now, word_or_null (option_copied word.entry)) ∷ [])
        writer.old writer.new) }
{
    writer.key(key)?;
    match word {
        Some(word) => write_word(writer, word)?,
        None => write_null(writer)?,
    }
    Ok(())
}

/// Writes a member that is true or false.
#[tactic(auto, using(crate::proofs::WrittenData::key_follows))]
pub(crate) fn write_flag_at(writer: &mut Writer, key: &str, flag: bool) -> Result<(), AllocError>
    ensures { OnOk result (MembersFollow ((key.now, boolean flag) ∷ []) writer.old writer.new) }
{
    writer.key(key)?;
    write_flag(writer, flag)?;
    Ok(())
}

// Writes a member that is an integer, or null.
#[tactic(auto, using(crate::proofs::WrittenData::key_follows))]
fn write_integer_at(writer: &mut Writer, key: &str, n: Option<i8>) -> Result<(), AllocError>
    ensures { OnOk result (MembersFollow ((key.now, integer_or_null n) ∷ []) writer.old writer.new) }
{
    writer.key(key)?;
    match n {
        Some(n) => write_integer(writer, n)?,
        None => write_null(writer)?,
    }
    Ok(())
}

// Writes an integer.
fn write_integer(writer: &mut Writer, n: i8) -> Result<(), AllocError>
    ensures { OnOk result (Follow (number (of_integer n) ∷ []) writer.old writer.new) }
{
    writer.i64(i64::from(n))?;
    Ok(())
}

/// Writes the members x and y of a place of the edge, as in the move that marks its clue as done, or null.
pub(crate) fn write_place_at(
    writer: &mut Writer,
    size: Size,
    place: Option<u8>,
) -> Result<(), AllocError>
    requires { IfSome place (λ place. place < 4 * size) }
    ensures { OnOk result (MembersFollow ((codes "x", x_data size place) ∷ (codes "y", y_data size place) ∷ [])
        writer.old writer.new) }
{
    write_integer_at(writer, "x", x_of(size, place))?;
    write_integer_at(writer, "y", y_of(size, place))?;
    Ok(())
}

fn x_of(size: Size, place: Option<u8>) -> Option<i8>
    requires { IfSome place (λ place. place < 4 * size) }
    ensures { integer_or_null result ≡ x_data size place }
{
    match place {
        Some(place) => Some(edge_xy(size, place).0),
        None => None,
    }
}

fn y_of(size: Size, place: Option<u8>) -> Option<i8>
    requires { IfSome place (λ place. place < 4 * size) }
    ensures { integer_or_null result ≡ y_data size place }
{
    match place {
        Some(place) => Some(edge_xy(size, place).1),
        None => None,
    }
}

/// Writes bytes as a text. Where they are ASCII they are its bytes, too.
#[tactic(auto, using(crate::proofs::ReplyLines::latin_ascii))]
pub(crate) fn write_text(alloc: Global, writer: &mut Writer, bytes: &[u8]) -> Result<(), AllocError>
    ensures { OnOk result (Follow (text_data bytes.now ∷ []) writer.old writer.new) }
{
    if bytes.is_ascii()
        && let Ok(text) = str::from_utf8(bytes)
    {
        return write_word(writer, text);
    }
    let text = latin_text(alloc, bytes)?;
    write_word(writer, text.as_str())
}

/// Writes a word.
#[tactic(auto, using(crate::proofs::WrittenData::token_follows))]
pub(crate) fn write_word(writer: &mut Writer, word: &str) -> Result<(), AllocError>
    ensures { OnOk result (Follow (string word.now ∷ []) writer.old writer.new) }
{
    writer.string(word)?;
    Ok(())
}
