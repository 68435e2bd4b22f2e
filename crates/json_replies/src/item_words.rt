//! The numbers of the line `item`.

ghost use Rattle.std.specs.Prelude.{◌≡◌};
ghost use Rattle.byte_text.specs.Decimals.{decimal_value};
ghost use Rattle.play_midend.specs.MoveTexts.{coordinate_at};
ghost use Rattle.json_replies.specs.BeginLines.{item_at, place_item_at, sign_item_at};

use byte_text::{cut, number};

/// Where an item is, and the number that it is to say.
#[derive(Clone, Copy)]
pub(crate) enum ItemNumbers {
    /// The clue at a place of the edge, or the given of a square.
    Place { x: i8, y: i8, n: u8 },
    /// The sign between two squares: whether the first is the greater.
    Sign { x: i8, y: i8, u: i8, v: i8, n: u8 },
}

/// The numbers of a text that is three or five, with a comma between each.
pub(crate) fn item_numbers(text: &[u8]) -> Option<ItemNumbers>
    ensures { result ≡ item_at text.now }
{
    let (x, rest) = cut(text, b',');
    let (y, rest) = cut(rest?, b',');
    let rest = rest?;
    match cut(rest, b',') {
        (u, Some(more)) => sign_numbers(x, y, u, more),
        (n, None) => place_numbers(x, y, n),
    }
}

fn place_numbers(x: &[u8], y: &[u8], n: &[u8]) -> Option<ItemNumbers>
    ensures { result ≡ place_item_at x.now y.now n.now }
{
    Some(ItemNumbers::Place {
        x: coordinate(x)?,
        y: coordinate(y)?,
        n: number_word(n)?,
    })
}

fn sign_numbers(x: &[u8], y: &[u8], u: &[u8], more: &[u8]) -> Option<ItemNumbers>
    ensures { result ≡ sign_item_at x.now y.now u.now more.now }
{
    let (v, n) = cut(more, b',');
    let n = n?;
    Some(ItemNumbers::Sign {
        x: coordinate(x)?,
        y: coordinate(y)?,
        u: coordinate(u)?,
        v: coordinate(v)?,
        n: number_word(n)?,
    })
}

// -1, or a number up to 127, as in a move.
fn coordinate(text: &[u8]) -> Option<i8>
    ensures { result ≡ coordinate_at text.now }
{
    if text == b"-1".as_slice() {
        return Some(-1);
    }
    Some(number(text, 127)? as i8)
}

// A number up to 255, as in a move.
fn number_word(text: &[u8]) -> Option<u8>
    ensures { result ≡ decimal_value 255 text.now }
{
    Some(number(text, 255)? as u8)
}
