//! The pieces of a description: one for each square, separated by commas, each a digit and letters.

ghost use Rattle.byte_text.specs.Bytes.{comma};
ghost use Rattle.std.specs.Prelude.{◌≡◌, ◌*◌, ◌<◌, ◌≤◌, ◌==◌, drop};
ghost use Rattle.std.specs.List.{list_all, list_any, slice_split};
ghost use Rattle.byte_text.specs.Reading.{Gives};
ghost use Rattle.latin_board.specs.declared.grid.TheConstants.{CELLS};
ghost use Rattle.game_texts.specs.IdFaults.{exactly};
ghost use Rattle.unequal_game.specs.UnequalText.{letter_of, pieces_of, number_in, has_letters, is_inside};
ghost use Rattle.unequal_game.specs.Inner.UnequalPieces.{IsWithoutLastComma, texts_of};

use crate::unequal::direction::Direction;
use arrayvec::ArrayVec;
use byte_text::{begins_with_digit, cut};
use game_texts::IdFault;
use latin_board::{CELLS, Size};

/// As many pieces as the largest grid has squares.
pub(super) type Pieces<'a> = ArrayVec<&'a [u8], CELLS>;

/// The pieces that commas separate, where there are as many as are wanted; one comma at the end is dropped.
///
/// Refused as `TooFew` or `TooMany`.
#[tactic(auto, using(crate::proofs::PieceLemmas::pieces_without_comma))]
pub(super) fn pieces_of(text: &[u8], wanted: usize) -> Result<Pieces<'_>, IdFault>
    requires some { 1 < wanted }
    requires few { wanted ≤ CELLS }
    ensures { Gives (λ v. texts_of v.items) result (exactly wanted (pieces_of text.now)) }
{
    split_at_commas(without_last_comma(text), wanted)
}

fn without_last_comma(text: &[u8]) -> &[u8]
    ensures { IsWithoutLastComma text.now result.now }
{
    match text.strip_suffix(b",".as_slice()) {
        Some(rest) => rest,
        None => text,
    }
}

fn split_at_commas(text: &[u8], wanted: usize) -> Result<Pieces<'_>, IdFault>
    requires { wanted ≤ CELLS }
    ensures { Gives (λ v. texts_of v.items) result
        (exactly wanted (slice_split (λ b. b == comma) text.now)) }
{
    let mut pieces = ArrayVec::new();
    let mut rest = Some(text);
    while let Some(bytes) = rest {
        if pieces.len() == wanted {
            return Err(IdFault::TooMany);
        }
        let (piece, after) = cut(bytes, b',');
        pieces.push(piece);
        rest = after;
    }
    if pieces.len() < wanted {
        return Err(IdFault::TooFew);
    }
    Ok(pieces)
}

/// The digit from 0 to the width that begins a piece, unless another digit stands after it.
pub(super) fn number_in(size: Size, piece: &[u8]) -> Option<u8>
    ensures { result ≡ number_in size piece.now }
{
    match piece {
        [digit, rest @ ..]
            if b'0' <= *digit && *digit <= b'0' + size.get() && !begins_with_digit(rest) => {
            Some(*digit - b'0')
        }
        _ => None,
    }
}

// The bytes after the digit.
fn letters(piece: &[u8]) -> &[u8]
    ensures { result.now ≡ drop 1 piece.now }
{
    match piece {
        [_, letters @ ..] => letters,
        [] => piece,
    }
}

/// Whether all bytes after the digit are letters of directions.
pub(super) fn has_letters(piece: &[u8]) -> bool
    ensures { result ≡ has_letters piece.now }
{
    letters(piece)
        .iter()
        .all(|b| Direction::from_letter(*b).is_some())
}

/// Whether the letters of a square's piece point to squares of the grid; the cell is one of the grid's.
pub(super) fn points_inside(size: Size, cell: usize, piece: &[u8]) -> bool
    requires { cell < size * size }
    ensures { result ≡ list_all (λ b. is_inside size cell b) (drop 1 piece.now) }
{
    letters(piece).iter().all(|b| match Direction::from_letter(*b) {
        Some(direction) => direction.neighbour(size, cell).is_some(),
        None => false,
    })
}

/// Whether the letter of a direction stands in a piece.
pub(super) fn says(piece: &[u8], direction: Direction) -> bool
    ensures { result ≡ list_any (λ b. b == letter_of direction) (drop 1 piece.now) }
{
    letters(piece).contains(&direction.letter())
}
