//! The game's name and letters, and the description of a puzzle: a digit for each square, 0 where nothing is given.

ghost use Rattle.std.specs.Prelude.{◌≡◌, ◌≤◌, map, IfOk};
ghost use Rattle.byte_text.specs.Bytes.{digit};
ghost use Rattle.client.specs.Latin.{latin_at, number_of_byte};

use crate::latin::Latin;
use clue_rules::{Game, IdFault};
use latin_board::{Grid, Size};
use std::alloc::{AllocError, Global};
use trail_solver::Rules;

impl Game for Latin {
    ghost use Rattle.std.specs.Prelude.{◌≡◌, codes};
    ghost use Rattle.client.specs.Latin.{latin_at, latin_desc};
    ghost use Rattle.client.specs.LatinTexts as laws;

    ghost title = { codes "Latin" };

    ghost letter_codes = { codes "en" };

    ghost describes = { λ text p. text ≡ latin_desc p };

    ghost desc_at = { latin_at };

    ghost desc_of = { latin_desc };

    fn name() -> &'static str {
        "Latin"
    }

    /// Easy and Normal.
    fn letters() -> &'static str {
        "en"
    }

    fn same(&self, other: &Latin) -> bool {
        self.givens == other.givens
    }

    /// No edge has a clue.
    fn clue_at(&self, _x: i8, _y: i8) -> bool {
        false
    }

    fn read_desc(size: Size, text: &[u8]) -> Result<Latin, IdFault> {
        read_latin(size, text)
    }

    fn write_desc(&self, alloc: Global) -> Result<Vec<u8>, IdFault> {
        Ok(digits_of(alloc, &self.givens)?)
    }

    ghost few_items = { laws.few_items };

    ghost plain_letters = { laws.letters_lack };

    ghost desc_taken = { laws.latin_taken };

    ghost desc_not_for_memory = { laws.latin_not_for_memory };

    ghost desc_again = { laws.latin_again };

    ghost desc_canonical = { laws.latin_canonical };
}

fn number_of(width: u8, byte: u8) -> Option<u8>
    requires { width ≤ 9 }
    ensures { result ≡ number_of_byte width byte }
{
    if b'0' <= byte && byte <= b'0' + width {
        Some(byte - b'0')
    } else {
        None
    }
}

// `TooFew`, `TooMany`, or `BadSquares` where a byte is no number up to the width.
#[tactic(auto, unfolding(crate::specs::Latin::latin_at))]
fn read_latin(size: Size, text: &[u8]) -> Result<Latin, IdFault>
    ensures { result ≡ latin_at size text.now }
{
    let width = size.get();
    let squares = usize::from(width) * usize::from(width);
    if text.len() < squares {
        return Err(IdFault::TooFew);
    }
    if squares < text.len() {
        return Err(IdFault::TooMany);
    }
    let mut givens = Grid::blank(size);
    for (cell, byte) in text.iter().enumerate() {
        givens.set(cell, number_of(width, *byte).ok_or(IdFault::BadSquares)?);
    }
    Ok(Latin { givens })
}

/// The numbers of a grid in reading order, as digits.
pub(crate) fn digits_of(alloc: Global, grid: &Grid) -> Result<Vec<u8>, AllocError>
    ensures { IfOk result (λ text. text.items ≡ map digit grid.now.numbers) }
{
    let width = usize::from(grid.size().get());
    let mut text = Vec::with_capacity(alloc, width * width)?;
    for cell in 0..width * width {
        text.push(b'0' + grid.get(cell))?;
    }
    Ok(text)
}
