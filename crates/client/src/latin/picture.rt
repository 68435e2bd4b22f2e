//! The picture of a board: its numbers in one line.

use crate::latin::Latin;
use crate::latin::game::digits_of;
use latin_board::{Board, OutOfMemory};
use line_replies::Draw;
use std::alloc::Global;

impl Draw for Latin {
    ghost use Rattle.client.specs.Latin.{latin_picture};

    ghost drawing = { latin_picture };

    fn draw(&self, alloc: Global, board: &Board) -> Result<Vec<u8>, OutOfMemory> {
        let mut picture = digits_of(alloc, board.grid())?;
        picture.push(b'\n')?;
        Ok(picture)
    }
}
