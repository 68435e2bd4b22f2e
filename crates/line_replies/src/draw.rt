//! The part that a game adds to be played as text: the picture of its boards.

ghost use Rattle.std.specs.Prelude.{◌≡◌, ℕ, List, IfOk};
ghost use Rattle.latin_board.specs.Boards.{BoardValue};
ghost use Rattle.play_midend.specs.Histories.{shown};

pub(crate) mod symbols;
pub(crate) mod towers_picture;
pub(crate) mod unequal_picture;

use game_texts::Game;
use latin_board::{Board, OutOfMemory};
use play_midend::Session;
use std::alloc::Global;
use trail_solver::Rules;

/// A game whose boards have a picture.
pub trait Draw: Game {
    // The picture of a board.
    ghost drawing: { Self → BoardValue → List ℕ };

    /// The picture of a board of the puzzle's size, in lines that each end with a line feed.
    ///
    /// `OutOfMemory` where a growth was refused.
    fn draw(&self, alloc: Global, board: &Board) -> Result<Vec<u8>, OutOfMemory>
        requires { board.now.size ≡ (Self.puzzle self.now).size }
        ensures { IfOk result (λ picture. picture.items ≡ drawing self.now board.now) };
}

/// The picture of the board that a session shows.
///
/// `OutOfMemory` where a growth was refused.
pub fn picture<P: Draw>(alloc: Global, session: &Session<P>) -> Result<Vec<u8>, OutOfMemory>
    ensures { IfOk result (λ picture. picture.items
        ≡ P.drawing session.now.puzzle (shown (P.puzzle session.now.puzzle) session.now)) }
{
    session.puzzle().draw(alloc, session.board())
}
