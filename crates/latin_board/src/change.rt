//! Changes: what a board exchanges, one square with both flags or a whole board.

ghost use Rattle.std.specs.Prelude.{◌≡◌, IfOk};
ghost use Rattle.latin_board.specs.Changes.{OneSquare, WholeBoard};

use crate::board::Board;
use crate::marks::Marks;
use crate::out_of_memory::OutOfMemory;
use std::alloc::Global;
use std::marker::Model;

/// A move's change of a board: the content of one square with both flags, or a whole board.
///
/// `Board::swap` exchanges it with what the board holds there, so that a second exchange takes the move back.
#[derive(Debug, Drop)]
pub struct Change {
    pub(crate) content: Content,
}

#[derive(Debug, Drop)]
pub(crate) enum Content {
    Square(Square),
    Whole(Box<Board>),
}

// One square's content, and both flags.
#[derive(Clone, Copy, Debug)]
pub(crate) struct Square {
    pub(crate) cell: usize,
    pub(crate) number: u8,
    pub(crate) marks: Marks,
    pub(crate) completed: bool,
    pub(crate) cheated: bool,
}

impl Model for Change {
    ghost use Rattle.latin_board.specs.Changes.{ChangeValue};

    ghost Value = { ChangeValue };

    ghost use Rattle.latin_board.specs.Inner.Contents.{change_value};

    ghost view = { λ c. change_value c.content };
}

impl Change {
    /// The change of one square to a number and marks, with the flags that the board is to have.
    pub fn square(cell: usize, n: u8, marks: Marks, completed: bool, cheated: bool) -> Change
        ensures { result ≡ OneSquare (record {
          cell = cell;
          number = n;
          marks = marks;
          completed = completed;
          cheated = cheated;
        }) }
    {
        Change {
            content: Content::Square(Square {
                cell,
                number: n,
                marks,
                completed,
                cheated,
            }),
        }
    }

    /// The change of the whole board to this one.
    ///
    /// `OutOfMemory` where there is no memory for a board.
    pub fn whole(alloc: Global, board: Board) -> Result<Change, OutOfMemory>
        ensures { IfOk result (λ change. change ≡ WholeBoard board) }
    {
        Ok(Change {
            content: Content::Whole(Box::new(alloc, board)?),
        })
    }
}
