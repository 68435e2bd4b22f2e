//! The four directions from a square to its neighbours, and the letters that stand for them.

ghost use Rattle.std.specs.Prelude.{◌≡◌, ◌*◌, ◌<◌, IfSome};
ghost use Rattle.unequal_game.specs.Unequal.{neighbour};
ghost use Rattle.unequal_game.specs.UnequalText.{letter_of, direction_of};

use latin_board::Size;

/// From a square to the one above it, on its right, below it or on its left.
#[derive(Clone, Copy, PartialEq, Eq, Debug)]
pub(super) enum Direction {
    Up,
    Right,
    Down,
    Left,
}

impl Direction {
    /// All directions, in the order in which their letters are written.
    pub(super) const ALL: [Direction; 4] = [
        Direction::Up,
        Direction::Right,
        Direction::Down,
        Direction::Left,
    ];

    /// The direction that a letter stands for, `None` for any other byte.
    pub(super) fn from_letter(byte: u8) -> Option<Direction>
        ensures { result ≡ direction_of byte }
    {
        match byte {
            b'U' => Some(Direction::Up),
            b'R' => Some(Direction::Right),
            b'D' => Some(Direction::Down),
            b'L' => Some(Direction::Left),
            _ => None,
        }
    }

    /// The letter of the direction: `U`, `R`, `D` or `L`.
    pub(super) fn letter(self) -> u8
        ensures { result ≡ letter_of self }
    {
        match self {
            Direction::Up => b'U',
            Direction::Right => b'R',
            Direction::Down => b'D',
            Direction::Left => b'L',
        }
    }

    /// The neighbour of a square in the direction, `None` where the grid ends; the cell is one of the grid's.
    pub(super) fn neighbour(self, size: Size, cell: usize) -> Option<usize>
        requires { cell < size * size }
        ensures value { result ≡ neighbour size cell self }
        ensures inside { IfSome result (λ other. other < size * size) }
    {
        let width = size.get() as usize;
        match self {
            Direction::Up if cell >= width => Some(cell - width),
            Direction::Right if cell % width + 1 != width => Some(cell + 1),
            Direction::Down if cell + width < width * width => Some(cell + width),
            Direction::Left if cell % width != 0 => Some(cell - 1),
            _ => None,
        }
    }
}
