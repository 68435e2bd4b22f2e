//! The lines of a grid: its rows, and then its columns.

ghost use Rattle.std.specs.Prelude.{◌≡◌, ◌*◌, ◌<◌};
ghost use Rattle.latin_board.specs.Lines.{line_cell};

use crate::size::Size;

/// The square at a place of a line; there are twice as many lines as the width, and each has as many places as that.
///
/// The rows from the top are the first lines, read to the right, and the columns from the left the others, read down.
pub fn line_cell(size: Size, line: u8, place: u8) -> usize
    requires line { line < 2 * size }
    requires place { place < size }
    ensures value { result ≡ line_cell size line place }
    ensures inside { result < size * size }
{
    let width = size.get() as usize;
    let line = line as usize;
    let place = place as usize;
    if line < width {
        line * width + place
    } else {
        place * width + (line - width)
    }
}
