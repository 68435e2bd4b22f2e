//! The squares along a row or column, as they are met from the edge places at its ends.

ghost use Rattle.std.specs.Prelude.{◌≡◌, ◌+◌, ◌*◌, ◌/◌, ◌%◌, ◌<◌};
ghost use Rattle.latin_board.specs.Lines.{line_cell};
ghost use Rattle.line_steps.specs.Views.{view_cell, front_place};
ghost use Rattle.line_steps.specs.Inner.ViewSquares.{LeadAlong, LeadOn};

use latin_board::Size;

/// How many squares the longest line has.
pub const LINE: usize = 9;

/// The k-th square from an edge place, counted from 0, of which there are as many as the width; the place is below four
/// times that.
///
/// Places are numbered in description order, as `latin_board::edge_place` does.
pub fn view_cell(size: Size, place: u8, k: usize) -> usize
    requires place { place < 4 * size }
    requires inside { k < size }
    ensures value { result ≡ view_cell size place k }
    ensures inside { result < size * size }
{
    View::from(size, place).cell(k)
}

/// The squares from an edge place, as the first of them and the way from each to the next: so it is asked
/// only once at which edge the place is.
#[derive(Clone, Copy)]
pub struct View {
    size: Size,
    place: u8,
    first: usize,
    // By how much the next square's number is greater, and by how much it is less: one of the two is 0.
    ahead: usize,
    back: usize,
    ghost leads: { LeadAlong size place first ahead back },
}

impl View {
    /// The squares from an edge place, the nearest first.
    pub fn from(size: Size, place: u8) -> View
        requires { place < 4 * size }
        ensures size { result.size ≡ size }
        ensures place { result.place ≡ place }
    {
        let width = size.get() as usize;
        let at = place as usize;
        if at < width {
            View::leading(size, place, at, width, 0)
        } else if at < 2 * width {
            View::leading(size, place, (width - 1) * width + (at - width), 0, width)
        } else if at < 3 * width {
            View::leading(size, place, (at - 2 * width) * width, 1, 0)
        } else {
            View::leading(size, place, (at - 3 * width) * width + (width - 1), 0, 1)
        }
    }

    fn leading(size: Size, place: u8, first: usize, ahead: usize, back: usize) -> View
        requires { LeadAlong size place first ahead back }
        ensures size { result.size ≡ size }
        ensures place { result.place ≡ place }
    {
        View {
            size,
            place,
            first,
            ahead,
            back,
        }
    }

    /// The k-th of the squares, counted from 0.
    pub fn cell(&self, k: usize) -> usize
        requires { k < self.now.size }
        ensures value { result ≡ view_cell self.now.size self.now.place k }
        ensures inside { result < self.now.size * self.now.size }
    {
        self.first + k * self.ahead - k * self.back
    }
}

/// The edge place before the first square of a line; that after its last one is as many further on as the width.
pub fn front_place(size: Size, line: u8) -> u8
    requires { line < 2 * size }
    ensures value { result ≡ front_place size line }
    ensures place { result + size < 4 * size }
{
    let width = size.get();
    if line < width {
        2 * width + line
    } else {
        line - width
    }
}

/// The row of a square: a division by a number that is known beforehand takes far less time.
#[tactic(auto, using(crate::specs::Laws::LineSquares::row_low))]
pub(crate) fn row_of(size: Size, cell: usize) -> u8
    requires { cell < size * size }
    ensures value { result ≡ cell / size }
    ensures inside { result < size }
{
    let cell = cell as u8;
    match size.get() {
        3 => cell / 3,
        4 => cell / 4,
        5 => cell / 5,
        6 => cell / 6,
        7 => cell / 7,
        8 => cell / 8,
        _ => cell / 9,
    }
}

/// The column of a square, in the same way.
#[tactic(auto, using(crate::specs::Laws::LineSquares::column_low))]
pub(crate) fn column_of(size: Size, cell: usize) -> u8
    requires { cell < size * size }
    ensures value { result ≡ cell % size }
    ensures inside { result < size }
{
    let cell = cell as u8;
    match size.get() {
        3 => cell % 3,
        4 => cell % 4,
        5 => cell % 5,
        6 => cell % 6,
        7 => cell % 7,
        8 => cell % 8,
        _ => cell % 9,
    }
}

/// The squares of a row or column, from its first on, as the first of them and the way from each to the next.
#[derive(Clone, Copy)]
pub(crate) struct Along {
    size: Size,
    line: u8,
    first: usize,
    step: usize,
    ghost leads: { LeadOn size line first step },
}

impl Along {
    /// The squares of a line.
    pub fn line(size: Size, line: u8) -> Along
        requires { line < 2 * size }
        ensures size { result.size ≡ size }
        ensures line { result.line ≡ line }
    {
        let width = size.get();
        if line < width {
            Along {
                size,
                line,
                first: (line * width) as usize,
                step: 1,
            }
        } else {
            Along {
                size,
                line,
                first: (line - width) as usize,
                step: width as usize,
            }
        }
    }

    /// The k-th of the squares, counted from 0.
    pub fn cell(&self, k: usize) -> usize
        requires { k < self.now.size }
        ensures value { result ≡ line_cell self.now.size self.now.line k }
        ensures inside { result < self.now.size * self.now.size }
    {
        self.first + k * self.step
    }
}
