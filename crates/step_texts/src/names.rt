//! How squares, lines, clues and lists are named.

use crate::told::Strike;
use arrayvec::ArrayVec;
use latin_board::Size;
use number_sets::NumberSet;
use std::fmt;

/// How the last two of a list are joined.
#[derive(Clone, Copy)]
pub(crate) enum Joined {
    /// All of them: `1, 2 and 3`.
    And,
    /// Any of them: `1, 2 or 3`.
    Or,
}

/// A square by its row and column, counted from 0, as `r2c3`.
#[derive(Clone, Copy, Default)]
pub(crate) struct Square {
    row: u8,
    column: u8,
}

impl Square {
    /// The square with this number in reading order.
    pub(crate) fn of(size: Size, cell: usize) -> Square {
        let width = size.get() as usize;
        Square::at(cell / width, cell % width)
    }

    /// The square at an index of a line.
    pub(crate) fn on(size: Size, line: usize, index: usize) -> Square {
        let width = size.get() as usize;
        if line < width {
            Square::at(line, index)
        } else {
            Square::at(index, line - width)
        }
    }

    // Numbers above a byte's are none of a grid's.
    fn at(row: usize, column: usize) -> Square {
        Square {
            row: u8::try_from(row).unwrap_or(u8::MAX),
            column: u8::try_from(column).unwrap_or(u8::MAX),
        }
    }
}

impl fmt::Display for Square {
    fn fmt<W: fmt::Write>(&self, f: &mut fmt::Formatter<W>) -> fmt::Result {
        let row = self.row.saturating_add(1);
        let column = self.column.saturating_add(1);
        write!(f, "r{row}c{column}")
    }
}

/// A row or column by its index, as `row 2`.
#[derive(Clone, Copy)]
pub(crate) struct GridLine {
    pub(crate) size: Size,
    pub(crate) index: usize,
}

impl GridLine {
    /// The line on which a clue looks.
    pub(crate) fn from(size: Size, place: usize) -> GridLine {
        let width = size.get() as usize;
        let index = if place < 2 * width {
            width + place % width
        } else {
            place % width
        };
        GridLine { size, index }
    }
}

impl fmt::Display for GridLine {
    fn fmt<W: fmt::Write>(&self, f: &mut fmt::Formatter<W>) -> fmt::Result {
        let width = self.size.get() as usize;
        let number = self.index % width + 1;
        if self.index < width {
            write!(f, "row {number}")
        } else {
            write!(f, "column {number}")
        }
    }
}

/// A clue at the edge, as `5 above column 2`.
#[derive(Clone, Copy)]
pub(crate) struct EdgeClue {
    pub(crate) size: Size,
    pub(crate) place: usize,
    pub(crate) clue: u8,
}

impl fmt::Display for EdgeClue {
    fn fmt<W: fmt::Write>(&self, f: &mut fmt::Formatter<W>) -> fmt::Result {
        let clue = self.clue;
        let side = match self.place / self.size.get() as usize {
            0 => "above",
            1 => "below",
            2 => "left of",
            _ => "right of",
        };
        let line = GridLine::from(self.size, self.place);
        write!(f, "{clue} {side} {line}")
    }
}

/// Things with commas between them, and a word between the last two.
#[derive(Drop)]
pub(crate) struct List<T, const MOST: usize> {
    items: ArrayVec<T, MOST>,
    joined: Joined,
}

/// Numbers below 16.
pub(crate) type Numbers = List<u8, 16>;

/// Squares of a grid.
pub(crate) type Squares = List<Square, 81>;

impl<T: Default + Drop, const MOST: usize> List<T, MOST> {
    /// A list of nothing.
    pub(crate) fn new(joined: Joined) -> List<T, MOST> {
        List {
            items: ArrayVec::new(),
            joined,
        }
    }

    /// Adds something, if there is room.
    pub(crate) fn add(&mut self, item: T) {
        let _fits = self.items.try_push(item);
    }
}

impl<T: fmt::Display, const MOST: usize> fmt::Display for List<T, MOST> {
    fn fmt<W: fmt::Write>(&self, f: &mut fmt::Formatter<W>) -> fmt::Result {
        let items = self.items.as_slice();
        for at in 0..items.len() {
            let item = &items[at];
            let behind = between(items.len() - 1 - at, self.joined);
            write!(f, "{item}{behind}")?;
        }
        Ok(())
    }
}

/// The text that stands before the last so many of a list.
pub(crate) fn between(rest: usize, joined: Joined) -> &'static str {
    match (rest, joined) {
        (0, _) => "",
        (1, Joined::And) => " and ",
        (1, Joined::Or) => " or ",
        _ => ", ",
    }
}

/// The numbers of a set, rising.
pub(crate) fn numbers(set: NumberSet, joined: Joined) -> Numbers {
    let mut list = List::new(joined);
    for number in 0..16 {
        if set.has(number) {
            list.add(number);
        }
    }
    list
}

/// The squares at some indices of a line.
pub(crate) fn squares_on(size: Size, line: usize, indices: NumberSet) -> Squares {
    let mut list = List::new(Joined::And);
    for index in 0..16 {
        if indices.has(index) {
            list.add(Square::on(size, line, index as usize));
        }
    }
    list
}

/// The struck numbers, the squares that lose the same values together:
/// `r1c1 is not 2; r1c2 and r1c3 are not 3 or 4`.
#[derive(Clone, Copy)]
pub(crate) struct Losses<'a> {
    pub(crate) size: Size,
    pub(crate) strikes: &'a [Strike],
}

impl Losses<'_> {
    // The squares that lose exactly these values.
    fn losers(&self, values: NumberSet) -> Squares {
        let mut list = List::new(Joined::And);
        for strike in self.strikes {
            if strike.values == values {
                list.add(Square::of(self.size, strike.cell as usize));
            }
        }
        list
    }
}

impl fmt::Display for Losses<'_> {
    fn fmt<W: fmt::Write>(&self, f: &mut fmt::Formatter<W>) -> fmt::Result {
        for at in 0..self.strikes.len() {
            let values = self.strikes[at].values;
            let is_told = self.strikes[..at]
                .iter()
                .any(|strike| strike.values == values);
            if !is_told {
                let before = if at > 0 { "; " } else { "" };
                let squares = self.losers(values);
                let are = if squares.items.len() == 1 {
                    "is"
                } else {
                    "are"
                };
                let lost = numbers(values, Joined::Or);
                write!(f, "{before}{squares} {are} not {lost}")?;
            }
        }
        Ok(())
    }
}
