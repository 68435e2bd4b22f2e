//! The spots of a grid at which a puzzle may demand something.

/// A spot of a grid: an edge place, or the border of two neighbouring squares.
#[derive(Clone, Copy, PartialEq, Eq, Debug)]
pub enum Spot {
    /// The edge place of this number, numbered as `latin_board::edge_place` does.
    Edge { place: u8 },
    /// Between a square, counted from 0 in reading order, and its right neighbour.
    RightOf { cell: usize },
    /// Between a square and its lower neighbour.
    Below { cell: usize },
}
