//! Square grids of numbers for Latin square puzzles of width 3 to 9, boards with pencil marks, and changes that a
//! board and its history exchange.
//!
//! Nothing here knows a game. `Size`, `Marks`, `Grid` and `Board` are small values that are copied; a `Change` holds
//! one square, or a whole board in a box.
//!
//! ```
//! let size = Size::new(3).ok_or("no such width")?;
//! let mut board = Board::start(&Grid::blank(size));
//! let mut change = Change::square(0, 2, Marks::empty(), false, false);
//! board.swap(&mut change);
//! assert_eq!(rt; board.digit(0), 2);
//! board.swap(&mut change);
//! assert_eq!(rt; board.digit(0), 0);
//! ```
#![tactic(auto)]

mod board;
mod change;
mod done_marks;
mod edges;
mod grid;
mod lines;
mod marks;
mod out_of_memory;
mod size;

pub use board::Board;
pub use change::Change;
pub use edges::{edge_place, edge_xy};
pub use grid::{CELLS, Grid};
pub use lines::line_cell;
pub use marks::Marks;
pub use out_of_memory::OutOfMemory;
pub use size::Size;
