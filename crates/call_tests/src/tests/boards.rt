//! Grids, boards and marks: each call once, at width 3.

use super::worked::grid_of;
use latin_board::{Board, Grid, Marks, OutOfMemory, Size, edge_place, edge_xy, line_cell};

#[test]
fn a_fault_is_said(rt: HostRuntime) {
    let text = OutOfMemory.to_string(rt.alloc()).expect(&rt, "memory");
    assert!(rt; text.as_str() == "out of memory");
}

#[test]
fn sizes_and_places(rt: HostRuntime) {
    let size = Size::new(3).expect(&rt, "a size");
    assert!(rt; size.get() == 3 && Size::new(2).is_none() && line_cell(size, 4, 2) == 7);
    assert!(rt; edge_place(size, -1, 2) == Some(8) && edge_xy(size, 8) == (-1, 2));
}

#[test]
fn marks(rt: HostRuntime) {
    let mut marks = Marks::full(Size::new(4).expect(&rt, "a size"));
    marks.flip(3);
    assert!(rt; marks.has(4) && !marks.has(3) && marks != Marks::empty());
}

#[test]
fn grids(rt: HostRuntime) {
    let size = Size::new(3).expect(&rt, "a size");
    let mut grid = Grid::blank(size);
    grid.set(8, 3);
    assert!(rt; grid.size() == size && grid.get(8) == 3 && !grid.is_latin());
    let latin = grid_of("123231312").expect(&rt, "a grid");
    assert!(rt; latin.is_latin() && latin != grid);
}

#[test]
fn boards(rt: HostRuntime) {
    let size = Size::new(3).expect(&rt, "a size");
    let mut grid = Grid::blank(size);
    grid.set(1, 2);
    let mut board = Board::start(&grid);
    assert!(rt; board.size() == size && *board.grid() == grid && board.digit(1) == 2);
    assert!(rt; board.marks(4) == Marks::empty() && !board.completed() && !board.cheated());
    board.flip_done(11);
    assert!(rt; board.done(11) && !board.done(0));
}
