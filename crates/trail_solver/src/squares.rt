//! Squares of the candidates: one value kept, one taken away, and the grid of settled squares.
ghost use Rattle.std.specs.Prelude.{◌≡◌, ◌<◌, ◌≤◌, length};
ghost use Rattle.trail_solver.specs.declared.trail.TheConstants.{PAIRS};
ghost use Rattle.trail_solver.specs.Pairs.{IsPair, with_pair};
ghost use Rattle.trail_solver.specs.Inner.Squares.{AreSettled, IsBranch, IsFilled, KeepsOnly};

use crate::candidates::Candidates;
use latin_board::Grid;
use number_sets::NumberSet;

/// Takes all other values from a square's candidates.
pub(crate) fn keep_only(candidates: &mut Candidates, cell: usize, value: u8)
    requires { IsPair candidates.old.size cell value }
    ensures kept { KeepsOnly candidates.old candidates.new cell value }
    ensures bound { length candidates.new.trail ≤ PAIRS }
{
    let _size = candidates.size();
    let others = candidates.values(cell).difference(NumberSet::one(value));
    candidates.remove_all(cell, others);
    let _bound = candidates.trail_len();
}

/// Takes one of its candidates from an open square.
pub(crate) fn take_away(candidates: &mut Candidates, cell: usize, value: u8)
    requires { IsBranch candidates.old cell value }
    ensures size { candidates.new.size ≡ candidates.old.size }
    ensures trail { candidates.new.trail ≡ with_pair candidates.old.trail cell value }
    ensures longer { length candidates.old.trail < length candidates.new.trail }
    ensures bound { length candidates.new.trail ≤ PAIRS }
{
    candidates.remove(cell, value);
    let _size = candidates.size();
    let _bound = candidates.trail_len();
}

/// The grid of the candidates, where each square has just one.
pub(crate) fn filled(candidates: &Candidates) -> Grid
    requires { AreSettled candidates.now }
    ensures { IsFilled candidates.now result }
{
    let size = candidates.size();
    let width = size.get() as usize;
    let mut grid = Grid::blank(size);
    for cell in 0..width * width {
        if let Some(value) = candidates.only(cell) {
            grid.set(cell, value);
        }
    }
    grid
}
