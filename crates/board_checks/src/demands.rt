//! The demands of a game on the numbers in a row or column.

ghost use Rattle.std.specs.Prelude.{◌≡◌, ◌↔◌, IsTrue, Option, Some};
ghost use Rattle.latin_board.specs.Squares.{GridValue, IsGrid, IsFull};
ghost use Rattle.board_checks.specs.declared.spot.Spot.{Spot};
ghost use Rattle.board_checks.specs.Demands.{Demand, IsOfPeers};
ghost use Rattle.board_checks.specs.Spots.{IsSpot, IsBrokenAt, MeetsAll};

use crate::spot::Spot;
use latin_board::Grid;
use trail_solver::Rules;

/// The rules of a game, whose clues or signs are demands at spots of the grid.
///
/// Generic code knows of them only what the laws below say. By these the demands are all that the clues or signs ask: no
/// game is lawful that leaves one out, or demands something that a solution need not meet.
pub trait Demands: Rules {
    // The puzzle's demand at a spot, if there is one.
    ghost demand: { Self → Spot → Option Demand };

    /// Whether something is demanded at the spot that the grid can't meet any more, whatever comes into its blank squares.
    ///
    /// It looks at the squares of that demand alone: each is filled with a number from 1 to the width, and none stands
    /// twice. The grid is of the puzzle's size, and has the spot.
    fn is_broken(&self, grid: &Grid, spot: Spot) -> bool
        requires size { grid.now.size ≡ (Self.puzzle self.now).size }
        requires spot { IsSpot grid.now.size spot }
        ensures { IsTrue result ↔ IsBrokenAt (demand self.now) grid.now spot };

    // Demands stand at spots of the puzzle's grid, and each on squares of one row or column of it.
    ghost demand_spot: { (p : Self) (spot : Spot) (d : Demand) → Self.valid p → demand p spot ≡ Some d
        → IsSpot (Self.puzzle p).size spot };

    ghost demand_line: { (p : Self) (spot : Spot) (d : Demand) → Self.valid p → demand p spot ≡ Some d
        → IsOfPeers (Self.puzzle p).size d };

    // A full grid meets the clues or signs where it meets all demands, and only there.
    ghost demand_all: { (p : Self) (g : GridValue) → Self.valid p → IsGrid g → IsFull g → g.size ≡ (Self.puzzle p).size
        → IsTrue ((Self.puzzle p).meets g) ↔ MeetsAll (demand p) g };
}
