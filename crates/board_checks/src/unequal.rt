//! The demands of Unequal: between each two neighbours with a sign the greater number where it says so.

ghost use Rattle.std.specs.Prelude.{◌≡◌, ◌*◌, ◌<◌, ◌↔◌, IsTrue};
ghost use Rattle.latin_board.specs.Squares.{number_at};
ghost use Rattle.unequal_game.specs.Unequal.{sign_between};
ghost use Rattle.board_checks.specs.Inner.SignEnds.{IsSignBroken, NeverExceeds};

use crate::demands::Demands;
use crate::spot::Spot;
use latin_board::Grid;
use trail_solver::Rules;
use unequal_game::Unequal;

impl Demands for Unequal {
    ghost use Rattle.board_checks.specs.Games.{unequal_demand};
    ghost use Rattle.board_checks.specs.Laws.UnequalDemands as laws;

    ghost demand = { unequal_demand };

    #[tactic(auto, using(crate::proofs::Signs::right_broken, crate::proofs::Signs::below_broken))]
    fn is_broken(&self, grid: &Grid, spot: Spot) -> bool {
        let width = grid.size().get() as usize;
        match spot {
            Spot::Edge { .. } => false,
            Spot::RightOf { cell } => breaks_sign(self, grid, cell, cell + 1),
            Spot::Below { cell } => breaks_sign(self, grid, cell, cell + width),
        }
    }

    ghost demand_spot = { laws.demand_spot };

    ghost demand_line = { laws.demand_line };

    ghost demand_all = { laws.demand_all };
}

// Whether there is a sign between two squares that no numbers there can meet any more; the second need not be on the grid.
#[tactic(auto, using(crate::proofs::Signs::unsigned_unbroken))]
fn breaks_sign(puzzle: &Unequal, grid: &Grid, first: usize, second: usize) -> bool
    requires size { grid.now.size ≡ puzzle.now.size }
    requires first { first < grid.now.size * grid.now.size }
    requires order { first < second }
    ensures { IsTrue result
        ↔ IsSignBroken grid.now (sign_between puzzle.now first second) first second }
{
    let _valid = puzzle.size();
    let width = grid.size().get() as usize;
    if second >= width * width {
        return false;
    }
    if puzzle.greater(first, second) {
        return never_exceeds(grid, first, second);
    }
    puzzle.greater(second, first) && never_exceeds(grid, second, first)
}

// Whether the number of one square, as it stands or as it may come, is never greater than that of another.
fn never_exceeds(grid: &Grid, greater: usize, lesser: usize) -> bool
    requires greater { greater < grid.now.size * grid.now.size }
    requires lesser { lesser < grid.now.size * grid.now.size }
    ensures { IsTrue result ↔ NeverExceeds grid.now.size (number_at grid.now greater) (number_at grid.now lesser) }
{
    let most = match grid.get(greater) {
        0 => grid.size().get(),
        number => number,
    };
    let least = match grid.get(lesser) {
        0 => 1,
        number => number,
    };
    most <= least
}
