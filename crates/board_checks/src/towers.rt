//! The demands of Towers: along the line of each clue as many towers as it says.

ghost use Rattle.std.specs.Prelude.{◌≡◌, ◌*◌, ◌<◌, ◌↔◌, IsTrue};
ghost use Rattle.latin_board.specs.Squares.{number_at};
ghost use Rattle.towers_game.specs.Towers.{clue_of};
ghost use Rattle.board_checks.specs.Demands.{IsBroken};
ghost use Rattle.board_checks.specs.Games.{clue_demand};
ghost use Rattle.board_checks.specs.Inner.TowersLines.{CanHold, AreSetsFrom};

use crate::demands::Demands;
use crate::spot::Spot;
use latin_board::Grid;
use line_steps::view_cell;
use number_sets::NumberSet;
use tower_lines::has_filling;
use towers_game::Towers;

/// How many squares the longest line has.
const LINE: usize = 9;

impl Demands for Towers {
    ghost use Rattle.board_checks.specs.Games.{towers_demand};
    ghost use Rattle.board_checks.specs.Laws.TowersDemands as laws;

    ghost demand = { towers_demand };

    fn is_broken(&self, grid: &Grid, spot: Spot) -> bool {
        match spot {
            Spot::Edge { place } => breaks_clue(self, grid, place),
            Spot::RightOf { .. } | Spot::Below { .. } => false,
        }
    }

    ghost demand_spot = { laws.demand_spot };

    ghost demand_line = { laws.demand_line };

    ghost demand_all = { laws.demand_all };
}

// Whether there is a clue at the place that the line from there can't show any more.
fn breaks_clue(puzzle: &Towers, grid: &Grid, place: u8) -> bool
    requires size { grid.now.size ≡ puzzle.now.size }
    requires place { place < 4 * grid.now.size }
    ensures { IsTrue result ↔ ((0 < clue_of puzzle.now place) × IsBroken grid.now (clue_demand puzzle.now place)) }
{
    let clue = puzzle.clue(place);
    let width = grid.size().get() as usize;
    clue != 0 && !has_filling(&line_sets(grid, place)[..width], clue)
}

// The numbers that the squares from an edge place can hold, the nearest first.
fn line_sets(grid: &Grid, place: u8) -> [NumberSet; LINE]
    requires { place < 4 * grid.now.size }
    ensures { AreSetsFrom grid.now place result }
{
    let size = grid.size();
    let mut sets = [NumberSet::empty(); LINE];
    for k in 0..size.get() as usize {
        sets[k] = numbers_for(grid, view_cell(size, place, k));
    }
    sets
}

// The numbers that a square can hold: its own, or where it is blank each from 1 to the width.
fn numbers_for(grid: &Grid, cell: usize) -> NumberSet
    requires { cell < grid.now.size * grid.now.size }
    ensures { CanHold grid.now.size (number_at grid.now cell) result }
{
    let width = grid.size().get();
    match grid.get(cell) {
        0 => NumberSet::up_to(width),
        number => NumberSet::one(number),
    }
}
