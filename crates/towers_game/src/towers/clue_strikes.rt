//! The values that a clue strikes in one square.
ghost use Rattle.std.specs.Prelude.{◌≡◌, ◌↔◌, ℕ, ◌*◌, ◌<◌, ◌≤◌, true};
ghost use Rattle.number_sets.specs.Sets.{has_number};
ghost use Rattle.trail_solver.specs.Pairs.{IsPair};
ghost use Rattle.towers_game.specs.Fillings.{IsUnfilled};
ghost use Rattle.towers_game.specs.Rows.{May};

use crate::towers::clue_rows::{Look, unfilled_row};
use crate::towers::row_cache::RowCache;
use line_steps::view_cell;
use number_sets::NumberSet;
use trail_solver::Candidates;

/// The values of the size that the clue at a place rules out in a square. `cache` is used and added to.
pub(crate) fn by_clue(
    candidates: &Candidates,
    look: Look,
    place: u8,
    clue: u8,
    cell: usize,
    cache: &mut RowCache,
) -> NumberSet
    requires place { place < 4 * candidates.now.size }
    requires clue { clue ≤ candidates.now.size }
    requires inside { cell < candidates.now.size * candidates.now.size }
    ensures { (v : ℕ) → (has_number result v ≡ true)
        ↔ (IsPair candidates.now.size cell v
        × IsUnfilled candidates.now.size (May look candidates.now) place clue cell v) }
{
    let size = candidates.size();
    for k in 0..size.get() as usize {
        if view_cell(size, place, k) == cell {
            let row = unfilled_row(candidates, look, place, clue, cache);
            return row[k];
        }
    }
    NumberSet::empty()
}
