//! The first solutions of the starting puzzle, as lines.

ghost use Rattle.std.specs.Prelude.{◌≡◌, ◌≤◌, List, IfOk};
ghost use Rattle.latin_board.specs.Squares.{GridValue};
ghost use Rattle.trail_solver.specs.declared.listing.TheConstants.{MOST_LISTED};
ghost use Rattle.trail_solver.specs.Puzzles.{Solves};
ghost use Rattle.trail_solver.specs.Listings.{AreFirst};
ghost use Rattle.line_replies.specs.SolutionTexts.{listed_lines};

use crate::draw::symbols::grid_digits;
use game_texts::Game;
use latin_board::{Grid, OutOfMemory};
use play_midend::Session;
use std::alloc::{AllocError, Global};
use trail_solver::solutions;

/// The first solutions of the starting puzzle, so many at most: a line of digits for each, in order, or the line `none`.
///
/// `OutOfMemory` where a growth was refused.
pub(crate) fn solution_list<P: Game>(
    alloc: Global,
    session: &Session<P>,
    limit: u8,
) -> Result<Vec<u8>, OutOfMemory>
    requires least { 1 ≤ limit }
    requires most { limit ≤ MOST_LISTED }
    ensures { IfOk result (λ text. (listed : List GridValue)
        × AreFirst (Solves (P.puzzle session.now.puzzle)) limit listed
        × (text.items ≡ listed_lines listed)) }
{
    let listed = solutions(alloc, session.puzzle(), limit)?;
    Ok(list_text(alloc, &listed)?)
}

fn list_text(alloc: Global, listed: &[Grid]) -> Result<Vec<u8>, AllocError>
    ensures { IfOk result (λ text. text.items ≡ listed_lines listed.now) }
{
    let mut text = Vec::new(alloc);
    for grid in listed {
        text.extend_from_slice(&grid_digits(grid))?;
        text.push(b'\n')?;
    }
    if text.is_empty() {
        text.extend_from_slice(b"none\n")?;
    }
    Ok(text)
}
