//! Where a search branches.

ghost use Rattle.std.specs.Prelude.{MatchOption};
ghost use Rattle.std.specs.Bool.{OnTrue};
ghost use Rattle.trail_solver.specs.Inner.Squares.{AreSettled, HasNoCandidate, IsBranch, IsChoice, IsFirstOpen, IsOpenSquare};

use crate::candidates::Candidates;
use crate::guessing::failures::Failures;
use crate::guessing::proposal::best_proposal;

/// The work that a search has left to do.
#[derive(Clone, Copy)]
pub(crate) enum Choice {
    /// Each square has just one candidate.
    Settled,
    /// Some square has no candidate.
    Dead,
    /// This value is one of the square's candidates, and not the only one: it stands there, or it doesn't.
    Branch { cell: usize, value: u8 },
}

/// Where to branch, if there is anything left to do. Any open square and any of its candidates would do; that which is
/// proposed is taken, since it is likely to fail soon.
pub(crate) fn choose(candidates: &Candidates, failures: &Failures) -> Choice
    ensures { IsChoice candidates.now result }
{
    let Some(open) = first_open(candidates) else {
        return Choice::Settled;
    };
    match best_proposal(candidates, failures) {
        Some(best) if is_branch(candidates, best.cell, best.value) => Choice::Branch {
            cell: best.cell,
            value: best.value,
        },
        _ => lowest_at(candidates, open),
    }
}

/// Whether a value is a candidate of a square, and not the only one.
pub(crate) fn is_branch(candidates: &Candidates, cell: usize, value: u8) -> bool
    ensures { OnTrue result (IsBranch candidates.now cell value) }
{
    let width = candidates.size().get();
    if cell >= width as usize * width as usize || value < 1 || value > width {
        return false;
    }
    candidates.may(cell, value) && candidates.only(cell).is_none()
}

// The branch at an open square that takes its lowest candidate first.
fn lowest_at(candidates: &Candidates, cell: usize) -> Choice
    requires { IsOpenSquare candidates.now cell }
    ensures { IsChoice candidates.now result }
{
    match lowest(candidates, cell) {
        Some(value) => Choice::Branch { cell, value },
        None => Choice::Dead,
    }
}

// The lowest candidate of an open square, if it has any.
#[tactic(auto, using(crate::proofs::SquareSets::lowest_by_least))]
fn lowest(candidates: &Candidates, cell: usize) -> Option<u8>
    requires { IsOpenSquare candidates.now cell }
    ensures { MatchOption result (HasNoCandidate candidates.now cell)
        (IsBranch candidates.now cell) }
{
    candidates.values(cell).least()
}

/// The first open square in reading order.
#[tactic(auto, using(crate::proofs::SettledSquares::settled_below_more))]
pub(crate) fn first_open(candidates: &Candidates) -> Option<usize>
    ensures { MatchOption result (AreSettled candidates.now) (IsFirstOpen candidates.now) }
{
    let width = candidates.size().get() as usize;
    for cell in 0..width * width {
        let Some(_) = candidates.only(cell) else {
            return Some(cell);
        };
    }
    None
}
