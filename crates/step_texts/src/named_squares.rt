//! The squares that a sentence names as known.
ghost use Rattle.std.specs.Prelude.{IfOk};
ghost use Rattle.step_texts.specs.Told.{AreKnown};

use crate::clue_sentences::Shown;
use crate::sentences::Look;
use crate::set_sentences::has_cell;
use crate::told::{KnownSquare, TowerSquare};
use latin_board::Size;
use named_steps::Reason;
use number_sets::NumberSet;
use std::alloc::{AllocError, Global};
use trail_solver::Candidates;

/// The squares that the sentence of a look names as known, each with the numbers that are left of it, in reading order.
pub(crate) fn known_squares(
    alloc: Global,
    candidates: &Candidates,
    look: &Look,
    shown: &Option<Shown>,
) -> Result<Vec<KnownSquare>, AllocError>
    ensures { IfOk result (λ known. AreKnown candidates.now 0 known.items) }
{
    let size = candidates.size();
    let width = size.get() as usize;
    let places = named_places(shown);
    let mut known = Vec::new(alloc);
    for cell in 0..width * width {
        if is_named(size, look, places, cell as u8) {
            known.push(KnownSquare {
                cell: cell as u8,
                numbers: candidates.values(cell),
            })?;
        }
    }
    Ok(known)
}

/// The squares of which a sentence tells whether a tall tower is there.
pub(crate) fn tower_squares(
    alloc: Global,
    shown: &Option<Shown>,
) -> Result<Vec<TowerSquare>, AllocError> {
    match shown {
        Some(shown) => shown.towers(alloc),
        None => Ok(Vec::new(alloc)),
    }
}

// The places of a clue's line that a sentence names.
fn named_places(shown: &Option<Shown>) -> NumberSet {
    match shown {
        Some(shown) => shown.named(),
        None => NumberSet::empty(),
    }
}

// Whether the sentence of a look names a square as known: at one of these places, where it looks from a clue.
fn is_named(size: Size, look: &Look, places: NumberSet, cell: u8) -> bool {
    match look.reason {
        Reason::Peer { cell: at } => at == cell as usize,
        Reason::Sign { from, .. } => look.end.is_some() && from == cell as usize,
        Reason::Set { line, squares, .. } => {
            squares.is_single() && has_cell(size, line, squares, cell)
        }
        _ => match look.line {
            Some(line) => match line.index_of(cell) {
                Some(index) => index < 16 && places.has(index),
                None => false,
            },
            None => false,
        },
    }
}
