//! Which squares and spots of a board are errors.

ghost use Rattle.std.specs.Prelude.{◌≡◌, ℕ, ◌↔◌, false, IsTrue, slice_index_or};
ghost use Rattle.board_checks.specs.declared.spot.Spot.{Spot};
ghost use Rattle.board_checks.specs.Errors.{has_repeated, has_broken, HasError};

use crate::spot::Spot;
use latin_board::CELLS;
use std::marker::Model;

/// The errors of a board, as `errors` finds them: squares whose number is repeated, and spots whose demand is broken.
#[derive(Clone, Copy)]
pub struct BoardErrors {
    // One answer for each square, for each edge place, and for each square's spots on its right and below it.
    pub(crate) repeated: [bool; CELLS],
    pub(crate) edges: [bool; CELLS],
    pub(crate) right: [bool; CELLS],
    pub(crate) below: [bool; CELLS],
}

impl Model for BoardErrors {
    ghost use Rattle.board_checks.specs.Errors.{ErrorsValue};

    ghost Value = { ErrorsValue };

    ghost view = { λ e. record {
      repeated = e.repeated;
      edges = e.edges;
      right = e.right;
      below = e.below;
    } };

    ghost inverse = { λ v. record {
      repeated = v.repeated;
      edges = v.edges;
      right = v.right;
      below = v.below;
    } };
}

impl BoardErrors {
    /// Whether the square's number stands a second time in its row or column; false for a number that is no square's.
    pub fn is_repeated(&self, cell: usize) -> bool
        ensures { result ≡ has_repeated self.now cell }
    {
        cell < CELLS && self.repeated[cell]
    }

    /// Whether what is demanded at the spot can't be met any more; false where nothing is demanded.
    pub fn is_broken(&self, spot: Spot) -> bool
        ensures { result ≡ has_broken self.now spot }
    {
        match spot {
            Spot::Edge { place } => (place as usize) < CELLS && self.edges[place as usize],
            Spot::RightOf { cell } => cell < CELLS && self.right[cell],
            Spot::Below { cell } => cell < CELLS && self.below[cell],
        }
    }

    /// Whether there is any error.
    pub fn any(&self) -> bool
        ensures { IsTrue result ↔ HasError self.now }
    {
        has_any(&self.repeated) || self.any_broken()
    }

    // Whether anything that is demanded is broken.
    fn any_broken(&self) -> bool
        ensures { IsTrue result ↔ ((spot : Spot) × IsTrue (has_broken self.now spot)) }
    {
        if has_any(&self.edges) {
            return true;
        }
        if has_any(&self.right) {
            return true;
        }
        has_any(&self.below)
    }
}

// Whether some answer is yes.
#[tactic(auto, using(crate::proofs::Tables::yes_somewhere))]
fn has_any(answers: &[bool; CELLS]) -> bool
    ensures { IsTrue result ↔ ((k : ℕ) × IsTrue (slice_index_or answers.now k false)) }
{
    answers.contains(&true)
}
