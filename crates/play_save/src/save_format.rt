//! The parts that saving and loading share: the most bytes of a text, the format's name, and whether a move
//! is a solution.

ghost use Rattle.std.specs.Prelude.{◌≡◌};
ghost use Rattle.play_save.specs.SaveTexts.{is_solve};

use play_midend::Move;

/// The most bytes that a save text has.
pub const MOST_BYTES: usize = 16_777_216;

/// The value of the first record, which names the format.
pub(crate) const COLLECTION: &[u8] = b"Simon Tatham's Portable Puzzle Collection";

/// Whether the move fills in a solution.
pub(crate) fn is_solve(made: &Move) -> bool
    ensures { result ≡ is_solve made.now }
{
    matches!(made, Move::Solve(_))
}
