//! A session that is saved and loaded again.

ghost use Rattle.std.specs.Prelude.{◌≡◌, ◌≤◌, length, IfOk, IfErr};
ghost use Rattle.play_midend.specs.Histories.{IsStorable, shown};
ghost use Rattle.play_save.specs.declared.save_format.TheConstants.{MOST_BYTES};
ghost use Rattle.play_save.specs.Written.{save_of};

use crate::fault::LoadFault;
use crate::loading::load;
use crate::save_laws::laws;
use crate::saving::save;
use game_texts::Game;
use play_midend::Session;
use std::alloc::Global;
use trail_solver::Rules;

/// Saves a session and loads what was written: where both succeed, it is the session again, its later moves included, and it
/// shows the same board.
///
/// A session that can be stored, and whose text is within the size that `load` takes, is refused for memory alone.
pub fn saved_and_loaded<P: Game>(
    alloc: Global,
    session: &Session<P>,
) -> Result<Session<P>, LoadFault>
    ensures same { IfOk result (λ s. s ≡ session.now) }
    ensures board { IfOk result (λ s.
        shown (P.puzzle s.puzzle) s ≡ shown (P.puzzle session.now.puzzle) session.now) }
    ensures loads { IsStorable P.puzzle P.valid P.letter_codes session.now
        → length (save_of P.title P.desc_of session.now) ≤ MOST_BYTES
        → IfErr result (λ fault. fault ≡ LoadFault.OutOfMemory) }
{
    let _board = session.board();
    let _size = session.puzzle().size();
    laws::<P>();
    let text = save(alloc, session)?;
    load(alloc, &text)
}
