//! The laws of turns one after another. They speak of what is said and saved alone, so the function here does nothing.

ghost use Rattle.web_turn.specs.TurnRuns.{TurnsAreARun, TextsAreTaken};

use line_replies::{Draw, Facts, Format};

/// The laws of turns, each with the text that the one before gave back, in any game and format.
///
/// They are a run of the program over the same lines: what is said to them is what that run writes, and the text in the end is that of a save
/// of the session which it leaves. A text that a turn gave back is never refused as no save, up to the size that a save may have.
pub fn laws<T: Format<P>, P: Draw>()
    ensures run { TurnsAreARun ⟦<P as Facts>⟧.facts T.reply }
    ensures taken { TextsAreTaken ⟦<P as Facts>⟧.facts T.reply }
{
    line_replies::laws::<P>();
    play_save::laws::<P>();
}
