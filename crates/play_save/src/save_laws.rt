//! The laws of save texts. They speak of definitions alone, so the function here does nothing.

ghost use Rattle.play_save.specs.SaveTexts.{saves_of};
ghost use Rattle.play_save.specs.Laws.{SavesOneSession, FaultsWhereNone, SavesAreStorable, WrittenIsSaved, WrittenSavesNoOther};

use game_texts::Game;

/// The laws of save texts of a game, as the contracts of `save` and `load` see them.
///
/// A text is a save of at most one session, and it has a first fault just where it is a save of no session. A session that a
/// text is a save of is storable. The text that is written of a storable session is a save of it, where it is
/// no longer than `MOST_BYTES` bytes; that of a valid session is a save of no other, and of none where the
/// session isn't storable.
pub fn laws<P: Game>()
    ensures one_session { SavesOneSession (saves_of P.Rules P.Game.own) }
    ensures fault_or_session { FaultsWhereNone (saves_of P.Rules P.Game.own) }
    ensures saves_are_storable { SavesAreStorable (saves_of P.Rules P.Game.own) P.valid }
    ensures written_is_saved { WrittenIsSaved (saves_of P.Rules P.Game.own) P.valid }
    ensures written_saves_no_other { WrittenSavesNoOther (saves_of P.Rules P.Game.own) P.valid }
{}
