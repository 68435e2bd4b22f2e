//! The laws of a session's calls. They speak of its value alone, so the functions here do nothing.

ghost use Rattle.play_midend.specs.Laws.{SolutionsAreFilledIn, GivensStay, RunsStayValid, StartsStorable};
ghost use Rattle.play_midend.specs.Laws.{RunsStayStorable, UndoTakesBack, UndoTakesRestartBack, UndoTakesSolveBack};
ghost use Rattle.play_midend.specs.Laws.{RedoTakesUndoBack, LegalListsPlay, AcceptedListsAreLegal, UndoLeadsBack, HistoriesAreReached};
ghost use Rattle.play_midend.specs.Flags.{HelpIsFlagged, CompletionIsFlagged, HelpCompletes};

use game_texts::Game;

/// The laws of `play`, `restart`, `solve`, `undo` and `redo` on every valid session of a game, as the contracts of these calls see it.
///
/// A grid can be filled in just where it solves the puzzle. The board that is shown has the puzzle's givens. Any list of calls, whatever was answered, leaves a valid session,
/// and a refused call changes nothing. A session that begins with a puzzle and parameters of the game can be stored in a save
/// file, whatever calls follow. A move, a restart or a solution that is accepted and then undone gives back the puzzle, the
/// parameters, the kept bytes, the past, the position and the board. An undo and then a redo give back the
/// whole session, later moves included.
///
/// The flag `cheated` of the board that is shown is set exactly if a solution that was filled in stands among the past moves, by `solve` or
/// by `play`, and no restart after it; `completed` exactly if a number or such a solution left the puzzle solved since then,
/// and so wherever `cheated` is.
#[tactic(auto, using(crate::proofs::StorableLaws::laws))]
pub fn laws<P: Game>()
    ensures solutions { SolutionsAreFilledIn }
    ensures givens_stay { GivensStay P.puzzle }
    ensures stays_valid { RunsStayValid P.puzzle }
    ensures starts_storable { StartsStorable P.puzzle P.valid P.letter_codes }
    ensures stays_storable { RunsStayStorable P.puzzle P.valid P.letter_codes }
    ensures move_undone { UndoTakesBack P.puzzle }
    ensures restart_undone { UndoTakesRestartBack P.puzzle }
    ensures solve_undone { UndoTakesSolveBack P.puzzle }
    ensures undo_redone { RedoTakesUndoBack P.puzzle }
    ensures help_flagged { HelpIsFlagged P.puzzle }
    ensures completion_flagged { CompletionIsFlagged P.puzzle P.valid }
    ensures help_completes { HelpCompletes P.puzzle }
{}

/// The laws of a list of moves that is played in turn from a new session of a game, as a saved game is loaded.
///
/// Every move is accepted exactly where the list is legal and leads to at most `MOST_STATES` states. The session then has these moves
/// and is at its last position, from where `undo` leads back to each position. Every valid session can be reached so.
#[tactic(auto, using(crate::proofs::MoveListLaws::list_laws))]
pub fn move_list_laws<P: Game>()
    ensures legal_accepted { LegalListsPlay P.puzzle }
    ensures accepted_legal { AcceptedListsAreLegal P.puzzle }
    ensures undo_leads_back { UndoLeadsBack P }
    ensures all_reached { HistoriesAreReached P.puzzle }
{}
