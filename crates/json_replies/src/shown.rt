//! The part that a game adds to be told as JSON: the clues and signs of its boards, and laws of its letters.

ghost use Rattle.line_steps.specs.Reasons.{StruckBy};
ghost use Rattle.std.specs.Prelude.{◌≡◌, ◌∷◌, [], OnOk};
ghost use Rattle.latin_board.specs.Boards.{BoardValue};
ghost use Rattle.serde_json.specs.Data.{Data, array, no_items};
ghost use Rattle.board_checks.specs.Errors.{ErrorsValue};
ghost use Rattle.json_replies.specs.ObjectLines.{IsShallow};
ghost use Rattle.json_replies.specs.FairLines.{AreFairLetters};
ghost use Rattle.json_replies.specs.FurtherLines.{BoardFacts};
ghost use Rattle.json_replies.specs.WrittenData.{Follow};

use crate::clue_lists::{write_clue_list, write_sign_list};
use crate::written::write_none;
use board_checks::{BoardErrors, Demands};
use fair_games::FairGame;
use game_texts::Game;
use json::Writer;
use latin_board::Board;
use line_replies::Draw;
use needed_items::Items;
use std::alloc::AllocError;
use step_texts::StepNames;
use towers_game::Towers;
use trail_solver::Rules;
use unequal_game::Unequal;

/// A game whose boards can be told.
pub trait Shows: Draw + Demands + StepNames + FairGame + Items {
    // The clues that stand at the edges of a board, and the signs between its squares.
    ghost clues: { Self → BoardValue → ErrorsValue → Data };

    ghost signs: { Self → BoardValue → ErrorsValue → Data };

    /// Writes the clues at the edges of a board of the puzzle's size, each with whether it is done, and an error.
    fn write_clues(
        &self,
        writer: &mut Writer,
        board: &Board,
        errors: &BoardErrors,
    ) -> Result<(), AllocError>
        requires { board.now.size ≡ (Self.puzzle self.now).size }
        ensures { OnOk result (Follow (clues self.now board.now errors.now ∷ []) writer.old writer.new) };

    /// Writes the signs between the squares of a board of the puzzle's size, each with whether it is an error.
    fn write_signs(
        &self,
        writer: &mut Writer,
        board: &Board,
        errors: &BoardErrors,
    ) -> Result<(), AllocError>
        requires { board.now.size ≡ (Self.puzzle self.now).size }
        ensures { OnOk result (Follow (signs self.now board.now errors.now ∷ []) writer.old writer.new) };

    // Both are lists of flat objects without a float, at most.
    ghost clues_fit: { (p : Self) (b : BoardValue) (e : ErrorsValue) → IsShallow 2 (clues p b e) };

    ghost signs_fit: { (p : Self) (b : BoardValue) (e : ErrorsValue) → IsShallow 2 (signs p b e) };

    // The letters of fair games are letters of the game, each of one grade.
    ghost fair_letters: { AreFairLetters Self.letter_codes Self.letter_of };
}

impl Shows for Towers {
    ghost use Rattle.json_replies.specs.ClueLists.{clues_data};
    ghost use Rattle.json_replies.specs.Laws.Spellings.{clues_fit, none_fits};
    ghost use Rattle.json_replies.specs.Laws.FairLetters.{towers_fair};

    ghost clues = { clues_data };

    ghost signs = { λ _ _ _. array no_items };

    ghost clues_fit = { clues_fit };

    ghost signs_fit = { λ _ _ _. none_fits };

    ghost fair_letters = { towers_fair };

    fn write_clues(
        &self,
        writer: &mut Writer,
        board: &Board,
        errors: &BoardErrors,
    ) -> Result<(), AllocError> {
        write_clue_list(writer, self, board, errors)
    }

    fn write_signs(
        &self,
        writer: &mut Writer,
        _board: &Board,
        _errors: &BoardErrors,
    ) -> Result<(), AllocError> {
        write_none(writer)
    }
}

impl Shows for Unequal {
    ghost use Rattle.json_replies.specs.ClueLists.{signs_data};
    ghost use Rattle.json_replies.specs.Laws.Spellings.{signs_fit, none_fits};
    ghost use Rattle.json_replies.specs.Laws.FairLetters.{unequal_fair};

    ghost clues = { λ _ _ _. array no_items };

    ghost signs = { λ p _ e. signs_data p e };

    ghost clues_fit = { λ _ _ _. none_fits };

    ghost signs_fit = { λ p _ e. signs_fit p e };

    ghost fair_letters = { unequal_fair };

    fn write_clues(
        &self,
        writer: &mut Writer,
        _board: &Board,
        _errors: &BoardErrors,
    ) -> Result<(), AllocError> {
        write_none(writer)
    }

    fn write_signs(
        &self,
        writer: &mut Writer,
        _board: &Board,
        errors: &BoardErrors,
    ) -> Result<(), AllocError> {
        write_sign_list(writer, self, errors)
    }
}

/// The facts of a game that the answers beside the commands know, as one word for contracts.
pub trait ShownFacts {
    ghost board_facts: { BoardFacts Self };
}

impl<P: Shows> ShownFacts for P {
    ghost board_facts = { record {
      demand = P.demand;
      clues = P.clues;
      signs = P.signs;
      struck_by = (StruckBy P.puzzle P.own);
      letter = P.grade_letter;
      edge_clue = P.edge_clue_of;
      says_greater = P.says_greater_of;
      fair_letter = P.letter_of;
      trial = P.trial_of;
      initial = P.initial_code;
      items = P.Items.own;
    } };
}
