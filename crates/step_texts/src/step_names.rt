//! The part that a game adds for its steps to be told.
ghost use Rattle.line_steps.specs.Reasons.{StruckBy};
ghost use Rattle.std.specs.Prelude.{◌≡◌, ◌*◌, ◌<◌, ℕ, Bool, List};
ghost use Rattle.trail_solver.specs.Candidates.{CandidatesValue};
ghost use Rattle.line_steps.specs.declared.grade.Grade.{Grade};
ghost use Rattle.line_steps.specs.declared.reason.Reason.{Reason};
ghost use Rattle.shown_counts.specs.Shown.{IsShownBy};
ghost use Rattle.step_texts.specs.Told.{reason_clue, IsInView};

use named_steps::{Grade, Steps};
use towers_game::Towers;
use unequal_game::Unequal;

/// A game whose steps can be told.
pub trait StepNames: Steps {
    // The letter that stands for a grade in IDs.
    ghost grade_letter: { Grade → List ℕ };

    // The clue at a place of the edge, 0 where there is none; whether a sign says that the first square has the greater number.
    ghost edge_clue_of: { Self → ℕ → ℕ };

    ghost says_greater_of: { Self → ℕ → ℕ → Bool };

    /// The letter that stands for a grade in IDs: that of the next one, where a game has none for it.
    fn letter(grade: Grade) -> &'static str
        ensures { result.now ≡ grade_letter grade };

    /// The clue at a place of the edge, 0 where there is none.
    fn edge_clue(&self, place: u8) -> u8
        requires { place < 4 * (Self.Rules.puzzle self.now).size }
        ensures { result ≡ edge_clue_of self.now place };

    /// Whether a sign says that the first of two squares of the grid has the greater number.
    fn says_greater(&self, first: usize, second: usize) -> bool
        requires first { first < (Self.Rules.puzzle self.now).size * (Self.Rules.puzzle self.now).size }
        requires second { second < (Self.Rules.puzzle self.now).size * (Self.Rules.puzzle self.now).size }
        ensures { result ≡ says_greater_of self.now first second };

    // A clue's strikes are told by the counts: the clue is in none of those with a number that it strikes.
    ghost struck_unshown: { (p : Self) (c : CandidatesValue) (reason : Reason) (cell value : ℕ)
        → c.size ≡ (Self.Rules.puzzle p).size
        → StruckBy Self.Rules.puzzle Self.Steps.own p c reason cell value → IsShownBy c reason cell value (reason_clue (edge_clue_of p) reason) → ⊥ };

    // A clue strikes each number in a square of its line if the clue isn't among the counts with it there.
    ghost unshown_struck: { (p : Self) (c : CandidatesValue) (reason : Reason) (cell value : ℕ)
        → c.size ≡ (Self.Rules.puzzle p).size
        → 0 < reason_clue (edge_clue_of p) reason → IsInView (Self.Rules.puzzle p).size reason cell
        → (IsShownBy c reason cell value (reason_clue (edge_clue_of p) reason) → ⊥)
        → StruckBy Self.Rules.puzzle Self.Steps.own p c reason cell value };
}

impl StepNames for Towers {
    ghost use Rattle.std.specs.Prelude.{false};
    ghost use Rattle.towers_game.specs.Towers.{clue_of};
    ghost use Rattle.step_texts.specs.Letters.{towers_grade_text};
    ghost use Rattle.step_texts.specs.Laws.ToldByCounts as laws;

    ghost grade_letter = { towers_grade_text };

    ghost edge_clue_of = { clue_of };

    ghost says_greater_of = { λ _ _ _. false };

    ghost struck_unshown = { laws.towers_unshown };

    ghost unshown_struck = { laws.towers_told };

    fn letter(grade: Grade) -> &'static str {
        match grade {
            Grade::Latin => "e",
            Grade::Easy => "e",
            Grade::Hard => "h",
        }
    }

    fn edge_clue(&self, place: u8) -> u8 {
        self.clue(place)
    }

    fn says_greater(&self, _first: usize, _second: usize) -> bool {
        false
    }
}

impl StepNames for Unequal {
    ghost use Rattle.std.specs.Prelude.{zero};
    ghost use Rattle.unequal_game.specs.Unequal.{is_greater};
    ghost use Rattle.step_texts.specs.Letters.{unequal_grade_text};
    ghost use Rattle.step_texts.specs.Laws.ToldByCounts as laws;

    ghost grade_letter = { unequal_grade_text };

    ghost edge_clue_of = { λ _ _. zero };

    ghost says_greater_of = { is_greater };

    ghost struck_unshown = { laws.unequal_unshown };

    ghost unshown_struck = { laws.unequal_told };

    fn letter(grade: Grade) -> &'static str {
        match grade {
            Grade::Latin => "t",
            Grade::Easy => "e",
            Grade::Hard => "k",
        }
    }

    fn edge_clue(&self, _place: u8) -> u8 {
        0
    }

    fn says_greater(&self, first: usize, second: usize) -> bool {
        self.greater(first, second)
    }
}
