//! A game that has fair games: it has a letter for each grade, and an order in which items are tried.

ghost use Rattle.std.specs.Prelude.{◌≡◌, ℕ, ◌+◌, ◌*◌, ◌≤◌, Option};
ghost use Rattle.line_steps.specs.declared.grade.Grade.{Grade};
ghost use Rattle.fair_games.specs.declared.trial.Trial.{Trial};

use crate::trial::Trial;
use game_texts::Game;
use named_steps::{Grade, Steps};
use towers_game::Towers;
use unequal_game::Unequal;

/// A game of which fair games are drawn.
pub trait FairGame: Game + Steps {
    ghost initial_code: { ℕ };

    ghost letter_of: { Grade → Option ℕ };

    ghost trial_of: { Grade → Trial };

    /// The first letter of the game's name, a byte of the key from which its draws come.
    fn initial() -> u8
        ensures { result ≡ initial_code };

    /// The letter that stands for the grade in the game's parameters, where there is one.
    fn letter(grade: Grade) -> Option<u8>
        ensures { result ≡ letter_of grade };

    /// In which order the items of a game of this grade are tried.
    fn trial(grade: Grade) -> Trial
        ensures { result ≡ trial_of grade };

    // The givens are items, and there are at most 144 clues or signs beside them.
    ghost some_items: { (n : ℕ) → 3 ≤ n → n ≤ 9 → n * n ≤ Self.Rules.items_of n };

    ghost few_marks: { (n : ℕ) → 3 ≤ n → n ≤ 9 → Self.Rules.items_of n ≤ n * n + 144 };
}

impl FairGame for Towers {
    ghost use Rattle.fair_games.specs.Letters.{towers_letter, towers_trial};
    ghost use Rattle.fair_games.specs.Laws.Widths.{towers_some, towers_few};

    ghost initial_code = { 84 };

    ghost letter_of = { towers_letter };

    ghost trial_of = { towers_trial };

    fn initial() -> u8 {
        b'T'
    }

    fn letter(grade: Grade) -> Option<u8> {
        match grade {
            Grade::Latin => None,
            Grade::Easy => Some(b'e'),
            Grade::Hard => Some(b'h'),
        }
    }

    fn trial(grade: Grade) -> Trial {
        match grade {
            Grade::Latin => Trial::GivensAlone,
            Grade::Easy => Trial::GivensAlone,
            Grade::Hard => Trial::GivensFirst,
        }
    }

    ghost some_items = { towers_some };

    ghost few_marks = { towers_few };
}

impl FairGame for Unequal {
    ghost use Rattle.fair_games.specs.Letters.{unequal_letter, unequal_trial};
    ghost use Rattle.fair_games.specs.Laws.Widths.{unequal_some, unequal_few};

    ghost initial_code = { 85 };

    ghost letter_of = { unequal_letter };

    ghost trial_of = { unequal_trial };

    fn initial() -> u8 {
        b'U'
    }

    fn letter(grade: Grade) -> Option<u8> {
        match grade {
            Grade::Latin => Some(b't'),
            Grade::Easy => Some(b'e'),
            Grade::Hard => Some(b'k'),
        }
    }

    fn trial(grade: Grade) -> Trial {
        let _grade = grade;
        Trial::HalfFirst
    }

    ghost some_items = { unequal_some };

    ghost few_marks = { unequal_few };
}
