//! Fair games of Latin squares: easy ones follow by rows and columns, normal ones ask for groups of squares.

use crate::latin::Latin;
use fair_games::{FairGame, Trial};
use named_steps::Grade;

impl FairGame for Latin {
    ghost use Rattle.client.specs.LatinSteps.{latin_letter, latin_trial, some_givens, no_marks};

    ghost initial_code = { 76 };

    ghost letter_of = { latin_letter };

    ghost trial_of = { latin_trial };

    fn initial() -> u8 {
        b'L'
    }

    fn letter(grade: Grade) -> Option<u8> {
        match grade {
            Grade::Latin => Some(b'e'),
            Grade::Easy => None,
            Grade::Hard => Some(b'n'),
        }
    }

    fn trial(grade: Grade) -> Trial {
        let _grade = grade;
        Trial::GivensAlone
    }

    ghost some_items = { some_givens };

    ghost few_marks = { no_marks };
}
