//! The steps of a puzzle's grade, as the loop over lines asks for them.

ghost use Rattle.std.specs.Prelude.{◌≡◌, ◌↔◌, IsTrue};
ghost use Rattle.std.specs.Bool.{OnTrue};
ghost use Rattle.line_steps.specs.Grades.{IsLower};
ghost use Rattle.line_steps.specs.declared.grade.Grade.TheVariants.{Easy, Hard};

use crate::grade::Grade;
use crate::lines::line_pass::LinePass;
use crate::steps::Steps;
use crate::steps::clue_passes::strike_by_reasons;
use number_sets::NumberSet;
use trail_solver::{Candidates, Rules};

/// A puzzle, and the grade whose reasons are meant.
#[derive(Clone, Copy)]
pub(crate) struct GradePass<'a, P: Steps> {
    pub p: &'a P,
    pub grade: Grade,
}

impl<'a, P: Steps> LinePass for GradePass<'a, P> {
    type Cache = P::Cache;

    ghost puzzle = { λ s. P.Rules.puzzle s.p.now };

    ghost valid = { λ s. P.Rules.valid s.p.now };

    ghost own = { λ s. P.own s.p.now };

    ghost grade = { λ s. s.grade };

    fn given_at(&self, cell: usize) -> u8 {
        self.p.given(cell)
    }

    fn strike_by_clues(
        &self,
        candidates: &mut Candidates,
        line: u8,
        cache: &mut P::Cache,
    ) -> NumberSet {
        match self.p.strike_by_clues(self.grade, candidates, line, cache) {
            Some(places) => places,
            None => strike_by_reasons(self.p, self.grade, candidates, line, cache),
        }
    }

    ghost looks_along = { λ s. P.looks_along s.p.now };

    ghost own_less = { λ s. P.own_less s.p.now };

    ghost stands_along = { λ s. P.stands_along s.p.now };

    ghost own_sound = { λ s. P.own_sound s.p.now };
}

/// Whether a grade looks at groups of squares.
pub(crate) fn has_groups(grade: Grade) -> bool
    ensures past { IsTrue result ↔ IsLower Easy grade }
    ensures highest { OnTrue result (grade ≡ Hard) }
{
    matches!(grade, Grade::Hard)
}
