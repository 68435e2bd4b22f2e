//! Items without which a puzzle still follows by a grade.

ghost use Rattle.std.specs.Prelude.{◌≡◌, ◌<◌, ◌≤◌, ◌↔◌, ◌++◌, IsTrue};
ghost use Rattle.line_steps.specs.Reasons.{StruckBy};
ghost use Rattle.needed_items.specs.Needed.{IsSpare, IsThinned};
ghost use Rattle.needed_items.specs.InTurn.{IsLeftInTurn, falling};
ghost use Rattle.fair_games.specs.FairGames.{IsBeyondGrade, IsByGrade};

use named_steps::{Grade, Steps, follows};
use needed_items::{Order, Test, left_in_turn};
use trail_solver::Rules;

/// Whether the puzzle has the item, and without it follows by the steps of the grade.
pub fn is_spare_by<P: Steps>(puzzle: &P, grade: Grade, item: usize) -> bool
    requires inside { item < P.items_of (P.puzzle puzzle.now).size }
    ensures { IsTrue result ↔ IsSpare ⟦<P as Rules>⟧ (IsByGrade ⟦<P as Rules>⟧ (StruckBy P.puzzle P.own) grade) puzzle.now item }
{
    if !puzzle.has_item(item) {
        return false;
    }
    let mut fewer = *puzzle;
    fewer.drop_item(item);
    follows(&fewer, grade)
}

/// Whether the rest follows by a grade.
#[derive(Clone, Copy)]
pub(crate) struct ByGrade(pub(crate) Grade);

impl<P: Steps> Test<P> for ByGrade {
    ghost passes = { λ test. IsByGrade ⟦<P as Rules>⟧ (StruckBy P.puzzle P.own) test.0 };

    ghost fails = { λ test. IsBeyondGrade ⟦<P as Rules>⟧ (StruckBy P.puzzle P.own) test.0 };

    fn fails_without(&self, puzzle: &P, item: usize) -> bool {
        let mut fewer = *puzzle;
        fewer.drop_item(item);
        !follows(&fewer, self.0)
    }

    ghost apart = { λ _ _ passes fails. fails passes };
}

/// The puzzle without items that the grade can do without: those below `first` are tried first, and then all, each time from the last to
/// the first. An item goes where the rest still follows by the steps of the grade; one that stays once stays. All items
/// that are left are needed for that.
#[tactic(auto, using(crate::proofs::TriedFirst::falling_within, crate::proofs::TriedFirst::left_by_both))]
pub fn thinned_by<P: Steps>(puzzle: &P, grade: Grade, first: usize) -> P
    requires first { first ≤ P.items_of (P.puzzle puzzle.now).size }
    requires follows { IsByGrade ⟦<P as Rules>⟧ (StruckBy P.puzzle P.own) grade puzzle.now }
    ensures thinned { IsThinned ⟦<P as Rules>⟧ (IsByGrade ⟦<P as Rules>⟧ (StruckBy P.puzzle P.own) grade)
        puzzle.now result }

    // Which of such puzzles it is.
    ensures in_turn { IsLeftInTurn ⟦<P as Rules>⟧ (IsBeyondGrade ⟦<P as Rules>⟧ (StruckBy P.puzzle P.own) grade)
        (falling first ++ falling (P.items_of (P.puzzle puzzle.now).size)) puzzle.now result }
{
    let count = P::item_count(puzzle.size());
    let left = left_in_turn(puzzle, &Order::Falling(first), &ByGrade(grade));
    left_in_turn(&left, &Order::Falling(count), &ByGrade(grade))
}
