//! Shaving: each pair of the candidates is supposed in turn, and taken away where narrowing alone refutes it.

ghost use Rattle.std.specs.Prelude.{◌≡◌, ℕ, ◌*◌, ◌<◌};
ghost use Rattle.std.specs.Bool.{OnFalse};
ghost use Rattle.latin_board.specs.Squares.{GridValue};
ghost use Rattle.trail_solver.specs.Pairs.{IsPair};
ghost use Rattle.trail_solver.specs.Inner.Squares.{IsBranch};
ghost use Rattle.trail_solver.specs.Inner.Among.{IsAmongAt};
ghost use Rattle.trail_solver.specs.Inner.Searches.{NarrowsSearch};

use crate::choice::is_branch;
use crate::rules::Rules;
use crate::search::Search;
use crate::squares::{keep_only, take_away};

impl<P: Rules> Search<P> {
    /// Supposes each pair of the candidates once; false where that finds that no solution is among them. It isn't inlined, so that
    /// it takes no room in the frames of the calls within calls.
    #[inline(never)]
    #[tactic(auto, using(crate::proofs::ShavingSteps::shaves_nothing, crate::proofs::ShavingSteps::shaves_then))]
    pub fn shave(&mut self) -> bool
        ensures { NarrowsSearch P.puzzle self.old self.new result }
    {
        let width = self.candidates.size().get() as usize;
        for cell in 0..width * width {
            if !self.shave_square(cell) {
                return false;
            }
        }
        true
    }

    // Supposes each candidate of one square; false where that finds that no solution is among the candidates.
    #[tactic(auto, using(crate::proofs::ShavingSteps::shaves_nothing, crate::proofs::ShavingSteps::shaves_then))]
    fn shave_square(&mut self, cell: usize) -> bool
        requires { cell < self.old.candidates.size * self.old.candidates.size }
        ensures { NarrowsSearch P.puzzle self.old self.new result }
    {
        let width = self.candidates.size().get();
        for value in 1..width + 1 {
            if !self.shave_pair(cell, value) {
                return false;
            }
        }
        true
    }

    // Supposes one pair, if its square has other candidates, and takes it away where narrowing refutes it.
    #[tactic(auto, using(crate::proofs::ShavingSteps::shaves_nothing))]
    fn shave_pair(&mut self, cell: usize, value: u8) -> bool
        requires { IsPair self.old.candidates.size cell value }
        ensures { NarrowsSearch P.puzzle self.old self.new result }
    {
        if !is_branch(&self.candidates, cell, value) {
            return true;
        }
        if self.may_stand(cell, value) {
            return true;
        }
        self.rule_out(cell, value)
    }

    // Whether the value may stand in the cell for all that narrowing finds.
    #[tactic(auto, using(crate::proofs::AmongCandidates::kept_from_at, crate::proofs::Earlier::earlier_trans))]
    fn may_stand(&mut self, cell: usize, value: u8) -> bool
        requires { IsBranch self.old.candidates cell value }
        ensures same { self.new ≡ self.old }
        ensures refutes { OnFalse result ((g : GridValue)
            → IsAmongAt (P.puzzle self.old.rules) self.old.candidates cell value g → ⊥) }
    {
        let checkpoint = self.checkpoint();
        keep_only(&mut self.candidates, cell, value);
        let may_hold = self.narrow_after(cell);
        self.go_back(checkpoint);
        may_hold
    }

    // Takes away a pair that no solution has, and narrows; false where that finds that no solution is left.
    #[tactic(auto, using(crate::proofs::ShavingSteps::shaves_then, crate::proofs::ShavingSteps::shaves_refuted))]
    fn rule_out(&mut self, cell: usize, value: u8) -> bool
        requires branch { IsBranch self.old.candidates cell value }
        requires refuted { (g : GridValue)
            → IsAmongAt (P.puzzle self.old.rules) self.old.candidates cell value g → ⊥ }
        ensures { NarrowsSearch P.puzzle self.old self.new result }
    {
        take_away(&mut self.candidates, cell, value);
        self.narrow_after(cell)
    }
}
