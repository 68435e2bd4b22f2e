//! A search: the rules of a puzzle, the candidates that are left, and where it failed.
ghost use Rattle.std.specs.Prelude.{◌≡◌, ◌≢◌, ◌*◌, ◌<◌, ◌≤◌, length, None, MatchOption};
ghost use Rattle.std.specs.Bool.{OnFalse, OnTrue};
ghost use Rattle.latin_board.specs.Squares.{GridValue};
ghost use Rattle.trail_solver.specs.declared.trail.TheConstants.{PAIRS};
ghost use Rattle.trail_solver.specs.Inner.Squares.{AreSettled, IsBranch};
ghost use Rattle.trail_solver.specs.Inner.Among.{IsAmong, IsAmongAt};
ghost use Rattle.trail_solver.specs.Inner.Runs.{RunAdds};
ghost use Rattle.trail_solver.specs.declared.answer.Answer.{Answer};
ghost use Rattle.trail_solver.specs.Inner.Searches.{AreSame, IsFurther, NarrowsSearch, SearchValue};
ghost use Rattle.trail_solver.specs.Inner.Added.{Adds};
ghost use Rattle.trail_solver.specs.Answers.{Fits};

use crate::answer::{Answer, added};
use crate::candidates::{Candidates, Mark};
use crate::choice::{Choice, choose};
use crate::guessing::failures::{Failures, Side};
use crate::narrowing::narrow_after;
use crate::rules::{Rules, solves};
use crate::squares::{filled, keep_only, take_away};
use std::marker::Model;

/// How many failures each of the first three runs may have. After them the candidates are shaved.
const RUN_LIMITS: [u32; 3] = [100, 150, 225];

/// How many failures the fourth run may have, after shaving. The fifth and last has no limit.
const LONG_RUN: u32 = 5000;

/// A guess with so many failures is dear.
const DEAR_GUESS: u32 = 300;

/// A point to which a search can go back.
#[derive(Clone, Copy)]
pub(crate) struct Checkpoint {
    pub mark: Mark,
    /// How long the trail was when the search looked closer last.
    looked: usize,
}

/// A search for the solutions of a puzzle.
///
/// It narrows the candidates, tries a value in a square, gives that back, goes on without the value, and stops at the
/// second solution. A run that fails too often is left, and the search begins anew with the failures that it has counted, so
/// that it branches elsewhere; the last run has no limit. The candidates are shaved before the last two runs, and where a
/// guess was dear. It takes no memory.
#[derive(Drop)]
pub(crate) struct Search<P: Rules> {
    pub rules: P,
    pub candidates: Candidates,
    pub failures: Failures,
}

impl<P: Rules> Model for Search<P> {
    ghost use Rattle.std.specs.Prelude.{◌≡◌};
    ghost use Rattle.trail_solver.specs.Inner.Searches.{SearchValue};

    ghost Value = { SearchValue P };

    ghost view = { λ s. record { rules = s.rules; candidates = s.candidates } };

    ghost invariant = { λ s. s.candidates.size ≡ (P.puzzle s.rules).size };
}

impl<P: Rules> Search<P> {
    /// A search of the puzzle among these candidates, of which nothing is narrowed yet; the sizes are equal.
    pub fn among(p: &P, candidates: Candidates) -> Search<P>
        requires { candidates.size ≡ (P.puzzle p.now).size }
        ensures rules { result.rules ≡ p.now }
        ensures candidates { result.candidates ≡ candidates }
    {
        Search {
            rules: *p,
            candidates,
            failures: Failures::none(),
        }
    }

    /// Narrows the candidates by all that the puzzle asks; false where that finds that no solution is among them.
    #[tactic(auto, using(crate::proofs::AmongCandidates::among_narrowed, crate::proofs::AmongCandidates::among_earlier))]
    pub fn settle(&mut self) -> bool
        ensures further { IsFurther self.old self.new }
        ensures same { AreSame (IsAmong (P.puzzle self.old.rules) self.old.candidates)
            (IsAmong (P.puzzle self.new.rules) self.new.candidates) }
        ensures refutes { OnFalse result ((g : GridValue)
            → IsAmong (P.puzzle self.old.rules) self.old.candidates g → ⊥) }
    {
        self.rules.narrow(&mut self.candidates)
    }

    // Whether a run has a limit, and the failures reach it.
    fn has_reached(&self, limit: Option<u32>) -> bool
        ensures { OnTrue result (limit ≢ None) }
    {
        match limit {
            Some(most) => self.failures.are_at_least(most),
            None => false,
        }
    }

    // Adds the solutions among the candidates to those that were found, or leaves off where the failures reach the limit. It
    // tells whether all were added. The answer isn't handed on by value, as there are calls within calls:
    // their frames are to be small.
    #[cycle(search)]
    #[tactic(auto, using(crate::proofs::Runs::left_limited, crate::proofs::Runs::left_anyhow))]
    fn run(&mut self, found: &mut Answer, limit: Option<u32>) -> bool
        ensures further { IsFurther self.old self.new }
        ensures adds { RunAdds (IsAmong (P.puzzle self.old.rules) self.old.candidates)
            limit result found.old found.new }
    {
        loop {
            if self.has_reached(limit) {
                return false;
            }
            match choose(&self.candidates, &self.failures) {
                Choice::Settled => {
                    self.add_leaf(found);
                    return true;
                }
                Choice::Dead => return true,
                Choice::Branch { cell, value } => {
                    let dear = self.failures.after(DEAR_GUESS);
                    if !self.guess(cell, value, found, limit) {
                        return false;
                    }
                    if let Answer::Several(_, _) = *found {
                        return true;
                    }
                    take_away(&mut self.candidates, cell, value);
                    if !self.go_on_after(cell, dear) {
                        return true;
                    }
                }
            }
        }
    }

    // Adds the solutions that have the value in the cell, or leaves off, and leaves the candidates as they were.
    #[cycle(search)]
    fn guess(&mut self, cell: usize, value: u8, found: &mut Answer, limit: Option<u32>) -> bool
        requires { IsBranch self.old.candidates cell value }
        ensures same { self.new ≡ self.old }
        ensures adds { RunAdds (IsAmongAt (P.puzzle self.old.rules) self.old.candidates cell value)
            limit result found.old found.new }
    {
        let checkpoint = self.checkpoint();
        let all = if self.assume(cell, value) {
            self.run(found, limit)
        } else {
            true
        };
        self.go_back(checkpoint);
        all
    }

    // Narrows after the cell lost the value of a guess, and shaves if the failures have reached `dear`, by which that guess was
    // dear; false if that finds that no solution is left.
    #[tactic(auto, using(crate::proofs::ShavingSteps::shaves_then, crate::proofs::ShavingSteps::narrows_from))]
    fn go_on_after(&mut self, cell: usize, dear: u32) -> bool
        requires { cell < self.old.candidates.size * self.old.candidates.size }
        ensures { NarrowsSearch P.puzzle self.old self.new result }
    {
        if !self.propagate(cell, Side::Rest) {
            return false;
        }
        if !self.failures.are_at_least(dear) {
            return true;
        }
        self.shave()
    }

    // The known answer with the solutions among the candidates, which stay as they are, or nothing where the
    // failures reach the limit.
    fn attempt(&mut self, known: &Answer, limit: Option<u32>) -> Option<Answer>
        ensures same { self.new ≡ self.old }
        ensures adds { MatchOption result (limit ≢ None)
            (Adds (IsAmong (P.puzzle self.old.rules) self.old.candidates) known.now) }
    {
        let checkpoint = self.checkpoint();
        let mut found = *known;
        let all = self.run(&mut found, limit);
        self.go_back(checkpoint);
        if all { Some(found) } else { None }
    }

    // The known answer with the solutions among the candidates, which stay as they are. Two solutions end it.
    fn answer_with(&mut self, known: &Answer) -> Answer
        ensures same { self.new ≡ self.old }
        ensures adds { Adds (IsAmong (P.puzzle self.old.rules) self.old.candidates) known.now result }
    {
        for more in RUN_LIMITS {
            let limit = self.failures.after(more);
            if let Some(answer) = self.attempt(known, Some(limit)) {
                return answer;
            }
        }
        self.last_answer(known)
    }

    // The answer of `answer_with`, after all short runs of a search: the candidates are shaved first.
    fn last_answer(&mut self, known: &Answer) -> Answer
        ensures same { self.new ≡ self.old }
        ensures adds { Adds (IsAmong (P.puzzle self.old.rules) self.old.candidates) known.now result }
    {
        let checkpoint = self.checkpoint();
        let answer = self.shaved_answer(known);
        self.go_back(checkpoint);
        answer
    }

    // The answer of `last_answer`; candidates that shaving takes away stay away.
    #[tactic(auto, using(crate::proofs::JoinedAnswers::adds_same, crate::proofs::JoinedAnswers::adds_nothing))]
    fn shaved_answer(&mut self, known: &Answer) -> Answer
        ensures further { IsFurther self.old self.new }
        ensures adds { Adds (IsAmong (P.puzzle self.old.rules) self.old.candidates) known.now result }
    {
        if self.shave() {
            self.thorough_answer(known)
        } else {
            *known
        }
    }

    // The answer of `answer_with`, of shaved candidates: by a limited run, or otherwise by an unlimited one.
    fn thorough_answer(&mut self, known: &Answer) -> Answer
        ensures same { self.new ≡ self.old }
        ensures adds { Adds (IsAmong (P.puzzle self.old.rules) self.old.candidates) known.now result }
    {
        let limit = self.failures.after(LONG_RUN);
        if let Some(answer) = self.attempt(known, Some(limit)) {
            return answer;
        }
        match self.attempt(known, None) {
            Some(answer) => answer,
            None => unreachable!(),
        }
    }

    /// How many solutions there are among the candidates, which stay as they are.
    pub fn answer(&mut self) -> Answer
        ensures same { self.new ≡ self.old }
        ensures fits { Fits (IsAmong (P.puzzle self.old.rules) self.old.candidates) result }
    {
        self.answer_with(&Answer::None)
    }

    /// How many solutions there are among the candidates, which it narrows first.
    pub fn settled_answer(&mut self) -> Answer
        ensures { Fits (IsAmong (P.puzzle self.old.rules) self.old.candidates) result }
    {
        self.settled_answer_with(&Answer::None)
    }

    /// The known answer with the solutions among the candidates, which it narrows first.
    #[tactic(auto, using(crate::proofs::JoinedAnswers::adds_same, crate::proofs::JoinedAnswers::adds_nothing))]
    pub fn settled_answer_with(&mut self, known: &Answer) -> Answer
        ensures { Adds (IsAmong (P.puzzle self.old.rules) self.old.candidates) known.now result }
    {
        if self.settle() {
            self.answer_with(known)
        } else {
            *known
        }
    }

    /// Keeps the value alone in the cell, and narrows; false where that finds no solution with it.
    pub fn assume(&mut self, cell: usize, value: u8) -> bool
        requires { IsBranch self.old.candidates cell value }
        ensures further { IsFurther self.old self.new }
        ensures longer { length self.old.candidates.trail < length self.new.candidates.trail }
        ensures room { length self.old.candidates.trail < PAIRS }
        ensures same { AreSame (IsAmongAt (P.puzzle self.old.rules) self.old.candidates cell value)
            (IsAmong (P.puzzle self.new.rules) self.new.candidates) }
        ensures refutes { OnFalse result ((g : GridValue)
            → IsAmongAt (P.puzzle self.old.rules) self.old.candidates cell value g → ⊥) }
    {
        keep_only(&mut self.candidates, cell, value);
        self.propagate(cell, Side::Guess)
    }

    // Narrows after the cell lost candidates, and notes where that failed.
    fn propagate(&mut self, cell: usize, side: Side) -> bool
        requires { cell < self.old.candidates.size * self.old.candidates.size }
        ensures further { IsFurther self.old self.new }
        ensures same { AreSame (IsAmong (P.puzzle self.old.rules) self.old.candidates)
            (IsAmong (P.puzzle self.new.rules) self.new.candidates) }
        ensures refutes { OnFalse result ((g : GridValue)
            → IsAmong (P.puzzle self.old.rules) self.old.candidates g → ⊥) }
    {
        let may_hold = self.narrow_after(cell);
        if !may_hold {
            self.failures.note(&self.candidates, cell, side);
        }
        may_hold
    }

    /// Narrows after the cell lost candidates; false where that finds that no solution is left.
    #[tactic(auto, using(crate::proofs::AmongCandidates::among_narrowed, crate::proofs::AmongCandidates::among_earlier))]
    pub fn narrow_after(&mut self, cell: usize) -> bool
        requires { cell < self.old.candidates.size * self.old.candidates.size }
        ensures further { IsFurther self.old self.new }
        ensures same { AreSame (IsAmong (P.puzzle self.old.rules) self.old.candidates)
            (IsAmong (P.puzzle self.new.rules) self.new.candidates) }
        ensures refutes { OnFalse result ((g : GridValue)
            → IsAmong (P.puzzle self.old.rules) self.old.candidates g → ⊥) }
    {
        narrow_after(&self.rules, &mut self.candidates, &mut self.failures, cell)
    }

    /// The point where the search is, to come back to.
    pub fn checkpoint(&self) -> Checkpoint
        ensures { result.mark ≡ length self.now.candidates.trail }
    {
        Checkpoint {
            mark: self.candidates.mark(),
            looked: self.failures.looked,
        }
    }

    /// Goes back to a checkpoint, not beyond where the search is: each pair that went since is given back.
    #[tactic(auto, using(crate::proofs::SearchSteps::given_back))]
    pub fn go_back(&mut self, checkpoint: Checkpoint)
        requires { checkpoint.mark ≤ length self.old.candidates.trail }
        ensures { (earlier : SearchValue P) → IsFurther earlier self.old
            → checkpoint.mark ≡ length earlier.candidates.trail → self.new ≡ earlier }
    {
        self.candidates.give_back(checkpoint.mark);
        self.failures.looked = checkpoint.looked;
    }

    // Adds the only grid of the candidates, where it is a solution. It isn't inlined, so that the grid takes no room in the
    // frames of the calls within calls.
    #[inline(never)]
    #[tactic(auto, using(crate::proofs::SearchSteps::leaf_adds, crate::proofs::SearchSteps::leaf_none))]
    fn add_leaf(&self, found: &mut Answer)
        requires { AreSettled self.now.candidates }
        ensures { Adds (IsAmong (P.puzzle self.now.rules) self.now.candidates) found.old found.new }
    {
        let grid = filled(&self.candidates);
        if solves(&self.rules, &grid) {
            *found = added(*found, grid);
        }
    }
}
