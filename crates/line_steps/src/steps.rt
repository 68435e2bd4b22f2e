//! A game's account of its steps, and the laws that these obey.
ghost use Rattle.std.specs.Prelude.{◌≡◌, ◌≢◌, ◌↔◌, ℕ, ◌+◌, ◌*◌, ◌<◌, Bool, true, IfNone, IfSome};
ghost use Rattle.number_sets.specs.Sets.{has_number, IsEmpty};
ghost use Rattle.latin_board.specs.Squares.{GridValue, number_at};
ghost use Rattle.trail_solver.specs.Pairs.{IsPair};
ghost use Rattle.trail_solver.specs.Candidates.{CandidatesValue, IsWithin};
ghost use Rattle.trail_solver.specs.Puzzles.{Solves};
ghost use Rattle.line_steps.specs.Left.{IsFewer};
ghost use Rattle.line_steps.specs.Reasons.{StruckBy, AreStruckFrom, Striking};
ghost use Rattle.line_steps.specs.Along.{LooksAlong, StandsAlong, IsQuietAlong, LosesAt, StaysOn};
ghost use Rattle.line_steps.specs.Chains.{LeadsTo};
ghost use Rattle.line_steps.specs.declared.grade.Grade.{Grade};
ghost use Rattle.line_steps.specs.declared.reason.Reason.{Reason};

pub(crate) mod clue_passes;
pub(crate) mod grade_pass;
pub(crate) mod group_passes;
pub(crate) mod latin_strikes;
pub(crate) mod set_strikes;
pub(crate) mod settling;

use crate::grade::Grade;
use crate::reason::Reason;
use crate::steps::latin_strikes::{by_peer, by_place, given_strikes};
use crate::steps::set_strikes::by_set;
use number_sets::NumberSet;
use trail_solver::{Candidates, Rules};

/// A puzzle whose steps have names. A game says what its reasons strike, and which laws that obeys. The functions with a body are for
/// speed: a game may have quicker ones.
pub trait Steps: Rules {
    /// The cache that is kept while steps are looked for, so that nothing is looked through twice; it is
    /// right for any puzzle.
    type Cache: Default + Drop;

    // The strikes of a clue or a sign from candidates by a reason of the game's own: pairs of a square and a
    // value. Givens, rows, columns and groups of squares strike as in every game (`AllStrikes`).
    ghost own: { Self → Striking };

    /// The values that a clue or a sign strikes in a square, and none for other reasons; the sizes are equal, and the square is one of the
    /// grid's. `cache` may be used and added to, here and in what follows.
    fn own_strikes(
        &self,
        candidates: &Candidates,
        reason: Reason,
        cell: usize,
        cache: &mut Self::Cache,
    ) -> NumberSet
        requires size { candidates.now.size ≡ (Self.Rules.puzzle self.now).size }
        requires inside { cell < candidates.now.size * candidates.now.size }
        ensures { (v : ℕ) → (has_number result v ≡ true)
            ↔ (IsPair candidates.now.size cell v × own self.now candidates.now reason cell v) };

    /// The values that any reason strikes.
    fn strikes(
        &self,
        candidates: &Candidates,
        reason: Reason,
        cell: usize,
        cache: &mut Self::Cache,
    ) -> NumberSet
        requires size { candidates.now.size ≡ (Self.Rules.puzzle self.now).size }
        requires inside { cell < candidates.now.size * candidates.now.size }
        ensures { (v : ℕ) → (has_number result v ≡ true)
            ↔ (IsPair candidates.now.size cell v
            × StruckBy Self.Rules.puzzle own self.now candidates.now reason cell v) }
    {
        match reason {
            Reason::Given { cell: at } => given_strikes(self, candidates, at, cell),
            Reason::Peer { cell: by } => by_peer(candidates, by, cell),
            Reason::Place { line, index, value } => {
                by_place(candidates, line, index, value, cell)
            }
            Reason::Set {
                line,
                squares,
                values,
            } => by_set(candidates, line, squares, values, cell),
            _ => self.own_strikes(candidates, reason, cell, cache),
        }
    }

    /// The values that a reason strikes in each of the squares from a place at the edge, where the game finds them all at once; the
    /// sizes are equal, and the place is one of the grid's.
    fn strikes_from(
        &self,
        candidates: &Candidates,
        reason: Reason,
        place: usize,
        cache: &mut Self::Cache,
    ) -> Option<[NumberSet; 9]>
        requires size { candidates.now.size ≡ (Self.Rules.puzzle self.now).size }
        requires place { place < 4 * candidates.now.size }
        ensures { IfSome result (AreStruckFrom candidates.now.size (StruckBy Self.Rules.puzzle own self.now candidates.now reason) place
            candidates.now.size) }
    {
        None
    }

    /// Takes away what the clues or signs along a row or column strike by a grade's reasons, and gives the places of those of its squares
    /// of which something went, where the game goes over the line at once; the sizes are equal, and the line is one of the grid's.
    fn strike_by_clues(
        &self,
        grade: Grade,
        candidates: &mut Candidates,
        line: u8,
        cache: &mut Self::Cache,
    ) -> Option<NumberSet>
        requires size { candidates.old.size ≡ (Self.Rules.puzzle self.now).size }
        requires line { line < 2 * candidates.old.size }
        ensures none { IfNone result (candidates.new ≡ candidates.old) }
        ensures leads { IfSome result (λ places. LeadsTo (StruckBy Self.Rules.puzzle own self.now) grade candidates.old candidates.new) }
        ensures loses { IfSome result (λ places. LosesAt line places candidates.old candidates.new) }
        ensures quiet { IfSome result (λ places. IsEmpty places
            → IsQuietAlong (StruckBy Self.Rules.puzzle own self.now) grade line candidates.new) }
    {
        None
    }

    // A clue or a sign that looks along a line strikes nothing that it didn't strike before, if nothing went
    // of the line's squares since then.
    ghost looks_along: { (p : Self) (c d : CandidatesValue) (reason : Reason) (cell value line : ℕ)
        → c.size ≡ (Self.Rules.puzzle p).size
        → line < 2 * c.size → LooksAlong c.size line reason cell → StaysOn line c d
        → own p d reason cell value → own p c reason cell value };

    // A clue or a sign that strikes looks along a line.
    ghost stands_along: { (p : Self) (c : CandidatesValue) (reason : Reason) (cell value : ℕ) → Self.Rules.valid p
        → own p c reason cell value → StandsAlong (Self.Rules.puzzle p).size reason cell };

    // A clue or a sign that strikes a value from candidates strikes it from fewer.
    ghost own_less: { (p : Self) (c d : CandidatesValue) (reason : Reason) (cell value : ℕ) → IsFewer c d
        → own p c reason cell value → own p d reason cell value };

    // A value that a clue or a sign strikes is in no solution within the candidates.
    ghost own_sound: { (p : Self) (c : CandidatesValue) (reason : Reason) (cell value : ℕ) (g : GridValue)
        → Self.Rules.valid p
        → c.size ≡ (Self.Rules.puzzle p).size → Solves (Self.Rules.puzzle p) g → IsWithin c g
        → own p c reason cell value → number_at g cell ≢ value };

    // A clue or a sign that strikes a value in a cut of the puzzle strikes it in the whole.
    ghost own_cut: { (p : Self) (keep : ℕ → Bool) (c : CandidatesValue) (reason : Reason) (cell value : ℕ)
        → own (Self.Rules.cut p keep) c reason cell value → own p c reason cell value };
}
