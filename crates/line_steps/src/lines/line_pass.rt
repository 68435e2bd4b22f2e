//! The parts of a puzzle that a loop over the rows and columns asks for.

ghost use Rattle.std.specs.Prelude.{◌≡◌, ◌≢◌, ℕ, ◌*◌, ◌<◌, ◌≤◌};
ghost use Rattle.number_sets.specs.Sets.{IsEmpty};
ghost use Rattle.latin_board.specs.Squares.{GridValue, number_at};
ghost use Rattle.trail_solver.specs.Candidates.{CandidatesValue, IsWithin};
ghost use Rattle.trail_solver.specs.Puzzles.{Puzzle, Solves};
ghost use Rattle.line_steps.specs.Along.{LooksAlong, StandsAlong, IsQuietAlong, LosesAt, StaysOn};
ghost use Rattle.line_steps.specs.Left.{IsFewer};
ghost use Rattle.line_steps.specs.Chains.{LeadsTo};
ghost use Rattle.line_steps.specs.Reasons.{StruckBy, Striking};
ghost use Rattle.line_steps.specs.declared.grade.Grade.{Grade};
ghost use Rattle.line_steps.specs.declared.reason.Reason.{Reason};

use number_sets::NumberSet;
use trail_solver::Candidates;

/// A puzzle whose reasons of a grade strike along rows and columns: its givens, and its clues or signs.
pub trait LinePass {
    /// The cache that is kept while lines are looked along, so that nothing is looked through twice; it is
    /// right for any puzzle.
    type Cache;

    ghost puzzle: { Self → Puzzle };

    ghost valid: { Self → Type 0 };

    // The strikes of a clue or a sign from candidates: pairs of a square and a value.
    ghost own: { Self → Striking };

    ghost grade: { Self → Grade };

    /// The given number of a square, 0 for none; the square is one of the grid's.
    fn given_at(&self, cell: usize) -> u8
        requires { cell < (puzzle self.now).size * (puzzle self.now).size }
        ensures value { result ≡ (puzzle self.now).given cell }
        ensures within { result ≤ (puzzle self.now).size };

    /// Takes away what the clues or signs along a row or column strike, and gives the places of those of its squares of which something
    /// went. The sizes are equal, and the line is one of the grid's.
    fn strike_by_clues(
        &self,
        candidates: &mut Candidates,
        line: u8,
        cache: &mut Self::Cache,
    ) -> NumberSet
        requires size { candidates.old.size ≡ (puzzle self.now).size }
        requires line { line < 2 * candidates.old.size }
        ensures leads { LeadsTo (StruckBy puzzle own self.now) (grade self.now) candidates.old candidates.new }
        ensures loses { LosesAt line result candidates.old candidates.new }
        ensures quiet { IsEmpty result → IsQuietAlong (StruckBy puzzle own self.now) (grade self.now) line candidates.new };

    /// Takes away what clues strike that need to be looked at but once. The sizes are equal.
    fn strike_first(&self, candidates: &mut Candidates)
        requires { candidates.old.size ≡ (puzzle self.now).size }
        ensures { LeadsTo (StruckBy puzzle own self.now) (grade self.now) candidates.old candidates.new }
    {}

    // A clue or a sign that looks along a line strikes nothing that it didn't strike before, if nothing went
    // of the line's squares since then.
    ghost looks_along: { (p : Self) (c d : CandidatesValue) (reason : Reason) (cell value line : ℕ)
        → c.size ≡ (puzzle p).size
        → line < 2 * c.size → LooksAlong c.size line reason cell → StaysOn line c d
        → own p d reason cell value → own p c reason cell value };

    // A clue or a sign that strikes a value from candidates strikes it from fewer.
    ghost own_less: { (p : Self) (c d : CandidatesValue) (reason : Reason) (cell value : ℕ) → IsFewer c d
        → own p c reason cell value → own p d reason cell value };

    // A clue or a sign that strikes looks along a line, and what it strikes is in no solution within the candidates.
    ghost stands_along: { (p : Self) (c : CandidatesValue) (reason : Reason) (cell value : ℕ) → valid p
        → own p c reason cell value → StandsAlong (puzzle p).size reason cell };

    ghost own_sound: { (p : Self) (c : CandidatesValue) (reason : Reason) (cell value : ℕ) (g : GridValue) → valid p
        → c.size ≡ (puzzle p).size → Solves (puzzle p) g → IsWithin c g
        → own p c reason cell value → number_at g cell ≢ value };
}
