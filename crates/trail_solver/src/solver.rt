//! How many solutions a puzzle has, and whether it has another than a known one.
ghost use Rattle.std.specs.Prelude.{◌≡◌};
ghost use Rattle.std.specs.Bool.{OnFalse, OnTrue};
ghost use Rattle.trail_solver.specs.Puzzles.{Solves};
ghost use Rattle.trail_solver.specs.Answers.{Fits};
ghost use Rattle.trail_solver.specs.Solutions.{HasNoOtherWithin, HasOtherWithin};

use crate::answer::Answer;
use crate::candidates::Candidates;
use crate::rules::Rules;
use crate::search::Search;
use latin_board::Grid;

/// How many solutions the puzzle has, with the only one or with two of them. It takes no memory.
pub fn solve<P: Rules>(p: &P) -> Answer
    ensures { Fits (Solves (P.puzzle p.now)) result }
{
    let mut search = Search::among(p, Candidates::all(p.size()));
    search.settled_answer()
}

/// Whether a solution of the puzzle within the candidates is another grid than the known one, which need not be a solution;
/// the candidates have the puzzle's size. It ends at the first one, and takes no memory.
#[tactic(auto, using(crate::proofs::AmongCandidates::other_among))]
pub fn has_other<P: Rules>(p: &P, candidates: Candidates, known: &Grid) -> bool
    requires { candidates.size ≡ (P.puzzle p.now).size }
    ensures other { OnTrue result (HasOtherWithin (P.puzzle p.now) candidates known.now) }
    ensures none { OnFalse result (HasNoOtherWithin (P.puzzle p.now) candidates known.now) }
{
    let mut search = Search::among(p, candidates);
    match search.settled_answer_with(&Answer::One(*known)) {
        Answer::None => false,
        Answer::One(_) => false,
        Answer::Several(_, _) => true,
    }
}
