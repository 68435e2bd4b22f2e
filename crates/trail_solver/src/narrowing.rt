//! How candidates are narrowed at each step of a search.

ghost use Rattle.std.specs.Prelude.{◌≡◌, ◌*◌, ◌<◌};
ghost use Rattle.std.specs.Bool.{OnFalse};
ghost use Rattle.trail_solver.specs.Candidates.{IsEarlier};
ghost use Rattle.trail_solver.specs.Solutions.{HasNoSolutionWithin, KeepsSolutions};

use crate::candidates::Candidates;
use crate::crowds::narrow_by_pairings;
use crate::guessing::failures::Failures;
use crate::guessing::losses::Losses;
use crate::rules::Rules;

/// Removes candidates by the rules, where the cell alone lost some since that was done last; after some failures by the
/// pairings of a Latin square as well. False only where no solution was among them; the sizes are equal.
#[tactic(auto, using(crate::proofs::PairedSolutions::kept_then, crate::proofs::PairedSolutions::refuted_then))]
pub(crate) fn narrow_after<P: Rules>(
    p: &P,
    candidates: &mut Candidates,
    failures: &mut Failures,
    cell: usize,
) -> bool
    requires size { candidates.old.size ≡ (P.puzzle p.now).size }
    requires inside { cell < candidates.old.size * candidates.old.size }
    ensures less { IsEarlier candidates.old candidates.new }
    ensures keeps { KeepsSolutions (P.puzzle p.now) candidates.old candidates.new }
    ensures refutes { OnFalse result (HasNoSolutionWithin (P.puzzle p.now) candidates.old) }
{
    if !p.narrow_from(candidates, cell) {
        return false;
    }
    match failures.look_closer(candidates.trail_len()) {
        Some(since) => narrow_closer(p, candidates, since),
        None => true,
    }
}

// Narrows by the pairings that lost a pair since the trail was so long, and then by the rules if pairs went.
#[tactic(auto, using(crate::proofs::PairedSolutions::kept_then, crate::proofs::PairedSolutions::refuted_then))]
fn narrow_closer<P: Rules>(p: &P, candidates: &mut Candidates, since: usize) -> bool
    requires { candidates.old.size ≡ (P.puzzle p.now).size }
    ensures less { IsEarlier candidates.old candidates.new }
    ensures keeps { KeepsSolutions (P.puzzle p.now) candidates.old candidates.new }
    ensures refutes { OnFalse result (HasNoSolutionWithin (P.puzzle p.now) candidates.old) }
{
    let before = candidates.trail_len();
    if !pair_off(p, candidates, since) {
        return false;
    }
    if candidates.trail_len() == before {
        return true;
    }
    p.narrow(candidates)
}

// Narrows by the pairings alone, since each solution is a Latin square.
#[tactic(auto, using(crate::proofs::PairedSolutions::paired_keeps, crate::proofs::PairedSolutions::paired_refutes))]
fn pair_off<P: Rules>(p: &P, candidates: &mut Candidates, since: usize) -> bool
    requires { candidates.old.size ≡ (P.puzzle p.now).size }
    ensures less { IsEarlier candidates.old candidates.new }
    ensures keeps { KeepsSolutions (P.puzzle p.now) candidates.old candidates.new }
    ensures refutes { OnFalse result (HasNoSolutionWithin (P.puzzle p.now) candidates.old) }
{
    let losses = Losses::since(candidates, since);
    narrow_by_pairings(candidates, &losses)
}
