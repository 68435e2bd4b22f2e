//! A given that is denied.

ghost use Rattle.std.specs.Prelude.{◌≢◌, ◌*◌, ◌<◌, ◌≤◌};
ghost use Rattle.latin_board.specs.Squares.{number_at};
ghost use Rattle.trail_solver.specs.Candidates.{IsEarlier};
ghost use Rattle.line_steps.specs.Inner.Narrowing.{KeepsEach};

use trail_solver::Candidates;

/// Takes the given of a square from its candidates, if there is one.
#[tactic(auto, using(crate::proofs::GivenDenied::given_gone, crate::proofs::GivenDenied::given_less))]
pub fn deny_given(candidates: &mut Candidates, cell: usize, given: u8)
    requires cell { cell < candidates.old.size * candidates.old.size }
    requires given { given ≤ candidates.old.size }
    ensures less { IsEarlier candidates.old candidates.new }
    ensures keeps { KeepsEach (λ g. number_at g cell ≢ given) candidates.old candidates.new }
{
    if given == 0 {
        return;
    }
    candidates.remove(cell, given);
}
