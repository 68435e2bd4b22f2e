//! The candidates that a grade leaves.
ghost use Rattle.line_steps.specs.Reasons.{StruckBy};
ghost use Rattle.std.specs.Prelude.{◌≡◌};
ghost use Rattle.std.specs.Bool.{OnTrue, OnFalse};
ghost use Rattle.line_steps.specs.Left.{IsEmptied, IsLive};
ghost use Rattle.line_steps.specs.Chains.{LeadsTo};
ghost use Rattle.line_steps.specs.Settled.{IsSettled};

use crate::grade::Grade;
use crate::lines::settling::settle_lines;
use crate::steps::Steps;
use crate::steps::grade_pass::{GradePass, has_groups};
use trail_solver::{Candidates, Rules};

/// Takes away all that the reasons of a grade strike, one after another. It answers true where they strike nothing that is left any more:
/// something is left then of each square, and each number has a place in each row and column. It answers false as soon as they leave a
/// square nothing. If it answers true, the same is left in whatever order the reasons are taken. The sizes are equal. `cache` is used
/// and added to, and all that is taken away can be given back by a mark.
pub fn settle<P: Steps>(
    p: &P,
    grade: Grade,
    candidates: &mut Candidates,
    cache: &mut P::Cache,
) -> bool
    requires { candidates.old.size ≡ (P.puzzle p.now).size }
    ensures leads { LeadsTo (StruckBy P.puzzle P.own p.now) grade candidates.old candidates.new }
    ensures settled { OnTrue result (IsSettled (StruckBy P.puzzle P.own p.now) grade candidates.new) }
    ensures live { OnTrue result (IsLive candidates.new) }
    ensures emptied { OnFalse result (IsEmptied candidates.new) }
{
    let _size = candidates.size();
    let _valid = p.size();
    let pass = GradePass { p, grade };
    settle_lines(&pass, candidates, has_groups(grade), cache)
}
