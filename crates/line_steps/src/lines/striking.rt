//! Values taken away from a square.
ghost use Rattle.std.specs.Prelude.{◌*◌, ◌<◌};
ghost use Rattle.line_steps.specs.Takes.{Strikes};

use number_sets::NumberSet;
use trail_solver::Candidates;

/// Takes away those values of a set that are left of a square.
pub fn strike(candidates: &mut Candidates, cell: usize, values: NumberSet)
    requires { cell < candidates.old.size * candidates.old.size }
    ensures { Strikes candidates.old candidates.new cell values }
{
    let _size = candidates.size();
    let set = candidates.values(cell).intersection(values);
    candidates.remove_all(cell, set);
}
