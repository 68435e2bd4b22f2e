//! The strikes of givens, rows and columns, for the `narrow` of a game of another crate.

ghost use Rattle.std.specs.Prelude.{◌≡◌};
ghost use Rattle.std.specs.Bool.{OnFalse, OnTrue};
ghost use Rattle.trail_solver.specs.Candidates.{IsEarlier};
ghost use Rattle.trail_solver.specs.Solutions.{HasNoSolutionWithin, KeepsSolutions};
ghost use Rattle.line_steps.specs.Givens.{given_puzzle};
ghost use Rattle.line_steps.specs.Left.{IsLive};
ghost use Rattle.line_steps.specs.Struck.{IsNarrowed, NoneLeft};
ghost use Rattle.line_steps.specs.Reasons.{IsGivensStruckBy};

use crate::lines::line_pass::LinePass;
use crate::lines::settling::narrow_lines;
use latin_board::Grid;
use number_sets::NumberSet;
use trail_solver::Candidates;

// Givens, rows and columns alone: no clue and no sign strikes.
#[derive(Clone, Copy)]
struct GivensAlone<'a> {
    givens: &'a Grid,
}

impl<'a> LinePass for GivensAlone<'a> {
    ghost use Rattle.line_steps.specs.Givens.{given_puzzle};
    ghost use Rattle.line_steps.specs.Reasons.{NoneOwn};
    ghost use Rattle.line_steps.specs.declared.grade.Grade.TheVariants.{Hard};

    type Cache = ();

    ghost puzzle = { λ s. given_puzzle s.givens.now };

    ghost valid = { λ _. Unit {0} };

    ghost own = { λ _. NoneOwn };

    ghost grade = { λ _. Hard };

    fn given_at(&self, cell: usize) -> u8 {
        self.givens.get(cell)
    }

    fn strike_by_clues(
        &self,
        _candidates: &mut Candidates,
        _line: u8,
        _cache: &mut (),
    ) -> NumberSet {
        NumberSet::empty()
    }

    ghost looks_along = { λ s c d reason cell value line size low along stays h. absurd h };

    ghost own_less = { λ s c d reason cell value fewer h. absurd h };

    ghost stands_along = { λ s c reason cell value valid h. absurd h };

    ghost own_sound = { λ s c reason cell value g valid size solved within h. absurd h };
}

/// Takes away what the givens rule out, and then what rows and columns do, until they say no more. False only where no
/// solution was among the candidates; the sizes are equal.
///
/// It loses no Latin square with these givens that was within the candidates, so no solution of a puzzle that has them.
/// Where it answers true, no pair is left that a given rules out, or a row or column by the candidates at first or by those
/// that are left; and something is left of each square, and of each number in each row and column.
pub fn narrow_by_givens(candidates: &mut Candidates, givens: &Grid) -> bool
    requires { givens.now.size ≡ candidates.old.size }
    ensures less { IsEarlier candidates.old candidates.new }
    ensures keeps { KeepsSolutions (given_puzzle givens.now) candidates.old candidates.new }
    ensures refutes { OnFalse result
        (HasNoSolutionWithin (given_puzzle givens.now) candidates.old) }
    ensures struck { OnTrue result
        (NoneLeft (IsNarrowed (IsGivensStruckBy givens.now)) candidates.old candidates.new) }
    ensures settled { OnTrue result
        (NoneLeft (IsNarrowed (IsGivensStruckBy givens.now)) candidates.new candidates.new) }
    ensures live { OnTrue result (IsLive candidates.new) }
{
    narrow_lines(&GivensAlone { givens }, candidates, &mut ())
}
