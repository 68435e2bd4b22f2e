//! The aim of a hint: a square left nothing or a number, by the least grade whose steps lead to one.
ghost use Rattle.line_steps.specs.Reasons.{StruckBy};
ghost use Rattle.std.specs.Prelude.{◌≡◌, MatchOption};
ghost use Rattle.step_chains.specs.declared.aims.Aim.TheVariants.{Number, Nothing};
ghost use Rattle.step_chains.specs.Inner.Views.{seen};
ghost use Rattle.step_chains.specs.Inner.Aims.{LeadNowhere, IsLeastAim, AreLeftBy, IsOver, IsLeftNothing};

use crate::aims::{Aim, first_empty};
use crate::goals::shown_goal;
use crate::view::copy_of;
use latin_board::Grid;
use named_steps::{Goal, Grade, Steps, settle};
use trail_solver::{Candidates, Rules};

/// An aim to which the steps of a grade lead, while those of no grade below lead to one of its kind.
#[derive(Clone, Copy, Debug)]
pub(crate) struct LeastAim {
    pub(crate) grade: Grade,
    pub(crate) aim: Aim,
}

/// The first square that the steps of the least grade leave nothing, where any steps leave a square nothing; otherwise the first number
/// of an empty square that the steps of the least grade show, where any do. Each grade goes on from what the one below it leaves, which is
/// on the stack only here, and not while a chain is searched.
#[inline(never)]
pub(crate) fn first_aim<P: Steps>(
    p: &P,
    grid: &Grid,
    view: &Candidates,
    cache: &mut P::Cache,
) -> Option<LeastAim>
    requires grid { grid.now.size ≡ (P.puzzle p.now).size }
    requires view { view.now.size ≡ grid.now.size }
    ensures { MatchOption result (LeadNowhere (StruckBy P.puzzle P.own p.now) (seen grid.now view.now)) (IsLeastAim (StruckBy P.puzzle P.own p.now) (seen grid.now view.now)) }
{
    let mut settled = copy_of(grid, view);
    if let Some(cell) = go_on(p, Grade::Latin, grid, view, &mut settled, cache) {
        return Some(emptied(Grade::Latin, cell));
    }
    let by_latin = shown_goal(&settled, grid);
    if let Some(cell) = go_on(p, Grade::Easy, grid, view, &mut settled, cache) {
        return Some(emptied(Grade::Easy, cell));
    }
    let by_easy = shown_goal(&settled, grid);
    if let Some(cell) = go_on(p, Grade::Hard, grid, view, &mut settled, cache) {
        return Some(emptied(Grade::Hard, cell));
    }
    match (by_latin, by_easy, shown_goal(&settled, grid)) {
        (Some(goal), _, _) => Some(shown(Grade::Latin, goal)),
        (None, Some(goal), _) => Some(shown(Grade::Easy, goal)),
        (None, None, Some(goal)) => Some(shown(Grade::Hard, goal)),
        (None, None, None) => None,
    }
}

// Takes away what the steps of a grade strike of what steps up to it leave, and tells the first square that is left nothing, if one is.
fn go_on<P: Steps>(
    p: &P,
    grade: Grade,
    grid: &Grid,
    view: &Candidates,
    settled: &mut Candidates,
    cache: &mut P::Cache,
) -> Option<usize>
    requires size { grid.now.size ≡ (P.puzzle p.now).size }
    requires from { AreLeftBy (StruckBy P.puzzle P.own p.now) grade (seen grid.now view.now) settled.old }
    ensures left { AreLeftBy (StruckBy P.puzzle P.own p.now) grade (seen grid.now view.now) settled.new }
    ensures over { MatchOption result (IsOver (StruckBy P.puzzle P.own p.now) grade (seen grid.now view.now) settled.new) (IsLeftNothing settled.new) }
{
    settle(p, grade, settled, cache);
    first_empty(settled)
}

// The square, left nothing by the steps of a grade.
fn emptied(grade: Grade, cell: usize) -> LeastAim
    ensures grade { result.grade ≡ grade }
    ensures aim { result.aim ≡ Nothing cell }
{
    LeastAim {
        grade,
        aim: Aim::Nothing { cell },
    }
}

// The number, shown by the steps of a grade.
fn shown(grade: Grade, goal: Goal) -> LeastAim
    ensures grade { result.grade ≡ grade }
    ensures aim { result.aim ≡ Number goal }
{
    LeastAim {
        grade,
        aim: Aim::Number(goal),
    }
}
