//! Clues that give a square its number by themselves: a clue 1, and a clue that is the size. Everybody fills these in first.
//! Nothing here ensures anything: `short_chain` follows the step before it is told.

use crate::aims::{Aim, Aimed};
use crate::chain::Step;
use crate::needs::left;
use latin_board::{Grid, OutOfMemory};
use line_steps::view_cell;
use named_steps::{Goal, Reason, Steps};
use number_sets::NumberSet;
use std::alloc::Global;
use trail_solver::{Candidates, Rules};

/// The step of such a clue whose square is open, and the number that it shows; of a clue 1 before others.
#[inline(never)]
pub(crate) fn step_of_clue<P: Steps>(
    alloc: Global,
    p: &P,
    grid: &Grid,
    view: &Candidates,
    cache: &mut P::Cache,
) -> Result<Option<Aimed>, OutOfMemory> {
    let one = first_alone(p, grid, view, true, cache);
    let found = if one.is_some() {
        one
    } else {
        first_alone(p, grid, view, false, cache)
    };
    let Some(step) = found else {
        return Ok(None);
    };
    let cell = step.cell as usize;
    let Some(value) = left(view, cell).difference(step.values).single() else {
        return Ok(None);
    };
    let mut steps = Vec::new(alloc);
    steps.push(step)?;
    let aim = Aim::Number(Goal::OnlyValue { cell, value });
    Ok(Some(Aimed { steps, aim }))
}

// The first open square that a clue alone gives its number, from the clues on: by a clue 1, or by any.
fn first_alone<P: Steps>(
    p: &P,
    grid: &Grid,
    view: &Candidates,
    is_one: bool,
    cache: &mut P::Cache,
) -> Option<Step> {
    let width = view.size().get() as usize;
    let squares = if is_one { 1 } else { width };
    for index in 0..squares {
        for place in 0..4 * width {
            let least = if is_one { width } else { 1 };
            let found = alone_at(p, grid, view, place, index, least, cache);
            if found.is_some() {
                return found;
            }
        }
    }
    None
}

// The step of the clue at a place in the square at an index from it, if the square is open and the clue alone leaves any square there one
// number, of this size at least.
fn alone_at<P: Steps>(
    p: &P,
    grid: &Grid,
    view: &Candidates,
    place: usize,
    index: usize,
    least: usize,
    cache: &mut P::Cache,
) -> Option<Step> {
    let size = view.size();
    let width = size.get();
    if p.size() != size || grid.size() != size {
        return None;
    }
    if place >= 4 * width as usize || index >= width as usize {
        return None;
    }
    let cell = view_cell(size, place as u8, index);
    if grid.get(cell) != 0 {
        return None;
    }
    let struck = p.strikes(view, Reason::Bound { place }, cell, cache);
    let value = NumberSet::up_to(width).difference(struck).single()?;
    let here = left(view, cell);
    let values = here.intersection(struck);
    if (value as usize) < least || !here.has(value) || values.is_empty() {
        return None;
    }
    Some(Step {
        reason: Reason::Bound { place },
        cell: cell as u8,
        values,
    })
}
