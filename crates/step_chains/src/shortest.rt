//! The chain that costs least of those that the aims of a first chain need.
ghost use Rattle.line_steps.specs.Reasons.{StruckBy};
ghost use Rattle.std.specs.Prelude.{◌≡◌, ◌*◌, IfOk, IfSome};
ghost use Rattle.std.specs.Bool.{OnTrue};
ghost use Rattle.named_steps.specs.Chains.{IsTight, Shows};
ghost use Rattle.step_chains.specs.ChainValues.{steps_of, AreAllNeeded};
ghost use Rattle.step_chains.specs.Inner.FromEachView.{AreNeededFrom, IsTimelyFrom};
ghost use Rattle.step_chains.specs.Inner.Views.{seen};
ghost use Rattle.step_chains.specs.Inner.Aims.{IsAimOf, IsReached, aim_goal};
ghost use Rattle.step_chains.specs.Inner.Replays.{AreTimely};

use crate::aims::{Aim, Aimed};
use crate::chain::Step;
use crate::clues_alone::step_of_clue;
use crate::cutting::cut;
use crate::goals::{shown_in_place, shown_in_square};
use crate::joining::joined;
use crate::kinds::Sought;
use crate::layers::Rounds;
use crate::needs::{left, squares_of};
use crate::replays::{are_timely, come_to};
use crate::slices::{gathered, slice};
use crate::tightening::tighten;
use crate::view::copy_of;
use arrayvec::ArrayVec;
use latin_board::{Grid, OutOfMemory};
use named_steps::{Goal, Grade, Reason, Steps};
use std::alloc::Global;
use trail_solver::{Candidates, Rules};

/// Steps of the grade that lead from what is in view of the grid to what is sought, and rather few, if they are found. None of them
/// can be left out.
#[inline(never)]
pub(crate) fn short_chain<P: Steps>(
    alloc: Global,
    p: &P,
    grid: &Grid,
    view: &Candidates,
    grade: Grade,
    sought: Sought,
    cache: &mut P::Cache,
) -> Result<Option<Aimed>, OutOfMemory>
    requires { view.now.size ≡ grid.now.size }
    ensures reached { IfOk result (λ found. IfSome found (λ a. IsAimOf grid.now.size a.aim
        × IsReached (StruckBy P.puzzle P.own p.now) grade (seen grid.now view.now) (steps_of a.steps.items) (aim_goal a.aim))) }
    ensures timely { IfOk result (λ found. IfSome found (λ a. IsTimelyFrom (seen grid.now view.now) (steps_of a.steps.items))) }
    ensures needed { IfOk result (λ found. IfSome found
        (λ a. AreNeededFrom (StruckBy P.puzzle P.own p.now) grade (seen grid.now view.now) (steps_of a.steps.items) (aim_goal a.aim))) }
{
    if matches!((grade, sought), (Grade::Easy, Sought::NumberShown)) {
        if let Some(mut first) = step_of_clue(alloc, p, grid, view, cache)? {
            if shorten_from_view(p, grid, view, grade, &mut first.steps, first.aim, cache) {
                return Ok(Some(first));
            }
        }
    }
    let Some(found) = least_chain(alloc, p, grid, view, grade, sought, cache)? else {
        return Ok(None);
    };
    let mut found = ended(alloc, p, grid, view, grade, found, cache)?;
    if !shorten_from_view(p, grid, view, grade, &mut found.steps, found.aim, cache) {
        return Ok(None);
    }
    Ok(Some(found))
}

// The chain up to where any square is left nothing, and with no reason at two places where one is enough.
#[inline(never)]
fn ended<P: Steps>(
    alloc: Global,
    p: &P,
    grid: &Grid,
    view: &Candidates,
    grade: Grade,
    found: Aimed,
    cache: &mut P::Cache,
) -> Result<Aimed, OutOfMemory>
    requires { view.now.size ≡ grid.now.size }
{
    if found.steps.is_empty() {
        return Ok(found);
    }
    let mut left = copy_of(grid, view);
    let Aimed { steps, aim } = cut(&mut left, found);
    let steps = joined(alloc, p, grade, &mut left, steps, aim, cache)?;
    Ok(cut(&mut left, Aimed { steps, aim }))
}

// The same as `shorten` from what is in view of the grid.
#[inline(never)]
fn shorten_from_view<P: Steps>(
    p: &P,
    grid: &Grid,
    view: &Candidates,
    grade: Grade,
    steps: &mut Vec<Step>,
    aim: Aim,
    cache: &mut P::Cache,
) -> bool
    requires { view.now.size ≡ grid.now.size }
    ensures reached { OnTrue result (IsAimOf grid.now.size aim
        × IsReached (StruckBy P.puzzle P.own p.now) grade (seen grid.now view.now) (steps_of steps.new.items) (aim_goal aim)) }
    ensures timely { OnTrue result (IsTimelyFrom (seen grid.now view.now) (steps_of steps.new.items)) }
    ensures needed { OnTrue result
        (AreNeededFrom (StruckBy P.puzzle P.own p.now) grade (seen grid.now view.now) (steps_of steps.new.items) (aim_goal aim)) }
{
    let mut left = copy_of(grid, view);
    shorten(p, grade, &mut left, steps, aim, cache)
}

// Leaves out what can be left out, where the steps come to the aim; and tells whether they do.
#[inline(never)]
fn shorten<P: Steps>(
    p: &P,
    grade: Grade,
    candidates: &mut Candidates,
    steps: &mut Vec<Step>,
    aim: Aim,
    cache: &mut P::Cache,
) -> bool
    ensures same { candidates.new ≡ candidates.old }
    ensures of { OnTrue result (IsAimOf candidates.old.size aim) }
    ensures shows { OnTrue result
        (Shows (StruckBy P.puzzle P.own p.now) grade candidates.old (steps_of steps.new.items) (aim_goal aim)) }
    ensures tight { OnTrue result
        (IsTight (StruckBy P.puzzle P.own p.now) grade candidates.old (steps_of steps.new.items) (aim_goal aim)) }
    ensures timely { OnTrue result (AreTimely candidates.old (steps_of steps.new.items)) }
    ensures needed { OnTrue result
        (AreAllNeeded (StruckBy P.puzzle P.own p.now) grade candidates.old (steps_of steps.new.items) (aim_goal aim)) }
{
    let size = candidates.size();
    if p.size() != size || !aim.is_of(size) || !are_timely(candidates, steps.as_slice()) {
        return false;
    }
    if !come_to(p, grade, candidates, steps.as_slice(), aim, cache) {
        return false;
    }
    tighten(p, grade, candidates, steps, aim, cache);
    true
}

// The chain that costs least of those that the aims of the first rounds need. Nothing from here on ensures anything: `short_chain` follows
// the chain that comes of it step by step.
#[inline(never)]
fn least_chain<P: Steps>(
    alloc: Global,
    p: &P,
    grid: &Grid,
    view: &Candidates,
    grade: Grade,
    sought: Sought,
    cache: &mut P::Cache,
) -> Result<Option<Aimed>, OutOfMemory>
    requires { view.now.size ≡ grid.now.size }
{
    let mut least = Least {
        chain: None,
        cost: usize::MAX,
    };
    for is_at_once in [false, true] {
        if !is_at_once || least.is_worth_another() {
            let mut rounds = Rounds::of(alloc, copy_of(grid, view), sought, is_at_once, cache);
            rounds.go_through(p, grid, grade)?;
            least.try_all(alloc, p, grid, sought, &mut rounds)?;
        }
    }
    Ok(least.chain)
}

// The chains to so many squares that are left nothing are compared at most: each takes time, and the first mostly serves.
const MOST_SQUARES: usize = 3;

// A chain of more steps takes so long to find that it isn't compared with others.
const LONG: usize = 50;

// From so many looks on, and up to so many steps, a chain is sought once more.
const SEVERAL: usize = 3;

const MANY: usize = 30;

// The first squares that are left nothing.
fn squares_emptied(alloc: Global, candidates: &Candidates) -> Result<Vec<Aim>, OutOfMemory> {
    let width = candidates.size().get() as usize;
    let mut aims = Vec::new(alloc);
    for cell in 0..width * width {
        if aims.len() < MOST_SQUARES && left(candidates, cell).is_empty() {
            aims.push(Aim::Nothing { cell })?;
        }
    }
    Ok(aims)
}

// The numbers of empty squares that candidates show: first the only values of squares, that of a last free square before others, and then the only places of rows and columns.
#[inline(never)]
fn numbers_shown(
    alloc: Global,
    grid: &Grid,
    candidates: &Candidates,
) -> Result<Vec<Aim>, OutOfMemory> {
    let mut aims = Vec::new(alloc);
    list_values(grid, candidates, &mut aims)?;
    put_last_free_first(grid, aims.as_mut_slice());
    for line in 0..2 * grid.size().get() {
        list_places(grid, candidates, line, &mut aims)?;
    }
    Ok(aims)
}

// Lists the only values of squares.
fn list_values(
    grid: &Grid,
    candidates: &Candidates,
    aims: &mut Vec<Aim>,
) -> Result<(), OutOfMemory> {
    let width = grid.size().get() as usize;
    if candidates.size() != grid.size() {
        return Ok(());
    }
    for cell in 0..width * width {
        if let Some(goal) = shown_in_square(candidates, grid, cell) {
            aims.push(Aim::Number(goal))?;
        }
    }
    Ok(())
}

// Puts first a number of a square that is the last free one of its row or column, if there is one.
fn put_last_free_first(grid: &Grid, aims: &mut [Aim]) {
    for at in 0..aims.len() {
        if let Aim::Number(Goal::OnlyValue { cell, .. }) = aims[at] {
            if is_last_free(grid, cell) {
                aims.swap(0, at);
                return;
            }
        }
    }
}

// Whether all other squares of the row or of the column have numbers.
fn is_last_free(grid: &Grid, cell: usize) -> bool {
    let size = grid.size();
    let width = size.get() as usize;
    let row = squares_of(size, cell / width);
    let column = squares_of(size, width + cell % width);
    free_of(grid, &row) == 1 || free_of(grid, &column) == 1
}

// How many of some squares have no number.
fn free_of(grid: &Grid, cells: &ArrayVec<u8, 9>) -> usize {
    let width = grid.size().get() as usize;
    let mut free = 0usize;
    for cell in cells.as_slice() {
        let cell = *cell as usize;
        if cell < width * width && grid.get(cell) == 0 {
            free = free.saturating_add(1);
        }
    }
    free
}

// Lists the only places of one row or column.
fn list_places(
    grid: &Grid,
    candidates: &Candidates,
    line: u8,
    aims: &mut Vec<Aim>,
) -> Result<(), OutOfMemory> {
    let size = grid.size();
    if candidates.size() != size || line >= 2 * size.get() {
        return Ok(());
    }
    for index in 0..size.get() {
        if let Some(goal) = shown_in_place(candidates, grid, line, index) {
            aims.push(Aim::Number(goal))?;
        }
    }
    Ok(())
}

// The chain that costs least so far, of those that aims need.
#[derive(Drop)]
struct Least {
    chain: Option<Aimed>,
    cost: usize,
}

impl Least {
    // Takes the chain that an aim of the rounds needs, where it costs less.
    #[inline(never)]
    fn try_all<P: Steps>(
        &mut self,
        alloc: Global,
        p: &P,
        grid: &Grid,
        sought: Sought,
        rounds: &mut Rounds<P>,
    ) -> Result<(), OutOfMemory> {
        let aims = match sought {
            Sought::NumberShown => numbers_shown(alloc, grid, &rounds.now)?,
            Sought::SquareEmptied => squares_emptied(alloc, &rounds.now)?,
        };
        rounds.give_back();
        for aim in aims.as_slice() {
            if !self.is_done() {
                self.try_aim(alloc, p, rounds, *aim)?;
            }
        }
        Ok(())
    }

    // Whether rounds in which no kind waits may lead to less: the chain has several looks, and isn't so long that another takes long.
    fn is_worth_another(&self) -> bool {
        match &self.chain {
            Some(chain) => {
                chain.steps.len() <= MANY && looks_in(chain.steps.as_slice()) >= SEVERAL
            }
            None => false,
        }
    }

    // Whether no other aim is to be tried: nothing costs less, or each takes long.
    fn is_done(&self) -> bool {
        match &self.chain {
            Some(chain) => chain.steps.is_empty() || chain.steps.len() > LONG,
            None => false,
        }
    }

    // Takes the chain that an aim needs, where it costs less.
    #[inline(never)]
    fn try_aim<P: Steps>(
        &mut self,
        alloc: Global,
        p: &P,
        rounds: &mut Rounds<P>,
        aim: Aim,
    ) -> Result<(), OutOfMemory> {
        let needed = slice(
            alloc,
            p,
            &mut rounds.now,
            rounds.steps.as_slice(),
            aim,
            rounds.cache,
        )?;
        let steps = gathered(alloc, p, &mut rounds.now, needed.as_slice(), rounds.cache)?;
        let cost = cost_of(p.size().get(), steps.as_slice());
        if cost < self.cost {
            self.cost = cost;
            self.chain = Some(Aimed { steps, aim });
        }
        Ok(())
    }
}

// How many looks a chain has.
fn looks_in(steps: &[Step]) -> usize {
    let mut looks = 0usize;
    for i in 0..steps.len() {
        if i == 0 || !steps[i].is_same_look(&steps[i - 1]) {
            looks = looks.saturating_add(1);
        }
    }
    looks
}

// The cost of a chain: first by its sentences, and then by how soon a learner meets the dearest of its looks,
// and then 1,000 for each look, more for the dearer kinds, and 1 for each value that is struck.
fn cost_of(width: u8, steps: &[Step]) -> usize {
    let mut cost: usize = 0;
    let mut sentences: usize = 0;
    let mut rank: usize = 0;
    for i in 0..steps.len() {
        let step = &steps[i];
        if i == 0 || !step.is_same_look(&steps[i - 1]) {
            cost = cost.saturating_add(weight(&step.reason));
        }
        if i == 0 || !is_one_sentence(&steps[i - 1], step) {
            sentences = sentences.saturating_add(1);
        }
        cost = cost.saturating_add(step.values.len() as usize);
        let here = rank_of(width, step);
        if here > rank {
            rank = here;
        }
    }
    cost.saturating_add(sentences.saturating_mul(1_000_000))
        .saturating_add(rank.saturating_mul(100_000))
}

// Whether a step is told in one sentence with the one before it: they have one reason, or both are signs or clues that strike the same one
// number.
fn is_one_sentence(before: &Step, step: &Step) -> bool {
    let are_alike = matches!(
        (before.reason, step.reason),
        (Reason::Bound { .. }, Reason::Bound { .. }) | (Reason::Sign { .. }, Reason::Sign { .. })
    );
    step.is_same_look(before)
        || (are_alike && step.values == before.values && step.values.is_single())
}

// How soon a learner meets the look of a step: a clue alone that leaves a square one number before all others.
fn rank_of(width: u8, step: &Step) -> usize {
    match step.reason {
        Reason::Bound { .. } if step.values.len().saturating_add(1) >= width as u32 => 0,
        Reason::Given { .. } | Reason::Bound { .. } | Reason::Sign { .. } => 1,
        Reason::Peer { .. } | Reason::Place { .. } | Reason::Stand { .. } => 2,
        Reason::Clue { .. } => 3,
        Reason::Set { .. } => 4,
    }
}

// How dear a look is.
fn weight(reason: &Reason) -> usize {
    match *reason {
        Reason::Given { .. } | Reason::Bound { .. } | Reason::Sign { .. } => 1000,
        Reason::Peer { .. } | Reason::Place { .. } | Reason::Stand { .. } => 2000,
        Reason::Clue { .. } => 3000,
        Reason::Set { .. } => 4000,
    }
}
