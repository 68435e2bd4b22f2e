//! Where a search had best branch: at the square whose guess failed last, while that is open; otherwise at a square with few
//! candidates, or at a value with few places in a row or column, and rather where the search failed before. This is a rule
//! of thumb, and no answer rests on it: the last conflict (Lecoutre, Sais, Tabary and Vidal, 2009), and then the weighted
//! degree, dom/wdeg (Boussemart, Hemery, Lecoutre and Sais, 2004). It takes what has the least domain size, the ways to go
//! on, over its weighted degree, the failures of its lines and of its square.

ghost use Rattle.std.specs.Prelude.{◌*◌, ◌<◌};

use crate::candidates::Candidates;
use crate::guessing::failures::Failures;
use crate::guessing::place_counts::PlaceCounts;
use latin_board::line_cell;
use number_sets::NumberSet;

/// The weight of a square or a value if nothing failed in its lines: so the first few failures change little.
const WEIGHT: u32 = 4;

/// How many times as much as a failure in a line one in the square itself weighs.
const SQUARE_WEIGHT: u32 = 8;

/// A square, the value to try there first, and how good it is to branch there: in how many ways it goes on, and how much
/// it weighs, more where its lines failed.
#[derive(Clone, Copy)]
pub(crate) struct Proposal {
    pub cell: usize,
    pub value: u8,
    ways: u32,
    weight: u32,
}

/// The square whose guess failed last, or the place to branch that has the fewest ways for its weight, if there is any.
pub(crate) fn best_proposal(candidates: &Candidates, failures: &Failures) -> Option<Proposal> {
    match last_conflict(candidates, failures) {
        Some(last) => Some(last),
        None => best_by_weight(candidates, failures),
    }
}

// The square whose guess failed last, while it is open.
fn last_conflict(candidates: &Candidates, failures: &Failures) -> Option<Proposal> {
    let width = candidates.size().get() as usize;
    let cell = failures.last_guess()?;
    if cell >= width * width {
        return None;
    }
    let set = candidates.values(cell);
    if set.len() < 2 {
        return None;
    }
    Some(Proposal {
        cell,
        value: greatest(set),
        ways: set.len(),
        weight: WEIGHT,
    })
}

// The place to branch that has the fewest ways for its weight, if there is any.
fn best_by_weight(candidates: &Candidates, failures: &Failures) -> Option<Proposal> {
    let width = candidates.size().get();
    let mut best = None;
    for row in 0..width {
        best = best_square(candidates, failures, row, best);
    }
    for line in 0..2 * width {
        best = best_value(candidates, failures, line, best);
    }
    best
}

// The best so far, or the best square of a row if that is better.
fn best_square(
    candidates: &Candidates,
    failures: &Failures,
    row: u8,
    best: Option<Proposal>,
) -> Option<Proposal>
    requires { row < candidates.now.size }
{
    let size = candidates.size();
    let width = size.get();
    let row_failures = failures.of_line(row);
    let mut best = best;
    for column in 0..width {
        let cell = line_cell(size, row, column);
        let set = candidates.values(cell);
        let ways = set.len();
        let line_failures = row_failures + failures.of_line(width + column);
        let weight = WEIGHT + line_failures + SQUARE_WEIGHT * failures.of_square(cell);
        if ways > 1 && is_better(best, ways, weight) {
            best = Some(Proposal {
                cell,
                value: greatest(set),
                ways,
                weight,
            });
        }
    }
    best
}

// The greatest value of a set: tall towers, and the ends of signs, say most.
fn greatest(set: NumberSet) -> u8 {
    set.greatest().unwrap_or(0)
}

// The best so far, or the value of a line with the fewest places if that is better.
fn best_value(
    candidates: &Candidates,
    failures: &Failures,
    line: u8,
    best: Option<Proposal>,
) -> Option<Proposal>
    requires { line < 2 * candidates.now.size }
{
    let weight = WEIGHT + 2 * failures.of_line(line);
    let Some((value, ways)) = counts_of(candidates, line).fewest() else {
        return best;
    };
    if !is_better(best, ways, weight) {
        return best;
    }
    let cell = first_place(candidates, line, value)?;
    Some(Proposal {
        cell,
        value,
        ways,
        weight,
    })
}

// Whether there is none yet, or this one has fewer ways for its weight.
fn is_better(best: Option<Proposal>, ways: u32, weight: u32) -> bool {
    match best {
        Some(best) => ways.saturating_mul(best.weight) < best.ways.saturating_mul(weight),
        None => true,
    }
}

// How many places each value has in a line.
fn counts_of(candidates: &Candidates, line: u8) -> PlaceCounts
    requires { line < 2 * candidates.now.size }
{
    let size = candidates.size();
    let mut counts = PlaceCounts::none();
    for place in 0..size.get() {
        counts = counts.with(candidates.values(line_cell(size, line, place)));
    }
    counts
}

// The first square of a line that may have a value.
fn first_place(candidates: &Candidates, line: u8, value: u8) -> Option<usize>
    requires { line < 2 * candidates.now.size }
{
    let size = candidates.size();
    for place in 0..size.get() {
        let cell = line_cell(size, line, place);
        if candidates.values(cell).has(value.min(15)) {
            return Some(cell);
        }
    }
    None
}
