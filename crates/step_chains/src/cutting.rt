//! Where a contradiction ends.
//! Nothing here ensures anything: `short_chain` follows what comes of it step by step, and tells it only where it is a chain.

use crate::aims::{Aim, Aimed};
use crate::chain::Step;
use crate::needs::left;
use crate::replays::take;
use trail_solver::Candidates;

/// The steps up to the first that leaves its square nothing, which is then their aim; or all, if none does.
pub(crate) fn cut(candidates: &mut Candidates, found: Aimed) -> Aimed {
    let mark = candidates.mark();
    let emptied = emptied_first(candidates, found.steps.as_slice());
    if mark.len() <= candidates.trail_len() {
        candidates.give_back(mark);
    }
    let Some((end, cell)) = emptied else {
        return found;
    };
    let mut steps = found.steps;
    for _ in end..steps.len() {
        let _later = steps.pop();
    }
    Aimed {
        steps,
        aim: Aim::Nothing { cell },
    }
}

// How many steps there are up to the first that leaves its square nothing, and that square. The strikes of
// the steps up to there are taken away.
fn emptied_first(candidates: &mut Candidates, steps: &[Step]) -> Option<(usize, usize)> {
    for place in 0..steps.len() {
        let step = &steps[place];
        let cell = step.cell as usize;
        take(candidates, step);
        if left(candidates, cell).is_empty() {
            return Some((place + 1, cell));
        }
    }
    None
}
