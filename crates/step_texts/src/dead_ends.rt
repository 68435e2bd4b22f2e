//! Where a contradiction ends.
ghost use Rattle.std.specs.Prelude.{◌↔◌, IsTrue};
ghost use Rattle.step_texts.specs.DeadEnds.{HasNoSquare, IsDeadEnd};

use latin_board::line_cell;
use named_steps::Reason;
use step_chains::{Step, copied, take_all};
use trail_solver::Candidates;

/// Where a contradiction ends.
#[derive(Clone, Copy, PartialEq, Eq, Debug)]
pub enum DeadEnd {
    /// This square has no number left.
    Square { cell: usize },
    /// This row or column has no square left for a number.
    Line { line: usize, value: u8 },
}

/// Where steps from some candidates end that leave a square nothing: in the line of the last one, where that is of a number's place and the
/// number has no square left there, and otherwise in the square.
// A copy of the candidates is in this frame alone.
#[inline(never)]
pub fn dead_end(view: &Candidates, steps: &[Step], cell: usize) -> DeadEnd
    ensures { IsDeadEnd view.now steps.now cell result }
{
    if let Some(last) = steps.last() {
        if let Reason::Place { line, value, .. } = last.reason {
            let mut left = copied(view);
            take_all(&mut left, steps);
            if has_no_square(&left, line, value) {
                return DeadEnd::Line { line, value };
            }
        }
    }
    DeadEnd::Square { cell }
}

// Whether a number is left in no square of a row or column; not so of lines and numbers that the grid doesn't have.
fn has_no_square(left: &Candidates, line: usize, value: u8) -> bool
    ensures { IsTrue result ↔ HasNoSquare left.now line value }
{
    let size = left.size();
    let width = size.get();
    if line >= 2 * width as usize || value == 0 || value > width {
        return false;
    }
    for index in 0..width {
        if left.may(line_cell(size, line as u8, index), value) {
            return false;
        }
    }
    true
}
