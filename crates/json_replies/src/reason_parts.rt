//! The members of a step's object that tell its reason: its word, where it looks from, and what it speaks of.

ghost use Rattle.std.specs.Prelude.{◌≡◌, ◌*◌, ◌<◌, ◌∷◌, [], ℕ, Bool, OnOk, IfSome};
ghost use Rattle.number_sets.specs.Sets.{has_number};
ghost use Rattle.latin_board.specs.Lines.{line_cell};
ghost use Rattle.json_replies.specs.Boards.{when};
ghost use Rattle.json_replies.specs.Counts.{count_data};
ghost use Rattle.json_replies.specs.Reasons.{edge_at, ends_at, one_data, parts_of, place_data, squares_data};
ghost use Rattle.json_replies.specs.WrittenData.{Follow};
ghost use Rattle.json_replies.specs.Inner.WrittenData.{count_or_null};

use crate::written::{
    Each, write_null, write_number, write_number_when, write_numbers, write_range,
};
use json::Writer;
use latin_board::{Size, line_cell};
use named_steps::Reason;
use number_sets::NumberSet;
use std::alloc::AllocError;
use step_texts::StepNames;
use trail_solver::Rules;

/// The squares between which a sign stands, the greater one and the lesser one.
#[derive(Clone, Copy)]
pub(crate) struct Ends {
    pub(crate) greater: usize,
    pub(crate) less: usize,
}

/// The word for the kind of a reason.
pub(crate) fn word_of(reason: Reason) -> &'static str
    ensures { (w : ℕ) (is_over : ℕ → ℕ → Bool) → result.now ≡ (parts_of w is_over reason).word }
{
    match reason {
        Reason::Given { .. } => "given",
        Reason::Peer { .. } => "peer",
        Reason::Place { .. } => "place",
        Reason::Bound { .. } => "bound",
        Reason::Stand { .. } => "stand",
        Reason::Clue { .. } => "clue",
        Reason::Sign { .. } => "sign",
        Reason::Set { .. } => "set",
    }
}

/// The place of the clue that a reason looks from, if it does.
pub(crate) fn edge_of(size: Size, reason: Reason) -> Option<u8>
    ensures value { (is_over : ℕ → ℕ → Bool) → result ≡ (parts_of size is_over reason).edge }
    ensures inside { IfSome result (λ place. place < 4 * size) }
{
    match reason {
        Reason::Bound { place } => edge_at(size, place),
        Reason::Stand { place } => edge_at(size, place),
        Reason::Clue { place } => edge_at(size, place),
        _ => None,
    }
}

/// The squares of the sign that a reason looks along, if it does.
pub(crate) fn ends_of<P: StepNames>(p: &P, reason: Reason) -> Option<Ends>
    ensures { result ≡ (parts_of (P.Rules.puzzle p.now).size (P.says_greater_of p.now) reason).ends }
{
    match reason {
        Reason::Sign { from, to } => ends_at(p, from, to),
        _ => None,
    }
}

/// The row or column that a reason looks at, if it does.
pub(crate) fn line_of(reason: Reason) -> Option<usize>
    ensures { (w : ℕ) (is_over : ℕ → ℕ → Bool) → count_or_null result ≡ (parts_of w is_over reason).line }
{
    match reason {
        Reason::Place { line, .. } => Some(line),
        Reason::Set { line, .. } => Some(line),
        _ => None,
    }
}

/// Writes the squares that a reason rests on, but for a clue's line and a sign's squares.
pub(crate) fn write_cells_of(
    writer: &mut Writer,
    size: Size,
    reason: Reason,
) -> Result<(), AllocError>
    ensures { OnOk result ((is_over : ℕ → ℕ → Bool)
        → Follow ((parts_of size is_over reason).cells ∷ []) writer.old writer.new) }
{
    match reason {
        Reason::Given { cell } => write_one(writer, cell),
        Reason::Peer { cell } => write_one(writer, cell),
        Reason::Place { line, index, .. } => write_place(writer, size, line, index),
        Reason::Set { line, squares, .. } => write_squares(writer, size, line, squares),
        _ => write_null(writer),
    }
}

/// Writes the numbers that a reason speaks of.
pub(crate) fn write_numbers_of(writer: &mut Writer, reason: Reason) -> Result<(), AllocError>
    ensures { OnOk result ((w : ℕ) (is_over : ℕ → ℕ → Bool)
        → Follow ((parts_of w is_over reason).numbers ∷ []) writer.old writer.new) }
{
    match reason {
        Reason::Place { value, .. } => write_one(writer, usize::from(value)),
        Reason::Set { values, .. } => write_numbers(writer, values),
        _ => write_null(writer),
    }
}

// A place, if it is one of the edge's.
fn edge_at(size: Size, place: usize) -> Option<u8>
    ensures value { result ≡ edge_at size place }
    ensures inside { IfSome result (λ place. place < 4 * size) }
{
    if place < 4 * size.get() as usize {
        Some(place as u8)
    } else {
        None
    }
}

// The squares of the sign between two squares of the grid, if there is one.
fn ends_at<P: StepNames>(p: &P, first: usize, second: usize) -> Option<Ends>
    ensures { result ≡ ends_at (P.Rules.puzzle p.now).size (P.says_greater_of p.now) first second }
{
    let width = p.size().get() as usize;
    if first >= width * width || second >= width * width {
        return None;
    }
    if p.says_greater(first, second) {
        return Some(Ends {
            greater: first,
            less: second,
        });
    }
    if p.says_greater(second, first) {
        return Some(Ends {
            greater: second,
            less: first,
        });
    }
    None
}

// Writes the list of one number.
fn write_one(writer: &mut Writer, n: usize) -> Result<(), AllocError>
    ensures { OnOk result (Follow (one_data n ∷ []) writer.old writer.new) }
{
    writer.begin_array()?;
    write_number(writer, n)?;
    writer.end_array()?;
    Ok(())
}

// Writes the list of the square at a place of a line, if the grid has it.
fn write_place(writer: &mut Writer, size: Size, line: usize, index: usize) -> Result<(), AllocError>
    ensures { OnOk result (Follow (place_data size line index ∷ []) writer.old writer.new) }
{
    let width = size.get() as usize;
    if line >= 2 * width || index >= width {
        return write_null(writer);
    }
    write_one(writer, line_cell(size, line as u8, index as u8))
}

// Writes the squares at some places of a line, if the grid has it.
fn write_squares(
    writer: &mut Writer,
    size: Size,
    line: usize,
    places: NumberSet,
) -> Result<(), AllocError>
    ensures { OnOk result (Follow (squares_data size line places ∷ []) writer.old writer.new) }
{
    if line >= 2 * size.get() as usize {
        return write_null(writer);
    }
    let cells = LineCells {
        size,
        line: line as u8,
        places,
    };
    write_range(writer, 0, usize::from(size.get()), &cells)
}

// The squares at some places of a line of the grid.
#[derive(Drop)]
struct LineCells {
    size: Size,
    line: u8,
    places: NumberSet,
}

impl Each for LineCells {
    ghost asks = { λ of place. (of.line < 2 * of.size) × (place < of.size) };

    ghost tells = { λ of place. when (has_number of.places place) (count_data (line_cell of.size of.line place)) };

    fn write(&self, writer: &mut Writer, place: usize) -> Result<(), AllocError> {
        let _width = self.size.get();
        let place = place as u8;
        let cell = line_cell(self.size, self.line, place);
        write_number_when(writer, self.places.has(place), cell)
    }
}
