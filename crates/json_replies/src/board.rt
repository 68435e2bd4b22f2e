//! The object of a board.

ghost use Rattle.std.specs.Prelude.{◌≡◌, ◌*◌, ◌<◌, ◌≤◌, ◌∷◌, [], OnOk};
ghost use Rattle.latin_board.specs.Boards.{marks_at};
ghost use Rattle.latin_board.specs.Squares.{number_at};
ghost use Rattle.number_sets.specs.Sets.{has_number};
ghost use Rattle.board_checks.specs.Errors.{has_repeated};
ghost use Rattle.json_replies.specs.Boards.{board_data, grid_data, mark_set_data, when};
ghost use Rattle.json_replies.specs.Counts.{count_data};
ghost use Rattle.json_replies.specs.WrittenData.{Follow};

use crate::shown::Shows;
use crate::written::{
    Each, write_flag_at, write_number, write_number_at, write_number_when, write_range,
    write_squares,
};
use board_checks::BoardErrors;
use json::Writer;
use latin_board::{Board, Grid, Marks};
use std::alloc::AllocError;
use trail_solver::Rules;

/// Writes the board, its puzzle's givens, its errors, and the clues and signs that its game has beside them.
pub(crate) fn write_board<P: Shows>(
    writer: &mut Writer,
    puzzle: &P,
    board: &Board,
    errors: &BoardErrors,
) -> Result<(), AllocError>
    requires { board.now.size ≡ (P.puzzle puzzle.now).size }
    ensures { OnOk result (Follow (board_data (P.puzzle puzzle.now) board.now errors.now
        (P.clues puzzle.now board.now errors.now) (P.signs puzzle.now board.now errors.now) ∷ [])
        writer.old writer.new) }
{
    let size = board.size();
    writer.begin_object()?;
    write_flag_at(writer, "cheated", board.cheated())?;
    writer.key("clues")?;
    puzzle.write_clues(writer, board, errors)?;
    write_flag_at(writer, "completed", board.completed())?;
    writer.key("errors")?;
    write_squares(writer, size, &Repeats(errors))?;
    writer.key("givens")?;
    write_squares(writer, puzzle.size(), &Givens(puzzle))?;
    writer.key("marks")?;
    write_squares(writer, size, &MarkSets(board))?;
    writer.key("numbers")?;
    write_grid(writer, board.grid())?;
    writer.key("signs")?;
    puzzle.write_signs(writer, board, errors)?;
    write_number_at(writer, "size", Some(usize::from(size.get())))?;
    writer.end_object()?;
    Ok(())
}

/// Writes the number of each square, 0 where it is blank.
pub(crate) fn write_grid(writer: &mut Writer, grid: &Grid) -> Result<(), AllocError>
    ensures { OnOk result (Follow (grid_data grid.now ∷ []) writer.old writer.new) }
{
    write_squares(writer, grid.size(), &Numbers(grid))
}

// The number of each square.
#[derive(Drop)]
struct Numbers<'a>(&'a Grid);

impl<'a> Each for Numbers<'a> {
    ghost asks = { λ of cell. cell < of.0.now.size * of.0.now.size };

    ghost tells = { λ of cell. count_data (number_at of.0.now cell) ∷ [] };

    fn write(&self, writer: &mut Writer, cell: usize) -> Result<(), AllocError> {
        write_number(writer, usize::from(self.0.get(cell)))
    }
}

// The given number of each square, 0 where there is none.
#[derive(Drop)]
struct Givens<'a, P>(&'a P);

impl<'a, P: Rules> Each for Givens<'a, P> {
    ghost asks = { λ of cell. cell < (P.puzzle of.0.now).size * (P.puzzle of.0.now).size };

    ghost tells = { λ of cell. count_data ((P.puzzle of.0.now).given cell) ∷ [] };

    fn write(&self, writer: &mut Writer, cell: usize) -> Result<(), AllocError> {
        write_number(writer, usize::from(self.0.given(cell)))
    }
}

// The pencil marks of each square.
#[derive(Drop)]
struct MarkSets<'a>(&'a Board);

impl<'a> Each for MarkSets<'a> {
    ghost asks = { λ of cell. cell < of.0.now.size * of.0.now.size };

    ghost tells = { λ of cell. mark_set_data (marks_at of.0.now cell) ∷ [] };

    fn write(&self, writer: &mut Writer, cell: usize) -> Result<(), AllocError> {
        write_range(writer, 1, 9, &self.0.marks(cell))
    }
}

impl Each for Marks {
    ghost asks = { λ _ n. (1 ≤ n) × (n ≤ 9) };

    ghost tells = { λ set n. when (has_number set n) (count_data n) };

    fn write(&self, writer: &mut Writer, n: usize) -> Result<(), AllocError> {
        write_number_when(writer, self.has(n as u8), n)
    }
}

// The squares whose number stands again in its row or column.
#[derive(Drop)]
struct Repeats<'a>(&'a BoardErrors);

impl<'a> Each for Repeats<'a> {
    ghost asks = { λ _ cell. Unit {0} };

    ghost tells = { λ of cell. when (has_repeated of.0.now cell) (count_data cell) };

    fn write(&self, writer: &mut Writer, cell: usize) -> Result<(), AllocError> {
        write_number_when(writer, self.0.is_repeated(cell), cell)
    }
}
