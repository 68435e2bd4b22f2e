//! The clues of Towers and the signs of Unequal, each with whether it is an error.

ghost use Rattle.std.specs.Prelude.{◌≡◌, ◌*◌, ◌<◌, ◌∷◌, [], codes, nat_lt, OnOk};
ghost use Rattle.serde_json.specs.Data.{boolean};
ghost use Rattle.board_checks.specs.Errors.{has_broken};
ghost use Rattle.towers_game.specs.Towers.{clue_of};
ghost use Rattle.json_replies.specs.Boards.{when};
ghost use Rattle.json_replies.specs.ClueLists.{clue_data, clues_data, sign_data, later_sign, signs_at, signs_data};
ghost use Rattle.json_replies.specs.WrittenData.{Follow};
ghost use Rattle.json_replies.specs.Inner.WrittenData.{MembersFollow};

use crate::written::{
    Each, square_count, write_flag_at, write_number_at, write_place_at, write_range, write_squares,
};
use board_checks::{BoardErrors, Spot};
use json::Writer;
use latin_board::Board;
use std::alloc::AllocError;
use towers_game::Towers;
use trail_solver::Rules;
use unequal_game::Unequal;

/// Writes the clues that the puzzle has, in the order of descriptions.
pub(crate) fn write_clue_list(
    writer: &mut Writer,
    puzzle: &Towers,
    board: &Board,
    errors: &BoardErrors,
) -> Result<(), AllocError>
    requires { board.now.size ≡ puzzle.now.size }
    ensures { OnOk result (Follow (clues_data puzzle.now board.now errors.now ∷ []) writer.old writer.new) }
{
    let count = 4 * usize::from(puzzle.size().get());
    let clues = Clues {
        puzzle,
        board,
        errors,
    };
    write_range(writer, 0, count, &clues)
}

// The clues of a puzzle, by their places.
#[derive(Drop)]
struct Clues<'a> {
    puzzle: &'a Towers,
    board: &'a Board,
    errors: &'a BoardErrors,
}

impl<'a> Each for Clues<'a> {
    ghost asks = { λ of place. (of.board.now.size ≡ of.puzzle.now.size) × (place < 4 * of.puzzle.now.size) };

    ghost tells = { λ of place.
        when (nat_lt 0 (clue_of of.puzzle.now place)) (clue_data of.puzzle.now of.board.now of.errors.now place) };

    #[tactic(auto, using(crate::proofs::WrittenData::none_follow))]
    fn write(&self, writer: &mut Writer, place: usize) -> Result<(), AllocError> {
        let place = place as u8;
        if self.puzzle.clue(place) > 0 {
            write_clue(writer, self, place)?;
        }
        Ok(())
    }
}

// Writes the clue at a place.
fn write_clue(writer: &mut Writer, of: &Clues<'_>, place: u8) -> Result<(), AllocError>
    requires size { of.now.board.now.size ≡ of.now.puzzle.now.size }
    requires place { place < 4 * of.now.puzzle.now.size }
    ensures { OnOk result
        (Follow (clue_data of.now.puzzle.now of.now.board.now of.now.errors.now place ∷ []) writer.old writer.new) }
{
    writer.begin_object()?;
    write_number_at(writer, "clue", Some(usize::from(of.puzzle.clue(place))))?;
    write_flag_at(writer, "done", of.board.done(place))?;
    write_error_at(writer, of.errors, Spot::Edge { place })?;
    write_place_at(writer, of.puzzle.size(), Some(place))?;
    writer.end_object()?;
    Ok(())
}

/// Writes the signs that the puzzle has, square by square.
pub(crate) fn write_sign_list(
    writer: &mut Writer,
    puzzle: &Unequal,
    errors: &BoardErrors,
) -> Result<(), AllocError>
    ensures { OnOk result (Follow (signs_data puzzle.now errors.now ∷ []) writer.old writer.new) }
{
    write_squares(writer, puzzle.size(), &Signs { puzzle, errors })
}

// The signs of a square to its right and below it.
#[derive(Drop)]
struct Signs<'a> {
    puzzle: &'a Unequal,
    errors: &'a BoardErrors,
}

impl<'a> Each for Signs<'a> {
    ghost asks = { λ of cell. cell < of.puzzle.now.size * of.puzzle.now.size };

    ghost tells = { λ of cell. signs_at of.puzzle.now of.errors.now cell };

    #[tactic(auto, using(crate::proofs::WrittenData::more_follow))]
    fn write(&self, writer: &mut Writer, cell: usize) -> Result<(), AllocError> {
        let width = usize::from(self.puzzle.size().get());
        write_later_sign(writer, self, Spot::RightOf { cell }, cell, cell + 1)?;
        write_later_sign(writer, self, Spot::Below { cell }, cell, cell + width)?;
        Ok(())
    }
}

// Writes the sign between a square and a later one, where there is one, with its error at this spot.
#[tactic(auto, using(crate::proofs::WrittenData::none_follow))]
fn write_later_sign(
    writer: &mut Writer,
    of: &Signs<'_>,
    spot: Spot,
    first: usize,
    second: usize,
) -> Result<(), AllocError>
    requires { first < of.now.puzzle.now.size * of.now.puzzle.now.size }
    ensures { OnOk result (Follow (later_sign of.now.puzzle.now (has_broken of.now.errors.now spot) first second)
        writer.old writer.new) }
{
    if second >= square_count(of.puzzle.size()) {
        return Ok(());
    }
    if of.puzzle.greater(first, second) {
        write_sign(writer, of.errors, spot, first, second)?;
    } else if of.puzzle.greater(second, first) {
        write_sign(writer, of.errors, spot, second, first)?;
    }
    Ok(())
}

// Writes a sign by its squares.
fn write_sign(
    writer: &mut Writer,
    errors: &BoardErrors,
    spot: Spot,
    greater: usize,
    less: usize,
) -> Result<(), AllocError>
    ensures { OnOk result (Follow (sign_data (has_broken errors.now spot) greater less ∷ []) writer.old writer.new) }
{
    writer.begin_object()?;
    write_error_at(writer, errors, spot)?;
    write_number_at(writer, "greater", Some(greater))?;
    write_number_at(writer, "less", Some(less))?;
    writer.end_object()?;
    Ok(())
}

// Writes whether there is an error at a spot, as a member.
fn write_error_at(writer: &mut Writer, errors: &BoardErrors, spot: Spot) -> Result<(), AllocError>
    ensures { OnOk result
        (MembersFollow ((codes "error", boolean (has_broken errors.now spot)) ∷ []) writer.old writer.new) }
{
    write_flag_at(writer, "error", errors.is_broken(spot))
}
