//! The items that `spare` lists.

ghost use Rattle.line_steps.specs.Reasons.{StruckBy};
ghost use Rattle.std.specs.Prelude.{◌≡◌, ◌↔◌, ◌*◌, ◌<◌, ◌∷◌, [], ℕ, length, IfOk, IsTrue, OnOk};
ghost use Rattle.needed_items.specs.Needed.{IsSpare};
ghost use Rattle.json_replies.specs.Boards.{when};
ghost use Rattle.json_replies.specs.Counts.{count_data};
ghost use Rattle.json_replies.specs.ListedItems.{AreItemsListed, IsListing, Passes, listed_by};
ghost use Rattle.json_replies.specs.ListedItems.{place_data, ends_data, when_listed, items_data, sign_data, signs_at};
ghost use Rattle.json_replies.specs.WrittenData.{Follow};
ghost use Rattle.json_replies.specs.Inner.WrittenData.{FollowsWhere};

use crate::shown::Shows;
use crate::written::{
    Each, square_count, write_number_at, write_number_when, write_place_at, write_range,
    write_squares,
};
use fair_games::is_spare_by;
use json::Writer;
use latin_board::Size;
use named_steps::Grade;
use needed_items::{Items, is_blamed, is_spare};
use std::alloc::{AllocError, Global};
use trail_solver::{Answer, Rules};

/// By what items are listed.
#[derive(Drop)]
pub(crate) enum Listing {
    /// By the answer to how many solutions the puzzle has.
    ByAnswer(Answer),
    /// By a grade.
    ByGrade(Grade),
}

/// Writes the object of the items that are listed.
pub(crate) fn write_items<P: Shows>(
    alloc: Global,
    writer: &mut Writer,
    puzzle: &P,
    by: &Listing,
) -> Result<(), AllocError>
    requires { IsListing (P.puzzle puzzle.now) by.now }
    ensures { OnOk result (FollowsWhere (AreItemsListed ⟦<P as Rules>⟧ (StruckBy P.puzzle P.own) P.Items.own
        (P.says_greater_of puzzle.now) puzzle.now by.now) writer.old writer.new) }
{
    let listed = listed_items(alloc, puzzle, by)?;
    write_listed(writer, puzzle, listed.as_slice())?;
    Ok(())
}

// Writes the items of which a list has it that they are listed.
fn write_listed<P: Shows>(
    writer: &mut Writer,
    puzzle: &P,
    listed: &[bool],
) -> Result<(), AllocError>
    requires { length listed.now ≡ P.items_of (P.puzzle puzzle.now).size }
    ensures { OnOk result (Follow (items_data P.Items.own (P.says_greater_of puzzle.now) (P.puzzle puzzle.now).size
        (listed_by listed.now) ∷ []) writer.old writer.new) }
{
    let size = puzzle.size();
    writer.begin_object()?;
    writer.key("clues")?;
    write_range(
        writer,
        0,
        4 * usize::from(size.get()),
        &Clues { puzzle, listed },
    )?;
    writer.key("givens")?;
    write_squares(writer, size, &Givens { puzzle, listed })?;
    writer.key("signs")?;
    write_squares(writer, size, &Signs { puzzle, listed })?;
    writer.end_object()?;
    Ok(())
}

// For each item whether it is listed.
fn listed_items<P: Shows>(alloc: Global, puzzle: &P, by: &Listing) -> Result<Vec<bool>, AllocError>
    requires { IsListing (P.puzzle puzzle.now) by.now }
    ensures count { IfOk result (λ listed. length listed.items ≡ P.items_of (P.puzzle puzzle.now).size) }
    ensures listed { IfOk result (λ listed. (i : ℕ) → i < P.items_of (P.puzzle puzzle.now).size
        → IsTrue (listed_by listed.items i)
        ↔ IsSpare ⟦<P as Rules>⟧ (Passes ⟦<P as Rules>⟧ (StruckBy P.puzzle P.own) by.now) puzzle.now i) }
{
    let mut listed = Vec::new(alloc);
    for item in 0..P::item_count(puzzle.size()) {
        listed.push(is_listed(puzzle, by, item))?;
    }
    Ok(listed)
}

// Whether an item is listed.
#[inline(never)]
fn is_listed<P: Shows>(puzzle: &P, by: &Listing, item: usize) -> bool
    requires listing { IsListing (P.puzzle puzzle.now) by.now }
    requires inside { item < P.items_of (P.puzzle puzzle.now).size }
    ensures { IsTrue result
        ↔ IsSpare ⟦<P as Rules>⟧ (Passes ⟦<P as Rules>⟧ (StruckBy P.puzzle P.own) by.now) puzzle.now item }
{
    match by {
        Listing::ByAnswer(Answer::None) => is_blamed(puzzle, item),
        Listing::ByAnswer(Answer::One(grid)) => is_spare(puzzle, grid, item),
        Listing::ByAnswer(Answer::Several(_, _)) => false,
        Listing::ByGrade(grade) => is_spare_by(puzzle, *grade, item),
    }
}

// Whether a list has it that the item is listed.
fn is_in(listed: &[bool], item: usize) -> bool
    requires { item < length listed.now }
    ensures { result ≡ listed_by listed.now item }
{
    listed[item]
}

// The places of the clues that are listed.
#[derive(Drop)]
struct Clues<'a, P> {
    puzzle: &'a P,
    listed: &'a [bool],
}

impl<'a, P: Shows> Each for Clues<'a, P> {
    ghost asks = { λ of place. (length of.listed.now ≡ P.items_of (P.puzzle of.puzzle.now).size)
        × (place < 4 * (P.puzzle of.puzzle.now).size) };

    ghost tells = { λ of place. when_listed (listed_by of.listed.now) (P.clue_item_of (P.puzzle of.puzzle.now).size place)
        (place_data (P.puzzle of.puzzle.now).size place) };

    #[tactic(auto, using(crate::proofs::WrittenData::none_follow))]
    fn write(&self, writer: &mut Writer, place: usize) -> Result<(), AllocError> {
        let size = self.puzzle.size();
        let place = place as u8;
        if let Some(item) = P::clue_item(size, place)
            && is_in(self.listed, item)
        {
            write_place(writer, size, place)?;
        }
        Ok(())
    }
}

// Writes a place of the edge.
fn write_place(writer: &mut Writer, size: Size, place: u8) -> Result<(), AllocError>
    requires { place < 4 * size }
    ensures { OnOk result (Follow (place_data size place ∷ []) writer.old writer.new) }
{
    writer.begin_object()?;
    write_place_at(writer, size, Some(place))?;
    writer.end_object()?;
    Ok(())
}

// The squares of the givens that are listed.
#[derive(Drop)]
struct Givens<'a, P> {
    puzzle: &'a P,
    listed: &'a [bool],
}

impl<'a, P: Shows> Each for Givens<'a, P> {
    ghost asks = { λ of cell. (length of.listed.now ≡ P.items_of (P.puzzle of.puzzle.now).size)
        × (cell < (P.puzzle of.puzzle.now).size * (P.puzzle of.puzzle.now).size) };

    ghost tells = { λ of cell.
        when (listed_by of.listed.now (P.given_item_of (P.puzzle of.puzzle.now).size cell)) (count_data cell) };

    fn write(&self, writer: &mut Writer, cell: usize) -> Result<(), AllocError> {
        let item = P::given_item(self.puzzle.size(), cell);
        write_number_when(writer, is_in(self.listed, item), cell)
    }
}

// The signs of a square to its right and below it that are listed.
#[derive(Drop)]
struct Signs<'a, P> {
    puzzle: &'a P,
    listed: &'a [bool],
}

impl<'a, P: Shows> Each for Signs<'a, P> {
    ghost asks = { λ of cell. (length of.listed.now ≡ P.items_of (P.puzzle of.puzzle.now).size)
        × (cell < (P.puzzle of.puzzle.now).size * (P.puzzle of.puzzle.now).size) };

    ghost tells = { λ of cell. signs_at P.Items.own (P.says_greater_of of.puzzle.now) (P.puzzle of.puzzle.now).size
        (listed_by of.listed.now) cell };

    #[tactic(auto, using(crate::proofs::WrittenData::more_follow))]
    fn write(&self, writer: &mut Writer, cell: usize) -> Result<(), AllocError> {
        let width = usize::from(self.puzzle.size().get());
        write_later_sign(writer, self.puzzle, self.listed, cell, cell + 1)?;
        write_later_sign(writer, self.puzzle, self.listed, cell, cell + width)?;
        Ok(())
    }
}

// Writes the sign between a square and a later one, where it is listed.
#[tactic(auto, using(crate::proofs::WrittenData::none_follow))]
fn write_later_sign<P: Shows>(
    writer: &mut Writer,
    puzzle: &P,
    listed: &[bool],
    first: usize,
    second: usize,
) -> Result<(), AllocError>
    requires count { length listed.now ≡ P.items_of (P.puzzle puzzle.now).size }
    requires first { first < (P.puzzle puzzle.now).size * (P.puzzle puzzle.now).size }
    ensures { OnOk result (Follow
        (sign_data P.Items.own (P.says_greater_of puzzle.now) (P.puzzle puzzle.now).size (listed_by listed.now) first second)
        writer.old writer.new) }
{
    let size = puzzle.size();
    if second >= square_count(size) {
        return Ok(());
    }
    if let Some(item) = P::sign_item(size, first, second)
        && is_in(listed, item)
    {
        if puzzle.says_greater(first, second) {
            write_ends(writer, first, second)?;
        } else {
            write_ends(writer, second, first)?;
        }
    }
    Ok(())
}

// Writes the squares of a sign.
fn write_ends(writer: &mut Writer, greater: usize, less: usize) -> Result<(), AllocError>
    ensures { OnOk result (Follow (ends_data greater less ∷ []) writer.old writer.new) }
{
    writer.begin_object()?;
    write_number_at(writer, "greater", Some(greater))?;
    write_number_at(writer, "less", Some(less))?;
    writer.end_object()?;
    Ok(())
}
