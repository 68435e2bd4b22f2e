//! A game as the mid-end and the programs know it.
ghost use Rattle.std.specs.Prelude.{◌≡◌, ℕ, ◌≤◌, false, List, Result, Ok, IsTrue, ◌↔◌, IfOk, IfErr};
ghost use Rattle.std.specs.Option.{option_map_or};
ghost use Rattle.latin_board.specs.Edges.{edge_place};
ghost use Rattle.game_texts.specs.declared.game.TheConstants.{MOST_ITEMS};
ghost use Rattle.game_texts.specs.declared.id_fault.IdFault.{IdFault};
ghost use Rattle.game_texts.specs.GameIds.{LacksSeparators};
ghost use Rattle.game_texts.specs.IdFaults.{NotForMemory};

use crate::id_fault::IdFault;
use latin_board::Size;
use std::alloc::Global;
use trail_solver::Rules;

/// The most items that a puzzle of a size from 3 to 6 can have, in the game that has the most.
pub const MOST_ITEMS: usize = 96;

/// A game of the collection: the rules of its puzzles, and the texts by which they are named.
///
/// Sessions and saves know a game by this trait and `Rules` alone.
pub trait Game: Rules {
    ghost title: { List ℕ };

    ghost letter_codes: { List ℕ };

    // The text describes the puzzle.
    ghost describes: { List ℕ → Self → Type 0 };

    // The puzzle of a width that a text describes, or the text's first fault.
    ghost desc_at: { ℕ → List ℕ → Result Self IdFault };

    // The description in its written form.
    ghost desc_of: { Self → List ℕ };

    /// The game's name in save files.
    fn name() -> &'static str
        ensures { result.now ≡ title };

    /// The letters of the difficulties that may stand after `d` in the game's parameters.
    fn letters() -> &'static str
        ensures { result.now ≡ letter_codes };

    /// Whether both are the same puzzle.
    fn same(&self, other: &Self) -> bool
        ensures { IsTrue result ↔ (self.now ≡ other.now) };

    /// Whether an edge clue stands at (x, y), where the squares have x and y from 0 to the width less 1.
    fn clue_at(&self, x: i8, y: i8) -> bool
        ensures { result ≡ option_map_or (Self.puzzle self.now).clued
            (edge_place (Self.puzzle self.now).size x y) false };

    /// Reads a description of a puzzle of this size.
    ///
    /// The refusals are those of `IdFault` from `BadClue` to `Contradiction`, the first that applies to the whole text.
    fn read_desc(size: Size, text: &[u8]) -> Result<Self, IdFault>
        ensures { result ≡ desc_at size text.now };

    /// The description of the puzzle in its written form. `OutOfMemory` is the only refusal.
    fn write_desc(&self, alloc: Global) -> Result<Vec<u8>, IdFault>
        ensures written { IfOk result (λ text. text.items ≡ desc_of self.now) }
        ensures refused { IfErr result (λ fault. fault ≡ IdFault.OutOfMemory) };

    // A puzzle of a size that is generated, 3 to 6, has few items.
    ghost few_items: { (n : ℕ) → 3 ≤ n → n ≤ 6 → Self.items_of n ≤ MOST_ITEMS };

    // No letter is one of the bytes that end the parameters of a game ID.
    ghost plain_letters: { LacksSeparators letter_codes };

    // A puzzle that is read is described by the text, and has the width.
    ghost desc_taken: { (w : ℕ) (text : List ℕ) (p : Self) → 3 ≤ w → w ≤ 9 → desc_at w text ≡ Ok p →
        describes text p × Self.valid p × ((Self.puzzle p).size ≡ w) };

    // Reading takes no memory, so it never lacks any.
    ghost desc_not_for_memory: { (w : ℕ) (text : List ℕ) → NotForMemory (desc_at w text) };

    // A text that describes a puzzle is read as that puzzle.
    ghost desc_again: { (text : List ℕ) (p : Self) → Self.valid p → describes text p →
        desc_at (Self.puzzle p).size text ≡ Ok p };

    // The written form describes its puzzle.
    ghost desc_canonical: { (p : Self) → Self.valid p → describes (desc_of p) p };
}
