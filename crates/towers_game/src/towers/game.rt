//! Towers as a game of the collection.

use crate::towers::Towers;
use crate::towers::description::{read_towers, write_towers};
use game_texts::{Game, IdFault};
use latin_board::{Size, edge_place};
use std::alloc::Global;
use trail_solver::Rules;

impl Game for Towers {
    ghost use Rattle.towers_game.specs.Laws.TowersItems.{few_items as towers_few_items};
    ghost use Rattle.towers_game.specs.Laws.TowersLetters.{towers_letters_lack};
    ghost use Rattle.std.specs.Prelude.{codes, false};
    ghost use Rattle.towers_game.specs.TowersText.{IsTowersText, towers_text, towers_at};
    ghost use Rattle.towers_game.specs.Laws.TowersText.{towers_taken, towers_again, towers_canonical};
    ghost use Rattle.towers_game.specs.Laws.TowersRefusals.{towers_not_for_memory};

    ghost title = { codes "Towers" };

    ghost letter_codes = { codes "ehxu" };

    ghost describes = { λ text p. IsTowersText p text };

    ghost desc_at = { towers_at };

    ghost desc_of = { towers_text };

    fn name() -> &'static str {
        "Towers"
    }

    /// Easy, Hard, Extreme and Unreasonable.
    fn letters() -> &'static str {
        "ehxu"
    }

    fn same(&self, other: &Towers) -> bool {
        self == other
    }

    fn clue_at(&self, x: i8, y: i8) -> bool {
        match edge_place(self.size(), x, y) {
            Some(place) => self.clue(place) > 0,
            None => false,
        }
    }

    fn read_desc(size: Size, text: &[u8]) -> Result<Towers, IdFault> {
        read_towers(size, text)
    }

    fn write_desc(&self, alloc: Global) -> Result<Vec<u8>, IdFault> {
        write_towers(alloc, self)
    }

    ghost few_items = { towers_few_items };

    ghost plain_letters = { towers_letters_lack };

    ghost desc_taken = { towers_taken };

    ghost desc_not_for_memory = { towers_not_for_memory };

    ghost desc_again = { λ text p valid described. towers_again text p described };

    ghost desc_canonical = { towers_canonical };
}
