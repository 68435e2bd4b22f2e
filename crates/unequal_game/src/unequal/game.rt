//! Unequal as a game of the collection.

use crate::unequal::Unequal;
use crate::unequal::description::{read_unequal, write_unequal};
use game_texts::{Game, IdFault};
use latin_board::Size;
use std::alloc::Global;

impl Game for Unequal {
    ghost use Rattle.unequal_game.specs.Laws.UnequalItems.{few_items as unequal_few_items};
    ghost use Rattle.unequal_game.specs.Laws.UnequalLetters.{unequal_letters_lack};
    ghost use Rattle.std.specs.Prelude.{codes, true};
    ghost use Rattle.unequal_game.specs.UnequalText.{IsUnequalText, unequal_text, unequal_at};
    ghost use Rattle.unequal_game.specs.Laws.UnequalText.{unequal_taken, unequal_again};
    ghost use Rattle.unequal_game.specs.Laws.UnequalWritten.{unequal_canonical};
    ghost use Rattle.unequal_game.specs.Laws.UnequalRefusals.{unequal_not_for_memory};

    ghost title = { codes "Unequal" };

    ghost letter_codes = { codes "tekxr" };

    ghost describes = { λ text p. IsUnequalText p text };

    ghost desc_at = { unequal_at };

    ghost desc_of = { unequal_text };

    fn name() -> &'static str {
        "Unequal"
    }

    /// Trivial, Easy, Tricky, Extreme and Recursive.
    fn letters() -> &'static str {
        "tekxr"
    }

    #[tactic(auto, using(crate::specs::Laws::UnequalSameness::same_unequal_tested))]
    fn same(&self, other: &Unequal) -> bool {
        self == other
    }

    /// No edge of Unequal has a clue.
    fn clue_at(&self, _x: i8, _y: i8) -> bool {
        false
    }

    fn read_desc(size: Size, text: &[u8]) -> Result<Unequal, IdFault> {
        read_unequal(size, text)
    }

    fn write_desc(&self, alloc: Global) -> Result<Vec<u8>, IdFault> {
        write_unequal(alloc, self)
    }

    ghost few_items = { unequal_few_items };

    ghost plain_letters = { unequal_letters_lack };

    ghost desc_taken = { unequal_taken };

    ghost desc_not_for_memory = { unequal_not_for_memory };

    ghost desc_again = { λ text p valid described. unequal_again text p described };

    ghost desc_canonical = { unequal_canonical };
}
