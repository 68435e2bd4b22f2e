//! The rules of the game: none but the Latin one. The items are the givens, in reading order.

use crate::latin::Latin;
use clue_rules::narrow_by_givens;
use latin_board::{Grid, Size};
use trail_solver::{Candidates, Rules};

impl Rules for Latin {
    ghost use Rattle.std.specs.Prelude.{refl};
    ghost use Rattle.latin_board.specs.Squares.{IsGrid};
    ghost use Rattle.clue_rules.specs.Givens.{given_puzzle};
    ghost use Rattle.client.specs.Latin.{items_of, has_given, cut_givens};
    ghost use Rattle.client.specs.LatinItems as laws;

    ghost puzzle = { given_puzzle };

    ghost valid = { IsGrid };

    ghost items_of = { items_of };

    ghost has = { has_given };

    ghost cut = { cut_givens };

    ghost full_of = { λ g. g };

    fn size(&self) -> Size {
        self.givens.size()
    }

    fn given(&self, cell: usize) -> u8 {
        self.givens.get(cell)
    }

    fn holds(&self, _grid: &Grid) -> bool {
        true
    }

    fn narrow(&self, candidates: &mut Candidates) -> bool {
        narrow_by_givens(candidates, &self.givens)
    }

    fn item_count(size: Size) -> usize {
        let width = size.get() as usize;
        width * width
    }

    fn has_item(&self, i: usize) -> bool {
        self.givens.get(i) > 0
    }

    fn drop_item(&mut self, i: usize) {
        self.givens.set(i, 0);
    }

    fn full(grid: &Grid) -> Latin {
        Latin { givens: *grid }
    }

    ghost valid_size = { λ p h. (h.smallest, h.largest) };

    ghost valid_given = { laws.valid_given };

    ghost cut_valid = { laws.cut_valid };

    ghost cut_size = { λ p keep. refl };

    ghost givens_cut = { laws.cut_given };

    ghost cut_has = { λ p keep i h inside. laws.cut_has p keep i };

    ghost cut_all = { λ p h. laws.cut_all p };

    ghost cut_cut = { λ p first second h. laws.cut_cut p first second };

    ghost cut_agrees = { laws.cut_agrees };

    ghost cut_solved = { λ p keep g h. laws.cut_solved p keep g };

    ghost cut_none = { λ p g h. laws.cut_none p g };

    ghost full_valid = { λ g is_grid latin. is_grid };

    ghost full_size = { λ g is_grid latin. refl };

    ghost full_given = { λ g cell is_grid latin inside. refl };

    ghost full_has = { laws.full_has };

    ghost full_solved = { laws.full_solved };
}
