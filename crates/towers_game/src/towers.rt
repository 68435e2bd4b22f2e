//! The puzzles of Towers: a Latin square whose edge clues count the towers that are seen from there.

ghost use Rattle.std.specs.Prelude.{◌≡◌, ◌*◌, ◌<◌, ◌≤◌, ◌↔◌, IsTrue};
ghost use Rattle.std.specs.Cmp.{decided, partial_equiv_from_equiv};
ghost use Rattle.towers_game.specs.Towers.{IsTowers, towers_given_grid, clue_of};
ghost use Rattle.towers_game.specs.Laws.TowersSameness.{same_towers, same_towers_decides};

pub(crate) mod clue_rows;
mod clue_strikes;
mod description;
mod game;
mod items;
mod lines;
mod low_towers;
mod row_cache;
mod row_fillings;
mod row_sets;
mod rules;
mod steps;

use latin_board::Grid;
use std::marker::Model;

/// How many edge places the largest puzzle has.
const PLACES: usize = 36;

/// A Towers puzzle: a size, a clue or none at each edge place, and a given or none at each square.
#[derive(Clone, Copy, Debug)]
pub struct Towers {
    // In description order, 0 for none, then 0.
    clues: [u8; PLACES],
    givens: Grid,
}

impl Model for Towers {
    ghost use Rattle.std.specs.Prelude.{ℕ, ◌-◌, ◌*◌, ◌++◌, List, replicate};
    ghost use Rattle.std.proofs.Common.{ap};
    ghost use Rattle.towers_game.specs.Towers.{TowersValue};
    ghost use Rattle.line_steps.specs.Inner.Filled.{places_and_rest};
    ghost use Rattle.towers_game.specs.Inner.TowersFields.{KeepsTowers, towers_value};

    ghost Value = { TowersValue };

    ghost view = { λ p. towers_value p.clues p.givens };

    ghost invariant = { λ p. KeepsTowers p.clues p.givens };

    ghost inverse = { λ v. record {
      clues = v.clues ++ replicate (36 - 4 * v.size) 0;
      givens = record { size = v.size; numbers = v.givens };
    } };

    ghost inverse_ok = { λ p h.
        let f : List ℕ → Inside = λ xs. record { clues = xs; givens = p.givens } in
        ap f (places_and_rest 0 36 (4 * p.givens.size) p.clues h.padded) };
}

impl Towers {
    /// The clue at an edge place, 0 for none; the place is below four times the width.
    ///
    /// Places are numbered in description order, as `latin_board::edge_place` does.
    pub fn clue(&self, place: u8) -> u8
        requires { place < 4 * self.now.size }
        ensures value { result ≡ clue_of self.now place }
        ensures within { result ≤ self.now.size }
    {
        self.clues()[place as usize]
    }

    fn givens(&self) -> &Grid
        ensures { result.now ≡ towers_given_grid self.now }
    {
        &self.givens
    }

    // The clues in description order, 0 for none.
    fn clues(&self) -> &[u8]
        ensures value { result.now ≡ self.now.clues }
        ensures valid { IsTowers self.now }
    {
        let width = self.givens.size().get() as usize;
        &self.clues[..4 * width]
    }
}

/// Two puzzles are equal where their sizes, their clues and their givens are.
impl PartialEq for Towers {
    ghost eq = { same_towers };

    ghost laws = { partial_equiv_from_equiv (decided same_towers same_towers_decides) };

    fn eq(&self, other: &Towers) -> bool
        ensures value { result ≡ same_towers self.now other.now }
        ensures same { IsTrue result ↔ (self.now ≡ other.now) }
    {
        self.givens == other.givens && self.clues() == other.clues()
    }
}

impl Eq for Towers {
    ghost laws = { decided same_towers same_towers_decides };
}
