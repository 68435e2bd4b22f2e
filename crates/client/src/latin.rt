//! Latin squares with givens, as a game.

mod fair;
mod game;
mod picture;
mod rules;
mod steps;

use latin_board::Grid;
use std::marker::Model;

/// A puzzle: a size, and a given or none at each square. Contracts see the grid of the givens.
#[derive(Clone, Copy, Debug)]
pub struct Latin {
    givens: Grid,
}

impl Model for Latin {
    ghost use Rattle.latin_board.specs.Squares.{GridValue};

    ghost Value = { GridValue };

    ghost view = { λ p. p.givens };

    ghost inverse = { λ v. record { givens = v } };
}
