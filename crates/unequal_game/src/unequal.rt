//! The puzzles of Unequal: a Latin square with signs between neighbours that say which of the two is the greater.

ghost use Rattle.std.specs.Prelude.{◌≡◌, ◌≢◌, ◌*◌, ◌<◌, ◌≤◌, ◌↔◌, IsTrue, IfSome, Some};
ghost use Rattle.std.specs.Cmp.{decided, partial_equiv_from_equiv};
ghost use Rattle.latin_board.specs.declared.grid.TheConstants.{CELLS};
ghost use Rattle.unequal_game.specs.Unequal.{IsUnequal, IsGreater, unequal_given_grid, is_greater, sign_between, right_sign, lower_sign};
ghost use Rattle.unequal_game.specs.Laws.UnequalSameness.{same_unequal, same_unequal_decides};

mod description;
mod direction;
mod game;
mod item;
mod items;
mod lines;
mod pieces;
mod rules;
mod sign;
mod sign_bounds;
mod sign_strikes;
mod steps;

use latin_board::{CELLS, Grid, Size};
use sign::Sign;
use std::cmp::Ordering;
use std::marker::Model;

/// An Unequal puzzle: a size, a sign or none between each two neighbouring squares, and a given or none at each square.
#[derive(Clone, Copy, Debug)]
pub struct Unequal {
    // For each square in reading order, absent where the grid ends and past its last square.
    right: [Sign; CELLS],
    below: [Sign; CELLS],
    givens: Grid,
}

impl Model for Unequal {
    ghost use Rattle.std.specs.Prelude.{◌-◌, ◌*◌, ◌++◌, replicate};
    ghost use Rattle.latin_board.specs.declared.grid.TheConstants.{CELLS};
    ghost use Rattle.unequal_game.specs.declared.unequal.sign.Sign.TheVariants.{Absent};
    ghost use Rattle.unequal_game.specs.Unequal.{UnequalValue};
    ghost use Rattle.line_steps.specs.Inner.Filled.{places_and_rest};
    ghost use Rattle.unequal_game.specs.Inner.UnequalFields.{KeepsUnequal, unequal_value};

    ghost Value = { UnequalValue };

    ghost view = { λ p. unequal_value p.right p.below p.givens };

    ghost invariant = { λ p. KeepsUnequal p.right p.below p.givens };

    ghost inverse = { λ v. record {
      right = v.right ++ replicate (CELLS - v.size * v.size) Absent;
      below = v.below ++ replicate (CELLS - v.size * v.size) Absent;
      givens = record { size = v.size; numbers = v.givens };
    } };

    ghost inverse_ok = { λ p h.
        let right = places_and_rest Absent CELLS (p.givens.size * p.givens.size) p.right h.right_kept.padded in
        let below = places_and_rest Absent CELLS (p.givens.size * p.givens.size) p.below h.below_kept.padded in
        λ i. record { right = right i; below = below i; givens = p.givens } };
}

impl Unequal {
    /// Whether the squares a and b are neighbours, and the sign between them says that a holds the greater number.
    ///
    /// Squares are counted from 0 in reading order; both are squares of the grid.
    #[tactic(auto, using(crate::specs::Laws::Signs::greater_tested, crate::specs::Laws::Signs::never_both))]
    pub fn greater(&self, a: usize, b: usize) -> bool
        requires first { a < self.now.size * self.now.size }
        requires second { b < self.now.size * self.now.size }
        ensures pair { IsTrue result ↔ IsGreater self.now a b }
        // No two squares are each the greater one.
        ensures one_way { IsGreater self.now a b → IsGreater self.now b a → ⊥ }
        ensures value { result ≡ is_greater self.now a b }
    {
        self.is_greater(a, b)
    }

    /// Which of two squares holds the greater number, as the sign between them says: the first is `Greater` or `Less` than the second.
    /// There is nothing where no sign stands between them.
    ///
    /// Squares are counted from 0 in reading order; both are squares of the grid, and the second comes after the first.
    #[tactic(auto, using(crate::proofs::SignOrders::first_by_sign, crate::proofs::SignOrders::second_by_sign))]
    pub fn order(&self, first: usize, second: usize) -> Option<Ordering>
        requires ordered { first < second }
        requires inside { second < self.now.size * self.now.size }
        ensures greater { (result ≡ Some Ordering.Greater) ↔ IsGreater self.now first second }
        ensures less { (result ≡ Some Ordering.Less) ↔ IsGreater self.now second first }
        ensures said { IfSome result (λ order. order ≢ Ordering.Equal) }
    {
        match self.sign_between(first, second) {
            Sign::Absent => None,
            Sign::FirstGreater => Some(Ordering::Greater),
            Sign::SecondGreater => Some(Ordering::Less),
        }
    }

    // A function of its own, so that `greater` need only prove that the test decides which is the greater.
    fn is_greater(&self, a: usize, b: usize) -> bool
        requires first { a < self.now.size * self.now.size }
        requires second { b < self.now.size * self.now.size }
        ensures value { result ≡ is_greater self.now a b }
        ensures valid { IsUnequal self.now }
    {
        self.sign_between(a, b) == Sign::FirstGreater
            || self.sign_between(b, a) == Sign::SecondGreater
    }

    // The sign between two squares, absent where the second is neither the right nor the lower neighbour of the first.
    fn sign_between(&self, first: usize, second: usize) -> Sign
        requires { first < self.now.size * self.now.size }
        ensures value { result ≡ sign_between self.now first second }
        ensures valid { IsUnequal self.now }
    {
        let width = self.givens.size().get() as usize;
        if second == first + 1 {
            self.right[first]
        } else if second == first + width {
            self.below[first]
        } else {
            Sign::Absent
        }
    }

    // The sign between a square and its right neighbour, absent where it has none.
    fn right_sign(&self, cell: usize) -> Sign
        requires { cell < self.now.size * self.now.size }
        ensures value { result ≡ right_sign self.now cell }
        ensures valid { IsUnequal self.now }
    {
        self.right[cell]
    }

    // The sign between a square and its lower neighbour, absent where it has none.
    fn lower_sign(&self, cell: usize) -> Sign
        requires { cell < self.now.size * self.now.size }
        ensures value { result ≡ lower_sign self.now cell }
        ensures valid { IsUnequal self.now }
    {
        self.below[cell]
    }

    // A function of its own, so that `eq` need only prove that the test decides equality.
    fn is_same(&self, other: &Unequal) -> bool
        ensures { result ≡ same_unequal self.now other.now }
    {
        self.givens == other.givens
            && self.right() == other.right()
            && self.below() == other.below()
    }

    fn givens(&self) -> &Grid
        ensures value { result.now ≡ unequal_given_grid self.now }
        ensures valid { IsUnequal self.now }
    {
        &self.givens
    }

    // The signs of the grid's squares towards their right neighbours.
    fn right(&self) -> &[Sign]
        ensures value { result.now ≡ self.now.right }
        ensures valid { IsUnequal self.now }
    {
        &self.right[..square_count(self.givens.size())]
    }

    // The signs of the grid's squares towards their lower neighbours.
    fn below(&self) -> &[Sign]
        ensures value { result.now ≡ self.now.below }
        ensures valid { IsUnequal self.now }
    {
        &self.below[..square_count(self.givens.size())]
    }
}

/// Two puzzles are equal where their sizes, their signs and their givens are.
impl PartialEq for Unequal {
    ghost eq = { same_unequal };

    ghost laws = { partial_equiv_from_equiv (decided same_unequal same_unequal_decides) };

    #[tactic(auto, using(crate::specs::Laws::UnequalSameness::same_unequal_tested))]
    fn eq(&self, other: &Unequal) -> bool
        ensures value { result ≡ same_unequal self.now other.now }
        ensures same { IsTrue result ↔ (self.now ≡ other.now) }
    {
        self.is_same(other)
    }
}

impl Eq for Unequal {
    ghost laws = { decided same_unequal same_unequal_decides };
}

// How many squares a grid has.
fn square_count(size: Size) -> usize
    ensures value { result ≡ size * size }
    ensures bound { result ≤ CELLS }
{
    let width = size.get() as usize;
    width * width
}
