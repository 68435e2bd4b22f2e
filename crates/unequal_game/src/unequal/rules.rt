//! The rules of Unequal: its signs, and what a solver and a generator know of a puzzle.

ghost use Rattle.std.specs.Prelude.{◌≡◌, ℕ, ◌*◌, ◌<◌, ◌↔◌, IsTrue};
ghost use Rattle.std.specs.Bool.{OnFalse, OnTrue};
ghost use Rattle.latin_board.specs.Squares.{IsFull, IsLatin, number_at};
ghost use Rattle.trail_solver.specs.Candidates.{IsEarlier};
ghost use Rattle.trail_solver.specs.Solutions.{Denies, HasNoSolutionWithin, KeepsSolutions};
ghost use Rattle.unequal_game.specs.Unequal.{IsUnequal, IsGreater, AreNeighbours, HoldsSigns, holds_signs, holds_towards};
ghost use Rattle.unequal_game.specs.Unequal.{unequal_puzzle, sign_towards, sign_in_grid, full_unequal};
ghost use Rattle.unequal_game.specs.Inner.UnequalFields.{HoldsSignsOf};
ghost use Rattle.unequal_game.specs.Inner.UnequalItems.{denied_item, item_cell, with_item};
ghost use Rattle.line_steps.specs.Left.{IsEmptied, IsLive};
ghost use Rattle.line_steps.specs.Chains.{LeadsTo};
ghost use Rattle.unequal_game.specs.UnequalReasons.{IsUnequalStruckBy, IsUnequalStruck};
ghost use Rattle.line_steps.specs.Struck.{NoneLeft};
ghost use Rattle.line_steps.specs.declared.grade.Grade.TheVariants.{Hard};

use crate::unequal::direction::Direction;
use crate::unequal::item::{Item, item_at, item_count};
use crate::unequal::sign::Sign;
use crate::unequal::{Unequal, square_count};
use latin_board::{CELLS, Grid, Size};
use line_steps::{deny_given, narrow_lines, narrow_lines_from};
use trail_solver::{Candidates, Rules};

impl Unequal {
    // A function of its own, so that `holds` need only prove that the test decides the rule.
    fn holds_signs(&self, grid: &Grid) -> bool
        requires { grid.now.size ≡ self.now.size }
        ensures value { result ≡ holds_signs self.now grid.now }
        ensures valid { IsUnequal self.now }
    {
        (0..square_count(self.givens.size())).all(|cell| {
            self.holds_right(grid, cell) && self.holds_below(grid, cell)
        })
    }

    // Whether the grid's numbers at a square and at its right neighbour, where it has one, are as the sign between them says.
    // Where the grid ends no sign stands, so the neighbour of a sign is there.
    fn holds_right(&self, grid: &Grid, cell: usize) -> bool
        requires size { grid.now.size ≡ self.now.size }
        requires inside { cell < self.now.size * self.now.size }
        ensures { result ≡ holds_towards self.now grid.now cell Direction.Right }
    {
        match self.right_sign(cell) {
            Sign::Absent => true,
            sign => sign.holds(grid.get(cell), grid.get(cell + 1)),
        }
    }

    // Whether the grid's numbers at a square and at its lower neighbour are as the sign between them says.
    fn holds_below(&self, grid: &Grid, cell: usize) -> bool
        requires size { grid.now.size ≡ self.now.size }
        requires inside { cell < self.now.size * self.now.size }
        ensures { result ≡ holds_towards self.now grid.now cell Direction.Down }
    {
        let width = self.givens.size().get() as usize;
        match self.lower_sign(cell) {
            Sign::Absent => true,
            sign => sign.holds(grid.get(cell), grid.get(cell + width)),
        }
    }

    // Turns a sign round, or takes a given away and from the candidates of its square.
    fn deny(&mut self, item: Item, candidates: &mut Candidates)
        requires inside { item_cell item < self.old.size * self.old.size }
        requires size { candidates.old.size ≡ self.old.size }
        ensures size { self.new.size ≡ self.old.size }
        ensures valid { IsUnequal self.old }
        ensures less { IsEarlier candidates.old candidates.new }
        ensures denies { Denies (unequal_puzzle self.old) (unequal_puzzle (with_item self.old item 0))
            (unequal_puzzle self.new) candidates.old candidates.new }
    {
        match item {
            Item::RightSign(cell) => self.turn_right(cell),
            Item::LowerSign(cell) => self.turn_below(cell),
            Item::Given(cell) => {
                deny_given(candidates, cell, self.given(cell));
                self.put(item, 0);
            }
        }
    }

    // Turns the sign towards the right neighbour round, where there is one.
    #[tactic(auto, using(crate::proofs::UnequalTables::sign_in_front, crate::proofs::UnequalTables::turned_kept))]
    fn turn_right(&mut self, cell: usize)
        requires { cell < self.old.size * self.old.size }
        ensures value { self.new ≡ denied_item self.old (Item.RightSign cell) }
        ensures valid { IsUnequal self.old }
    {
        self.right[cell] = self.right_sign(cell).turned();
    }

    // Turns the sign towards the lower neighbour round, where there is one.
    #[tactic(auto, using(crate::proofs::UnequalTables::sign_in_front, crate::proofs::UnequalTables::turned_kept))]
    fn turn_below(&mut self, cell: usize)
        requires { cell < self.old.size * self.old.size }
        ensures value { self.new ≡ denied_item self.old (Item.LowerSign cell) }
        ensures valid { IsUnequal self.old }
    {
        self.below[cell] = self.lower_sign(cell).turned();
    }
}

// The signs that the numbers of a grid give towards the neighbours in a direction.
#[tactic(auto, using(crate::proofs::UnequalTables::signs_filled))]
fn signs_of(grid: &Grid, direction: Direction) -> [Sign; CELLS]
    ensures { HoldsSignsOf grid.now.size (sign_in_grid grid.now) direction result }
{
    let mut signs = [Sign::Absent; CELLS];
    for cell in 0..square_count(grid.size()) {
        signs[cell] = sign_towards(grid, cell, direction);
    }
    signs
}

// The sign that the grid's numbers give between a square and its neighbour, where it has one.
fn sign_towards(grid: &Grid, cell: usize, direction: Direction) -> Sign
    requires { cell < grid.now.size * grid.now.size }
    ensures { result ≡ sign_towards grid.now.size (sign_in_grid grid.now) direction cell }
{
    match direction.neighbour(grid.size(), cell) {
        Some(other) => Sign::between(grid.get(cell), grid.get(other)),
        None => Sign::Absent,
    }
}

/// The items are the signs, each row's from the top and the left, then those below each square, and then the givens in
/// reading order.
impl Rules for Unequal {
    ghost use Rattle.std.specs.Prelude.{refl};
    ghost use Rattle.unequal_game.specs.Unequal.{IsUnequal, unequal_puzzle, unequal_items, has_unequal, cut_unequal, full_unequal};
    ghost use Rattle.unequal_game.specs.Laws.UnequalItems as laws;

    ghost puzzle = { unequal_puzzle };

    ghost valid = { IsUnequal };

    ghost items_of = { unequal_items };

    ghost has = { has_unequal };

    ghost cut = { cut_unequal };

    ghost full_of = { full_unequal };

    fn size(&self) -> Size {
        self.givens.size()
    }

    fn given(&self, cell: usize) -> u8 {
        self.givens.get(cell)
    }

    #[tactic(auto, using(crate::specs::Laws::SignLemmas::holds_tested))]
    fn holds(&self, grid: &Grid) -> bool
        requires size { grid.now.size ≡ self.now.size }
        requires full { IsFull grid.now }
        ensures value { result ≡ holds_signs self.now grid.now }
        // That is the rule: wherever a sign says which of two neighbours is the greater, the grid's number there is.
        ensures rule { IsTrue result ↔ HoldsSigns self.now grid.now }
    {
        self.holds_signs(grid)
    }

    /// Where it answers true, no pair is left that a given rules out, or rows and columns or a sign by the candidates at first
    /// or by those that are left: to narrow once more would take nothing away for any of these.
    fn narrow(&self, candidates: &mut Candidates) -> bool
        requires { candidates.old.size ≡ self.now.size }
        ensures less { IsEarlier candidates.old candidates.new }
        ensures keeps { KeepsSolutions (unequal_puzzle self.now) candidates.old candidates.new }
        ensures refutes { OnFalse result
            (HasNoSolutionWithin (unequal_puzzle self.now) candidates.old) }
        ensures struck { OnTrue result
            (NoneLeft (IsUnequalStruck self.now) candidates.old candidates.new) }
        ensures settled { OnTrue result
            (NoneLeft (IsUnequalStruck self.now) candidates.new candidates.new) }
        // Something is left of each square then, and of each number in each row and column.
        ensures live { OnTrue result (IsLive candidates.new) }
        // It goes by steps of the highest grade, and where it answers false they leave a square nothing.
        ensures leads { LeadsTo (IsUnequalStruckBy self.now) Hard candidates.old candidates.new }
        ensures emptied { OnFalse result (IsEmptied candidates.new) }
    {
        let _valid = self.size();
        narrow_lines(self, candidates, &mut ())
    }

    fn narrow_from(&self, candidates: &mut Candidates, cell: usize) -> bool {
        let _valid = self.size();
        narrow_lines_from(self, candidates, cell, &mut ())
    }

    fn item_count(size: Size) -> usize {
        item_count(size)
    }

    fn has_item(&self, i: usize) -> bool {
        match item_at(self.givens.size(), i) {
            Item::RightSign(cell) => self.right[cell] != Sign::Absent,
            Item::LowerSign(cell) => self.below[cell] != Sign::Absent,
            Item::Given(cell) => self.givens.get(cell) > 0,
        }
    }

    #[tactic(auto, using(crate::proofs::UnequalTables::without_cut))]
    fn drop_item(&mut self, i: usize) {
        let item = item_at(self.size(), i);
        self.put(item, 0);
    }

    fn deny_item(&self, i: usize, candidates: &mut Candidates) -> Unequal {
        let mut denied = *self;
        denied.deny(item_at(self.size(), i), candidates);
        denied
    }

    fn full(grid: &Grid) -> Unequal
        requires { IsLatin grid.now }
        ensures value { result ≡ full_unequal grid.now }
        // Each two neighbours have the sign that the grid gives, and each square its number.
        ensures signs { (a b : ℕ) → IsGreater result a b
            ↔ (AreNeighbours grid.now.size a b × (number_at grid.now b < number_at grid.now a)) }
        ensures givens { result.givens ≡ grid.now.numbers }
    {
        let _size = grid.size();
        Unequal {
            right: signs_of(grid, Direction::Right),
            below: signs_of(grid, Direction::Down),
            givens: *grid,
        }
    }

    ghost valid_size = { laws.valid_size };

    ghost valid_given = { laws.valid_given };

    ghost cut_valid = { laws.cut_valid };

    ghost cut_size = { λ p keep. refl };

    ghost givens_cut = { laws.cut_given };

    ghost cut_has = { λ p keep i h inside. laws.cut_has p keep i h };

    ghost cut_all = { λ p h. laws.cut_all p };

    ghost cut_cut = { λ p first second h. laws.cut_cut p first second };

    ghost cut_agrees = { laws.cut_agrees };

    ghost cut_solved = { λ p keep g h. laws.cut_solved p keep g };

    ghost cut_none = { λ p g h. laws.cut_none p g };

    ghost full_valid = { λ g is_grid latin. laws.full_valid g is_grid };

    ghost full_size = { λ g is_grid latin. refl };

    ghost full_given = { λ g cell is_grid latin inside. refl };

    ghost full_has = { laws.full_has };

    ghost full_solved = { laws.full_solved };
}
