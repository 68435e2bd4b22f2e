//! The rules of Towers: its clues, and what a solver and a generator know of a puzzle.

ghost use Rattle.std.specs.Prelude.{◌≡◌, ◌≢◌, ◌+◌, ◌-◌, ◌*◌, ◌<◌, ◌≤◌, ◌↔◌, ◌==◌, IsTrue, slice_index};
ghost use Rattle.std.specs.Bool.{OnFalse, OnTrue};
ghost use Rattle.latin_board.specs.Squares.{IsFull, number_at};
ghost use Rattle.tower_lines.specs.TowersSeen.{seen};
ghost use Rattle.line_steps.specs.Views.{line_from};
ghost use Rattle.trail_solver.specs.Candidates.{IsEarlier};
ghost use Rattle.trail_solver.specs.Solutions.{HasNoSolutionWithin, KeepsSolutions};
ghost use Rattle.towers_game.specs.Towers.{IsTowers, holds_clue, holds_clues, HoldsClues, towers_puzzle, towers_items};
ghost use Rattle.towers_game.specs.Towers.{has_towers, cut_towers, full_towers};
ghost use Rattle.line_steps.specs.Inner.Narrowing.{KeepsEach};
ghost use Rattle.line_steps.specs.Left.{IsEmptied, IsLive};
ghost use Rattle.line_steps.specs.Chains.{LeadsTo};
ghost use Rattle.towers_game.specs.TowersReasons.{IsTowersStruckBy, IsTowersStruck};
ghost use Rattle.line_steps.specs.Struck.{NoneLeft};
ghost use Rattle.line_steps.specs.declared.grade.Grade.TheVariants.{Hard};

use crate::towers::row_fillings::EachRow;
use crate::towers::{PLACES, Towers};
use latin_board::{Grid, Size};
use line_steps::{LINE, View, deny_given, narrow_lines, narrow_lines_from};
use tower_lines::seen;
use trail_solver::{Candidates, Rules};

// How many towers are seen from an edge place.
fn seen_from(grid: &Grid, place: u8) -> u8
    requires { place < 4 * grid.now.size }
    ensures value { result ≡ seen (line_from grid.now place) }
    ensures within { result ≤ grid.now.size }
{
    let size = grid.size();
    let width = size.get() as usize;
    let view = View::from(size, place);
    let mut line = [0; LINE];
    for k in 0..width {
        line[k] = grid.get(view.cell(k));
    }
    seen(&line[..width]) as u8
}

impl Towers {
    // Whether as many towers are seen from a place as its clue says.
    fn holds_clue(&self, grid: &Grid, place: u8) -> bool
        requires size { grid.now.size ≡ self.now.size }
        requires inside { place < 4 * self.now.size }
        ensures { result ≡ holds_clue self.now grid.now place }
    {
        let clue = self.clue(place);
        clue == 0 || seen_from(grid, place) == clue
    }

    fn holds_clues(&self, grid: &Grid) -> bool
        requires { grid.now.size ≡ self.now.size }
        ensures { result ≡ holds_clues self.now grid.now }
    {
        let width = self.givens.size().get();
        (0..4 * width).all(|place| self.holds_clue(grid, place))
    }

    // Takes the given that is the item from the candidates of its square; a clue is not denied.
    fn deny_number(&self, item: usize, candidates: &mut Candidates)
        requires inside { item < towers_items self.now.size }
        requires size { candidates.old.size ≡ self.now.size }
        ensures less { IsEarlier candidates.old candidates.new }
        ensures keeps { KeepsEach (λ g. 4 * self.now.size ≤ item → number_at g (item - 4 * self.now.size)
            ≢ slice_index self.now.givens (item - 4 * self.now.size)) candidates.old candidates.new }
    {
        let count = self.clues().len();
        if item < count {
            return;
        }
        deny_given(candidates, item - count, self.givens.get(item - count));
    }
}

impl Rules for Towers {
    ghost use Rattle.std.specs.Prelude.{refl};
    ghost use Rattle.towers_game.specs.Towers.{IsTowers, towers_puzzle, towers_items, has_towers, cut_towers, full_towers};
    ghost use Rattle.towers_game.specs.Laws.TowersItems as laws;

    ghost puzzle = { towers_puzzle };

    ghost valid = { IsTowers };

    ghost items_of = { towers_items };

    ghost has = { has_towers };

    ghost cut = { cut_towers };

    ghost full_of = { full_towers };

    fn size(&self) -> Size {
        self.givens.size()
    }

    fn given(&self, cell: usize) -> u8 {
        self.givens.get(cell)
    }

    #[tactic(auto, using(crate::specs::Laws::TowersItems::clues_tested))]
    fn holds(&self, grid: &Grid) -> bool
        requires size { grid.now.size ≡ self.now.size }
        requires full { IsFull grid.now }
        ensures value { result ≡ holds_clues self.now grid.now }
        // It is the rule: from each clued place as many towers are seen as the clue says.
        ensures rule { IsTrue result ↔ HoldsClues self.now grid.now }
    {
        self.holds_clues(grid)
    }

    /// Where it answers true, no pair is left that a given rules out, or rows and columns or a clue by the candidates at first
    /// or by those that are left: to narrow once more would take nothing away for any of these.
    fn narrow(&self, candidates: &mut Candidates) -> bool
        requires { candidates.old.size ≡ self.now.size }
        ensures less { IsEarlier candidates.old candidates.new }
        ensures keeps { KeepsSolutions (towers_puzzle self.now) candidates.old candidates.new }
        ensures refutes { OnFalse result
            (HasNoSolutionWithin (towers_puzzle self.now) candidates.old) }
        ensures struck { OnTrue result
            (NoneLeft (IsTowersStruck self.now) candidates.old candidates.new) }
        ensures settled { OnTrue result
            (NoneLeft (IsTowersStruck self.now) candidates.new candidates.new) }
        // Something is left of each square then, and of each number in each row and column.
        ensures live { OnTrue result (IsLive candidates.new) }
        // It goes by steps of the highest grade, and where it answers false they leave a square nothing.
        ensures leads { LeadsTo (IsTowersStruckBy self.now) Hard candidates.old candidates.new }
        ensures emptied { OnFalse result (IsEmptied candidates.new) }
    {
        let _valid = self.size();
        narrow_lines(self, candidates, &mut EachRow)
    }

    fn narrow_from(&self, candidates: &mut Candidates, cell: usize) -> bool {
        let _valid = self.size();
        narrow_lines_from(self, candidates, cell, &mut EachRow)
    }

    fn item_count(size: Size) -> usize {
        let width = size.get() as usize;
        4 * width + width * width
    }

    fn has_item(&self, i: usize) -> bool {
        let count = self.clues().len();
        if i < count {
            self.clues[i] > 0
        } else {
            self.givens.get(i - count) > 0
        }
    }

    #[tactic(auto, using(crate::proofs::TowersTables::clue_dropped))]
    fn drop_item(&mut self, i: usize) {
        let count = self.clues().len();
        if i < count {
            self.clues[i] = 0;
        } else {
            self.givens.set(i - count, 0);
        }
    }

    fn deny_item(&self, i: usize, candidates: &mut Candidates) -> Towers {
        let _size = self.size();
        self.deny_number(i, candidates);
        let mut fewer = *self;
        fewer.drop_item(i);
        fewer
    }

    fn full(grid: &Grid) -> Towers {
        let width = grid.size().get();
        let mut clues = [0; PLACES];
        for place in 0..4 * width {
            clues[place as usize] = seen_from(grid, place);
        }
        Towers {
            clues,
            givens: *grid,
        }
    }

    ghost valid_size = { laws.valid_size };

    ghost valid_given = { laws.valid_given };

    ghost cut_valid = { laws.cut_valid };

    ghost cut_size = { λ p keep. refl };

    ghost givens_cut = { laws.cut_given };

    ghost cut_has = { λ p keep i h inside. laws.cut_has p keep i };

    ghost cut_all = { λ p h. laws.cut_all p };

    ghost cut_cut = { λ p first second h. laws.cut_cut p first second };

    ghost cut_agrees = { laws.cut_agrees };

    ghost cut_solved = { λ p keep g h. laws.cut_solved p keep g };

    ghost cut_none = { λ p g h. laws.cut_none p g };

    ghost full_valid = { λ g is_grid latin. laws.full_valid g is_grid };

    ghost full_size = { λ g is_grid latin. refl };

    ghost full_given = { λ g cell is_grid latin inside. refl };

    ghost full_has = { laws.full_has };

    ghost full_solved = { laws.full_solved };
}
