//! The duties of a game's rules, and whether a grid is a solution.
ghost use Rattle.std.specs.Prelude.{◌≡◌, ℕ, ◌*◌, ◌<◌, ◌≤◌, ◌↔◌, ◌==◌, ◌&&◌, Bool, true, false, not, IsTrue};
ghost use Rattle.std.specs.Bool.{OnFalse};
ghost use Rattle.latin_board.specs.Squares.{GridValue, IsGrid, IsFull, IsLatin, number_at};
ghost use Rattle.trail_solver.specs.Candidates.{IsEarlier};
ghost use Rattle.trail_solver.specs.Puzzles.{Puzzle, Solves, HoldsGivens, solves_test};
ghost use Rattle.trail_solver.specs.Solutions.{Denies, HasNoSolutionWithin, KeepsSolutions};

use crate::candidates::Candidates;
use latin_board::{Grid, Size};

/// A puzzle on a Latin square, as a solver and a generator see it.
///
/// A puzzle has a size, given numbers, and clues or signs. All of these but the size are its items, numbered from 0; which
/// item a number stands for is the puzzle's own affair. Generic code knows of them only what the laws below say. By these
/// a puzzle asks nothing beside its items: no game is lawful that has a given, a clue or a sign for which no item stands.
pub trait Rules: Copy {
    // The size, the givens, which grids meet the clues or signs, and where clues stand at the edge.
    ghost puzzle: { Self → Puzzle };

    // The fact that holds of every puzzle of the type.
    ghost valid: { Self → Type 0 };

    // How many items a puzzle of a size can have.
    ghost items_of: { ℕ → ℕ };

    // Whether the puzzle has an item.
    ghost has: { Self → ℕ → Bool };

    // The puzzle without its items outside a set.
    ghost cut: { Self → (ℕ → Bool) → Self };

    // The puzzle with every item, each with the grid's own value.
    ghost full_of: { GridValue → Self };

    /// The size of the grid.
    fn size(&self) -> Size
        ensures value { result ≡ (puzzle self.now).size }
        ensures valid { valid self.now };

    /// The given number of a square, 0 for none; the cell is one of the grid's.
    fn given(&self, cell: usize) -> u8
        requires { cell < (puzzle self.now).size * (puzzle self.now).size }
        ensures value { result ≡ (puzzle self.now).given cell }
        ensures within { result ≤ (puzzle self.now).size };

    /// Whether a grid meets the clues or signs alone; the grid is full and of the puzzle's size.
    fn holds(&self, grid: &Grid) -> bool
        requires size { grid.now.size ≡ (puzzle self.now).size }
        requires full { IsFull grid.now }
        ensures { result ≡ (puzzle self.now).meets grid.now };

    /// Removes candidates that no solution among them needs, and answers false only where there is no such solution;
    /// the sizes are equal.
    fn narrow(&self, candidates: &mut Candidates) -> bool
        requires { candidates.old.size ≡ (puzzle self.now).size }
        ensures less { IsEarlier candidates.old candidates.new }
        ensures keeps { KeepsSolutions (puzzle self.now) candidates.old candidates.new }
        ensures refutes { OnFalse result (HasNoSolutionWithin (puzzle self.now) candidates.old) };

    /// Removes candidates as `narrow` does, where `narrow` left these, and then the cell alone lost some: it need look
    /// only at what follows from that. The sizes are equal, and the cell is one of the grid's.
    fn narrow_from(&self, candidates: &mut Candidates, cell: usize) -> bool
        requires size { candidates.old.size ≡ (puzzle self.now).size }
        requires inside { cell < candidates.old.size * candidates.old.size }
        ensures less { IsEarlier candidates.old candidates.new }
        ensures keeps { KeepsSolutions (puzzle self.now) candidates.old candidates.new }
        ensures refutes { OnFalse result (HasNoSolutionWithin (puzzle self.now) candidates.old) }
    {
        // All squares are looked at, whichever of them lost a candidate.
        self.narrow(candidates)
    }

    /// How many items a puzzle of this size can have.
    fn item_count(size: Size) -> usize
        ensures { result ≡ items_of size };

    /// Whether the puzzle has the item; i is below the count.
    fn has_item(&self, i: usize) -> bool
        requires { i < items_of (puzzle self.now).size }
        ensures { result ≡ has self.now i };

    /// Takes the item away, where it is there; i is below the count.
    fn drop_item(&mut self, i: usize)
        requires { i < items_of (puzzle self.old).size }
        ensures { self.new ≡ cut self.old (λ j. not (j == i)) };

    /// The puzzle without the item, or one that asks the opposite of it, by its clues or by the candidates
    /// that are left: what solves the puzzle without the item solves the puzzle itself, or this one within
    /// these candidates. i is below the count, and the sizes are equal.
    #[tactic(auto, using(crate::proofs::DeniedItems::nothing_denied))]
    fn deny_item(&self, i: usize, candidates: &mut Candidates) -> Self
        requires inside { i < items_of (puzzle self.now).size }
        requires size { candidates.old.size ≡ (puzzle self.now).size }
        ensures size { (puzzle result).size ≡ (puzzle self.now).size }
        ensures less { IsEarlier candidates.old candidates.new }
        ensures denies { Denies (puzzle self.now) (puzzle (cut self.now (λ j. not (j == i))))
            (puzzle result) candidates.old candidates.new }
    {
        // Nothing is denied, whatever the item asks.
        let _size = self.size();
        let mut fewer = *self;
        fewer.drop_item(i);
        fewer
    }

    /// The puzzle that has every item, each with the grid's own value; the grid is Latin.
    fn full(grid: &Grid) -> Self
        requires { IsLatin grid.now }
        ensures { result ≡ full_of grid.now };

    // The size is one that grids have, and a given is one of its numbers.
    ghost valid_size: { (p : Self) → valid p → (3 ≤ (puzzle p).size) × ((puzzle p).size ≤ 9) };

    ghost valid_given: { (p : Self) (cell : ℕ) → valid p → cell < (puzzle p).size * (puzzle p).size
        → (puzzle p).given cell ≤ (puzzle p).size };

    // A cut has the puzzle's size, the items that were there and are in the set, and no given that was not there. To cut with
    // every item is to change nothing, two cuts are one, and only the items that the puzzle has matter.
    ghost cut_valid: { (p : Self) (keep : ℕ → Bool) → valid p → valid (cut p keep) };

    ghost cut_size: { (p : Self) (keep : ℕ → Bool) → (puzzle (cut p keep)).size ≡ (puzzle p).size };

    ghost givens_cut: { (p : Self) (keep : ℕ → Bool) (cell : ℕ) → 0 < (puzzle (cut p keep)).given cell
        → (puzzle (cut p keep)).given cell ≡ (puzzle p).given cell };

    ghost cut_has: { (p : Self) (keep : ℕ → Bool) (i : ℕ) → valid p → i < items_of (puzzle p).size
        → has (cut p keep) i ≡ (has p i && keep i) };

    ghost cut_all: { (p : Self) → valid p → cut p (λ i. true) ≡ p };

    ghost cut_cut: { (p : Self) (first second : ℕ → Bool) → valid p
        → cut (cut p first) second ≡ cut p (λ i. first i && second i) };

    ghost cut_agrees: { (p : Self) (a b : ℕ → Bool) → valid p
        → ((i : ℕ) → i < items_of (puzzle p).size → has p i ≡ true → a i ≡ b i)
        → cut p a ≡ cut p b };

    // A cut loses no solution.
    ghost cut_solved: { (p : Self) (keep : ℕ → Bool) (g : GridValue) → valid p
        → Solves (puzzle p) g → Solves (puzzle (cut p keep)) g };

    // All that a puzzle asks are its items: without any, each Latin square of its size solves it. So there is no given, clue
    // or sign that no item stands for; of a puzzle with one, 'every item is needed' would say nothing.
    ghost cut_none: { (p : Self) (g : GridValue) → valid p → IsGrid g → IsLatin g → g.size ≡ (puzzle p).size
        → Solves (puzzle (cut p (λ i. false))) g };

    // The full puzzle of a Latin square has its size, its numbers as givens and every item, and the square solves it.
    ghost full_valid: { (g : GridValue) → IsGrid g → IsLatin g → valid (full_of g) };

    ghost full_size: { (g : GridValue) → IsGrid g → IsLatin g
        → (puzzle (full_of g)).size ≡ g.size };

    ghost full_given: { (g : GridValue) (cell : ℕ) → IsGrid g → IsLatin g → cell < g.size * g.size
        → (puzzle (full_of g)).given cell ≡ number_at g cell };

    ghost full_has: { (g : GridValue) (i : ℕ) → IsGrid g → IsLatin g → i < items_of g.size
        → has (full_of g) i ≡ true };

    ghost full_solved: { (g : GridValue) → IsGrid g → IsLatin g → Solves (puzzle (full_of g)) g };
}

/// Whether the grid is a solution of the puzzle: Latin, with the puzzle's givens, and meeting its clues or signs; the
/// sizes are equal.
#[tactic(auto, using(crate::proofs::SolutionTests::tested_in_two, crate::proofs::SolutionTests::tested_in_one))]
pub fn solves<P: Rules>(p: &P, grid: &Grid) -> bool
    requires { grid.now.size ≡ (P.puzzle p.now).size }
    ensures rule { IsTrue result ↔ Solves (P.puzzle p.now) grid.now }
    ensures test { result ≡ solves_test (P.puzzle p.now) grid.now }
{
    if !grid.is_latin() {
        return false;
    }
    holds_givens(p, grid) && p.holds(grid)
}

// Whether each given stands in its square.
fn holds_givens<P: Rules>(p: &P, grid: &Grid) -> bool
    requires { grid.now.size ≡ (P.puzzle p.now).size }
    ensures { IsTrue result ↔ HoldsGivens (P.puzzle p.now) grid.now }
{
    let width = grid.size().get() as usize;
    for cell in 0..width * width {
        let given = p.given(cell);
        if given != 0 && grid.get(cell) != given {
            return false;
        }
    }
    true
}
