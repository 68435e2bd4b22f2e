//! The puzzle of a game, of parameters and a seed.

ghost use Rattle.std.specs.Prelude.{◌≡◌, ℕ, ◌<◌, ◌≤◌, Result, IfOk, IsTrue};
ghost use Rattle.puzzle_gen.specs.SeededSquares.{square_of, trial_order};
ghost use Rattle.trail_solver.specs.Solutions.{HasSeveralSolutions, IsOnlySolution};
ghost use Rattle.needed_items.specs.Needed.{all_but};
ghost use Rattle.puzzle_gen.specs.Inner.OnePruned.{IsOnePruned};
ghost use Rattle.puzzle_gen.specs.declared.gen_fault.GenFault.{GenFault};
ghost use Rattle.puzzle_gen.specs.Generating.{Generates};

use crate::draws::{draw_numbers, rng_of};
use crate::gen_fault::GenFault;
use crate::pruning::pruned;
use crate::seeded_square::draw_square;
use game_texts::{Game, Params};
use latin_board::Size;
use trail_solver::Rules;

/// The puzzle of these parameters and this seed.
///
/// Refused as `SizeTooLarge` where the size is above 6, or otherwise as `Graded` where there is a letter. It takes no memory.
pub fn generate<P: Game>(params: &Params, seed: u64) -> Result<P, GenFault>
    ensures generates { Generates ⟦<P as Rules>⟧ params.now seed result }

    // There is no other.
    ensures just_one { (other : Result P GenFault)
        → Generates ⟦<P as Rules>⟧ params.now seed other → other ≡ result }
    ensures valid { IfOk result (λ p. P.valid p) }
    ensures size { IfOk result (λ p. (P.puzzle p).size ≡ params.now.size) }
    ensures only_solution { IfOk result (λ p.
        IsOnlySolution (P.puzzle p) (square_of params.now.size seed)) }

    // Without any one of its items it has several solutions. These are all that it asks: by `cut_none` of `Rules`, without
    // any it is solved by every Latin square of its size.
    ensures all_needed { IfOk result (λ p. (i : ℕ) → i < P.items_of params.now.size
        → IsTrue (P.has p i) → HasSeveralSolutions (P.puzzle (P.cut p (all_but i)))) }

    // Its description in the written form describes a puzzle, and that puzzle has exactly one solution.
    ensures described { IfOk result (λ p. P.describes (P.desc_of p) p) }
    ensures described_has_one { IfOk result (λ p. (q : P) → P.valid q
        → (P.puzzle q).size ≡ params.now.size → P.describes (P.desc_of p) q
        → IsOnlySolution (P.puzzle q) (square_of params.now.size seed)) }
{
    if params.size.get() > 6 {
        return Err(GenFault::SizeTooLarge);
    }
    if params.letter.is_some() {
        return Err(GenFault::Graded);
    }
    Ok(seeded(params.size, seed))
}

// The pruned puzzle of a seed: its square is drawn first, and then the order in which the items are tried.
fn seeded<P: Game>(size: Size, seed: u64) -> P
    requires { size ≤ 6 }
    ensures { IsOnePruned ⟦<P as Rules>⟧ (square_of size seed)
        (trial_order (P.items_of size) size seed) result }
{
    let mut rng = rng_of(seed);
    let grid = draw_square(size, &mut rng);
    let order = draw_numbers(&mut rng, P::item_count(size));
    pruned(&grid, order.as_slice())
}
