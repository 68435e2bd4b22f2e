//! Fair games: drawn until one is of the grade.

ghost use Rattle.line_steps.specs.Reasons.{StruckBy};
ghost use Rattle.std.specs.Prelude.{◌≡◌, ◌≢◌, ℕ, ◌<◌, ◌↔◌, Result, IfOk, IfSome, IsTrue, MatchOption, Some};
ghost use Rattle.named_steps.specs.Graded.{FollowsBy};
ghost use Rattle.line_steps.specs.declared.grade.Grade.{Grade};
ghost use Rattle.fair_games.specs.declared.fair_fault.FairFault.{FairFault};
ghost use Rattle.fair_games.specs.FairGames.{IsFairGame, IsOfGrade, NeedsItems};
ghost use Rattle.fair_games.specs.Squares.{fair_stream};
ghost use Rattle.fair_games.specs.Draws.{drawn_game, draw_at};
ghost use Rattle.fair_games.specs.Offers.{is_offered, letter_code};
ghost use Rattle.fair_games.specs.Fair.{IsPrunedGame, IsPassedOver, IsFair, IsFairResult, most_draws};

use crate::draws::{draw_trial, rng_of};
use crate::fair_fault::FairFault;
use crate::fair_game::FairGame;
use crate::pruning::pruned;
use crate::square::draw_square;
use latin_board::Size;
use named_steps::{Grade, Steps, follows};
use rand_core::Rng;
use trail_solver::Rules;

/// How many draws are made at most.
const MOST_DRAWS: usize = 512;

/// Whether games of this size and grade are offered: the game has a letter for the grade, and the highest grade is of sizes
/// above 3.
pub fn is_offered<P: FairGame>(size: Size, grade: Grade) -> bool
    ensures { result ≡ is_offered size (P.letter_of grade) grade }
{
    match P::letter(grade) {
        None => false,
        Some(_) => match grade {
            Grade::Latin => true,
            Grade::Easy => true,
            Grade::Hard => size.get() > 3,
        },
    }
}

/// The grade that a letter stands for in the game's parameters, where fair games have one.
pub fn grade_of_letter<P: FairGame>(letter: u8) -> Option<Grade>
    ensures { MatchOption result ((grade : Grade) → P.letter_of grade ≢ Some letter)
        (λ grade. P.letter_of grade ≡ Some letter) }
{
    if has_letter::<P>(Grade::Latin, letter) {
        return Some(Grade::Latin);
    }
    if has_letter::<P>(Grade::Easy, letter) {
        return Some(Grade::Easy);
    }
    if has_letter::<P>(Grade::Hard, letter) {
        return Some(Grade::Hard);
    }
    None
}

// Whether the letter stands for the grade.
fn has_letter<P: FairGame>(grade: Grade, letter: u8) -> bool
    ensures { IsTrue result ↔ (P.letter_of grade ≡ Some letter) }
{
    match P::letter(grade) {
        Some(own) => own == letter,
        None => false,
    }
}

/// The fair game of a size, a grade and a seed.
///
/// It has one solution, which follows by the steps of the grade, from nothing to the whole square, and not by those of the grade
/// below; and no item that is tried can be spared. Refused as `NotOffered`, or otherwise as `NoneFound` where no draw gives a game of the
/// grade. It takes no memory.
pub fn fair<P: FairGame>(size: Size, grade: Grade, seed: u64) -> Result<P, FairFault>
    ensures promised { IfOk result (IsFairGame ⟦<P as Rules>⟧ (StruckBy P.puzzle P.own) grade (P.trial_of grade) size) }
    ensures valid { IfOk result (λ p. P.valid p) }

    // Which of such games the seed gives.
    ensures fair { IsFairResult ⟦<P as Rules>⟧ (StruckBy P.puzzle P.own) grade (is_offered size (P.letter_of grade) grade)
        (draw_at (P.trial_of grade) size (P.items_of size)
        (fair_stream size (letter_code (P.letter_of grade)) P.initial_code seed)) result }

    // There is no other.
    ensures just_one { (other : Result P FairFault)
        → IsFairResult ⟦<P as Rules>⟧ (StruckBy P.puzzle P.own) grade (is_offered size (P.letter_of grade) grade)
        (draw_at (P.trial_of grade) size (P.items_of size)
        (fair_stream size (letter_code (P.letter_of grade)) P.initial_code seed)) other
        → other ≡ result }
{
    if !is_offered::<P>(size, grade) {
        return Err(FairFault::NotOffered);
    }
    match seeded(size, grade, seed) {
        Some(puzzle) => Ok(puzzle),
        None => Err(FairFault::NoneFound),
    }
}

/// The puzzle of the first draw of a seed that gives one of the grade: the fair game, where its size and grade are offered.
pub fn seeded<P: FairGame>(size: Size, grade: Grade, seed: u64) -> Option<P>
    ensures promised { IfSome result (IsFairGame ⟦<P as Rules>⟧ (StruckBy P.puzzle P.own) grade (P.trial_of grade) size) }
    ensures fair { MatchOption result
        ((n : ℕ) → n < most_draws → IsPassedOver ⟦<P as Rules>⟧ (StruckBy P.puzzle P.own) grade
        (draw_at (P.trial_of grade) size (P.items_of size)
        (fair_stream size (letter_code (P.letter_of grade)) P.initial_code seed) n))
        (IsFair ⟦<P as Rules>⟧ (StruckBy P.puzzle P.own) grade
        (draw_at (P.trial_of grade) size (P.items_of size)
        (fair_stream size (letter_code (P.letter_of grade)) P.initial_code seed))) }
{
    let mut rng = rng_of(size, letter_byte::<P>(grade), P::initial(), seed);
    find_game(&mut rng, size, grade)
}

// The letter of a grade, or 0 for none.
fn letter_byte<P: FairGame>(grade: Grade) -> u8
    ensures { result ≡ letter_code (P.letter_of grade) }
{
    match P::letter(grade) {
        Some(letter) => letter,
        None => 0,
    }
}

// The puzzle of the first draw from a stream that gives one of the grade.
fn find_game<P: FairGame, R: Rng>(rng: &mut R, size: Size, grade: Grade) -> Option<P>
    ensures needed { IfSome result (NeedsItems ⟦<P as Rules>⟧ (StruckBy P.puzzle P.own) grade (P.trial_of grade) size) }
    ensures fair { MatchOption result
        ((n : ℕ) → n < most_draws
        → IsPassedOver ⟦<P as Rules>⟧ (StruckBy P.puzzle P.own) grade
        (draw_at (P.trial_of grade) size (P.items_of size) (R.stream rng.old) n))
        (IsFair ⟦<P as Rules>⟧ (StruckBy P.puzzle P.own) grade
        (draw_at (P.trial_of grade) size (P.items_of size) (R.stream rng.old))) }
{
    for _draw in 0..MOST_DRAWS {
        let puzzle = draw_game(rng, size, grade);
        if is_of_grade(&puzzle, grade) {
            return Some(puzzle);
        }
    }
    None
}

// Draws a square and an order, and prunes by the grade.
fn draw_game<P: FairGame, R: Rng>(rng: &mut R, size: Size, grade: Grade) -> P
    ensures pruned { IsPrunedGame ⟦<P as Rules>⟧ (StruckBy P.puzzle P.own) grade
        (drawn_game (P.trial_of grade) size (P.items_of size) (R.stream rng.old)).0 result }
    ensures follows { FollowsBy (P.puzzle result) (StruckBy P.puzzle P.own result) grade }
    ensures needed { NeedsItems ⟦<P as Rules>⟧ (StruckBy P.puzzle P.own) grade (P.trial_of grade) size result }
    ensures left { R.stream rng.new ≡ (drawn_game (P.trial_of grade) size (P.items_of size) (R.stream rng.old)).1 }
{
    let width = size.get() as usize;
    let cells = width * width;
    let grid = draw_square(rng, size);
    let order = draw_trial(rng, P::trial(grade), P::item_count(size) - cells, cells);
    pruned(&grid, order.as_slice(), grade)
}

// Whether a puzzle that follows by a grade doesn't follow by the one below.
fn is_of_grade<P: Steps>(puzzle: &P, grade: Grade) -> bool
    requires { FollowsBy (P.puzzle puzzle.now) (StruckBy P.puzzle P.own puzzle.now) grade }
    ensures { IsTrue result ↔ IsOfGrade ⟦<P as Rules>⟧ (StruckBy P.puzzle P.own) grade puzzle.now }
{
    match grade {
        Grade::Latin => true,
        Grade::Easy => !follows(puzzle, Grade::Latin),
        Grade::Hard => !follows(puzzle, Grade::Easy),
    }
}
