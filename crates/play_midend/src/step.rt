//! One move on a board: its refusals, and the change that makes it.

ghost use Rattle.std.specs.Prelude.{◌≡◌, ◌<◌, ◌≤◌, ◌+◌, ◌*◌, false, None, Some, IfOk, IfErr, IsOk, MatchResult};
ghost use Rattle.latin_board.specs.Marks.{IsMarkSet};
ghost use Rattle.latin_board.specs.Changes.{FitsBoard, OneSquare, board_after};
ghost use Rattle.play_midend.specs.Steps.{cell_of, entry_refusal, refusal_of, with_number, with_mark_flipped};
ghost use Rattle.play_midend.specs.Steps.{marks_of_all, all_marked, filled, givens_of, start_of, moved, step, takes_memory, IsOneSquare, IsRefusalOf, Makes};
ghost use Rattle.play_midend.specs.Inner.Effects.{effect_on, IsOfBoard, IsOfSquare, IsEffect};

use crate::fault::PlayFault;
use crate::moves::Move;
use game_texts::Game;
use latin_board::{Board, Change, Grid, Marks, OutOfMemory, edge_place};
use std::alloc::Global;
use trail_solver::{Rules, solves};

/// The effect on a board of a move that isn't refused.
#[derive(Clone, Copy, Debug)]
pub(crate) enum Effect {
    /// A number at a square, 0 for none, and no marks there.
    Number { cell: usize, n: u8 },
    /// One mark of a square is flipped.
    Mark { cell: usize, n: u8 },
    /// Any other: the board that it leads to.
    Whole(Board),
}

// The square of a number or a mark, or the first refusal of it.
fn entry_cell<P: Game>(puzzle: &P, x: u8, y: u8, n: u8) -> Result<usize, PlayFault>
    ensures { MatchResult result
        (λ cell. (entry_refusal (P.puzzle puzzle.now) x y n ≡ None)
        × (cell ≡ cell_of (P.puzzle puzzle.now).size x y)
        × (cell < (P.puzzle puzzle.now).size * (P.puzzle puzzle.now).size))
        (λ fault. entry_refusal (P.puzzle puzzle.now) x y n ≡ Some fault) }
{
    let width = puzzle.size().get();
    if x >= width || y >= width {
        return Err(PlayFault::OffGrid);
    }
    if n > width {
        return Err(PlayFault::OffRange);
    }
    let cell = y as usize * width as usize + x as usize;
    if puzzle.given(cell) != 0 {
        return Err(PlayFault::GivenSquare);
    }
    Ok(cell)
}

// The puzzle's givens.
#[tactic(auto, using(crate::proofs::BoardFilling::givens_all))]
fn givens<P: Game>(puzzle: &P) -> Grid
    ensures { result ≡ givens_of (P.puzzle puzzle.now) }
{
    let size = puzzle.size();
    let width = size.get() as usize;
    let mut grid = Grid::blank(size);
    for cell in 0..width * width {
        grid.set(cell, puzzle.given(cell));
    }
    grid
}

// The board of a new game.
pub(crate) fn start<P: Game>(puzzle: &P) -> Board
    ensures { result ≡ start_of (P.puzzle puzzle.now) }
{
    Board::start(&givens(puzzle))
}

// Writes the content of a square and both flags.
fn write_square(board: &mut Board, cell: usize, n: u8, marks: Marks, completed: bool, cheated: bool)
    requires inside { cell < board.old.size * board.old.size }
    requires number { n ≤ board.old.size }
    requires marks { IsMarkSet board.old.size marks }
    ensures { board.new ≡ board_after board.old (OneSquare (record {
      cell = cell;
      number = n;
      marks = marks;
      completed = completed;
      cheated = cheated;
    })) }
{
    board.swap(&mut Change::square(cell, n, marks, completed, cheated));
}

// The marks of a square once all are marked: those of a square with a number stay.
fn marks_of_all(board: &Board, cell: usize) -> Marks
    requires { cell < board.now.size * board.now.size }
    ensures value { result ≡ marks_of_all board.now cell }
    ensures within { IsMarkSet board.now.size result }
{
    if board.digit(cell) == 0 {
        Marks::full(board.size())
    } else {
        board.marks(cell)
    }
}

// The board with all marks at each square without a number.
#[tactic(auto, using(crate::proofs::BoardFilling::marks_all))]
fn with_all_marks(board: &Board) -> Board
    ensures { result ≡ all_marked board.now }
{
    let width = board.size().get() as usize;
    let mut next = *board;
    for cell in 0..width * width {
        let n = board.digit(cell);
        let marks = marks_of_all(board, cell);
        write_square(
            &mut next,
            cell,
            n,
            marks,
            board.completed(),
            board.cheated(),
        );
    }
    next
}

// The board with a grid of its size filled in.
#[tactic(auto, using(crate::proofs::BoardFilling::numbers_all))]
fn with_solution(board: &Board, grid: &Grid) -> Board
    requires { grid.now.size ≡ board.now.size }
    ensures { result ≡ filled board.now grid.now }
{
    let width = board.size().get() as usize;
    let _size = grid.size();
    let mut next = *board;
    for cell in 0..width * width {
        write_square(&mut next, cell, grid.get(cell), Marks::empty(), true, true);
    }
    next
}

// The board with the done mark of an edge clue flipped.
fn with_done_flipped<P: Game>(puzzle: &P, board: &Board, x: i8, y: i8) -> Board
    requires { board.now.size ≡ (P.puzzle puzzle.now).size }
    ensures { result ≡ moved (P.puzzle puzzle.now) board.now (Move.Done x y) }
{
    let mut next = *board;
    if let Some(place) = edge_place(puzzle.size(), x, y) {
        next.flip_done(place);
    }
    next
}

// The change to a number at a square. The numbers are looked at once more only while the puzzle isn't completed.
fn number_change<P: Game>(puzzle: &P, board: &Board, cell: usize, n: u8) -> Change
    requires size { board.now.size ≡ (P.puzzle puzzle.now).size }
    requires inside { cell < board.now.size * board.now.size }
    requires number { n ≤ board.now.size }
    ensures fits { FitsBoard board.now result }
    ensures board { board_after board.now result
        ≡ with_number (P.puzzle puzzle.now) board.now cell n }
    ensures one_square { IsOneSquare result }
{
    let mut grid = *board.grid();
    grid.set(cell, n);
    let completed = board.completed() || solves(puzzle, &grid);
    Change::square(cell, n, Marks::empty(), completed, board.cheated())
}

// The change that flips one mark of a square.
fn mark_change(board: &Board, cell: usize, n: u8) -> Change
    requires inside { cell < board.now.size * board.now.size }
    requires low { 1 ≤ n }
    requires high { n ≤ board.now.size }
    ensures fits { FitsBoard board.now result }
    ensures board { board_after board.now result ≡ with_mark_flipped board.now cell n }
    ensures one_square { IsOneSquare result }
{
    let _size = board.size();
    let mut marks = board.marks(cell);
    marks.flip(n);
    Change::square(
        cell,
        board.digit(cell),
        marks,
        board.completed(),
        board.cheated(),
    )
}

/// The effect of a move, or its first refusal, `HistoryFull` and `OutOfMemory` left aside.
#[tactic(auto, using(crate::proofs::TestedSolutions::grid_tested))]
pub(crate) fn effect_of<P: Game>(puzzle: &P, board: &Board, m: &Move) -> Result<Effect, PlayFault>
    requires { board.now.size ≡ (P.puzzle puzzle.now).size }
    ensures ok { IfOk result (IsEffect (P.puzzle puzzle.now) board.now m.now) }
    ensures err { IfErr result (λ fault.
        refusal_of (P.puzzle puzzle.now) board.now m.now ≡ Some fault) }
{
    match *m {
        Move::Real { x, y, n } => {
            let cell = entry_cell(puzzle, x, y, n)?;
            Ok(Effect::Number { cell, n })
        }
        Move::Pencil { x, y, n } => {
            let cell = entry_cell(puzzle, x, y, n)?;
            if n == 0 {
                return Ok(Effect::Number { cell, n });
            }
            if board.digit(cell) != 0 {
                return Err(PlayFault::FilledSquare);
            }
            Ok(Effect::Mark { cell, n })
        }
        Move::Solve(grid) => {
            if grid.size() == puzzle.size() && solves(puzzle, &grid) {
                Ok(Effect::Whole(with_solution(board, &grid)))
            } else {
                Err(PlayFault::BadSolution)
            }
        }
        Move::Done { x, y } => {
            if puzzle.clue_at(x, y) {
                Ok(Effect::Whole(with_done_flipped(puzzle, board, x, y)))
            } else {
                Err(PlayFault::OffGrid)
            }
        }
        Move::MarkAll => Ok(Effect::Whole(with_all_marks(board))),
        Move::Restart => Ok(Effect::Whole(start(puzzle))),
    }
}

/// The change that makes a move, by its effect.
pub(crate) fn change_for<P: Game>(
    alloc: Global,
    puzzle: &P,
    board: &Board,
    effect: Effect,
) -> Result<Change, OutOfMemory>
    requires size { board.now.size ≡ (P.puzzle puzzle.now).size }
    requires within { IsOfBoard board.now effect }
    ensures fits { IfOk result (FitsBoard board.now) }
    ensures board { IfOk result (λ change.
        board_after board.now change ≡ effect_on (P.puzzle puzzle.now) board.now effect) }
    ensures one_square { IsOfSquare effect → IfOk result IsOneSquare }
    ensures in_place { IsOfSquare effect → IsOk result }
{
    match effect {
        Effect::Number { cell, n } => Ok(number_change(puzzle, board, cell, n)),
        Effect::Mark { cell, n } => Ok(mark_change(board, cell, n)),
        Effect::Whole(next) => Change::whole(alloc, next),
    }
}

/// The change that, exchanged with a board of the puzzle's size, makes the move there, and exchanged again takes it back.
/// That of a number or a pencil mark is one square.
///
/// Refused, the first that applies: `OffGrid`, `OffRange`, `GivenSquare`, `FilledSquare` and `BadSolution` as the board has
/// it; `OutOfMemory`, which a number or a pencil mark never meets.
#[tactic(auto, using(crate::proofs::Making::changes))]
pub fn change_of<P: Game>(
    alloc: Global,
    puzzle: &P,
    board: &Board,
    m: &Move,
) -> Result<Change, PlayFault>
    requires { board.now.size ≡ (P.puzzle puzzle.now).size }
    ensures ok { IfOk result (λ change. Makes (P.puzzle puzzle.now) board.now m.now change) }
    ensures one_square { takes_memory m.now ≡ false → IfOk result IsOneSquare }
    ensures why { IfErr result (IsRefusalOf m.now (step (P.puzzle puzzle.now) board.now m.now)) }
{
    let effect = effect_of(puzzle, board, m)?;
    let _size = board.size();
    let change = change_for(alloc, puzzle, board, effect)?;
    Ok(change)
}
