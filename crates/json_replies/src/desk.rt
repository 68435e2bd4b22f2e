//! The puzzles of a setter: a blank one, the session's with one item changed, that without items that it can do without, and one filled
//! in from its solution.

ghost use Rattle.line_steps.specs.Reasons.{StruckBy};
ghost use Rattle.std.specs.Prelude.{◌≡◌, ◌≤◌, ◌<◌, ◌*◌, IfOk, IfErr, IfSome, IsTrue};
ghost use Rattle.json_replies.specs.ItemChanges.{cell_at, place_item, change_to, sign_change, change_at, turned};
ghost use Rattle.json_replies.specs.DeskReplies.{IsBlankOf, IsNoBlank, IsChangeOf, IsNoChange, IsThinOf, IsThinBy, IsNoLetter, plain_params};
ghost use Rattle.json_replies.specs.DeskReplies.{first_count, is_filled_in, IsFilled, IsFillOf, IsNoFill};
ghost use Rattle.trail_solver.specs.Puzzles.{Solves};

use crate::begin_line::FirstTried;
use crate::begin_refusal::BeginRefusal;
use crate::fair_request::{read_letter, read_size};
use crate::item_words::ItemNumbers;
use crate::shown::Shows;
use fair_games::thinned_by;
use game_texts::Params;
use latin_board::{Grid, Size, edge_place};
use named_steps::follows;
use needed_items::{Items, thinned};
use trail_solver::{Answer, Rules, solve};

/// A change of an item: what it is to say, and whether that is asked rightly and it can say so.
#[derive(Clone, Copy)]
pub(crate) struct Change {
    item: usize,
    value: u8,
    fits: bool,
}

/// The puzzle with the parameters of its size, without a letter.
pub(crate) fn plain<P: Shows>(puzzle: P) -> (Params, P)
    ensures params { result.0 ≡ plain_params (P.puzzle puzzle).size }
    ensures puzzle { result.1 ≡ puzzle }
    ensures valid { P.valid puzzle }
    ensures size { (3 ≤ (P.puzzle puzzle).size) × ((P.puzzle puzzle).size ≤ 9) }
{
    let size = puzzle.size();
    let _width = size.get();
    (Params { size, letter: None }, puzzle)
}

/// The puzzle without any item of the size that a word says. Refused as `BadSize`.
pub(crate) fn blank_puzzle<P: Shows>(word: &[u8]) -> Result<P, BeginRefusal>
    ensures asked { IfOk result (IsBlankOf ⟦<P as Rules>⟧ P.Items.own word.now) }
    ensures refused { IfErr result (IsNoBlank word.now) }
{
    match read_size(word) {
        Some(size) => Ok(P::blank(size)),
        None => Err(BeginRefusal::BadSize),
    }
}

/// The puzzle with the item at these numbers changed. Refused as `OffGrid`, `OffRange`, in this order.
pub(crate) fn changed_puzzle<P: Shows>(puzzle: &P, numbers: ItemNumbers) -> Result<P, BeginRefusal>
    ensures asked { IfOk result (IsChangeOf ⟦<P as Rules>⟧ P.Items.own numbers puzzle.now) }
    ensures refused { IfErr result (IsNoChange P.Items.own (P.puzzle puzzle.now).size numbers) }
{
    let Some(change) = change_of::<P>(puzzle.size(), numbers) else {
        return Err(BeginRefusal::OffGrid);
    };
    if !change.fits {
        return Err(BeginRefusal::OffRange);
    }
    let mut changed = *puzzle;
    changed.put_item(change.item, change.value);
    Ok(changed)
}

/// The puzzle without items that it can do without, where it has just one solution, and otherwise the puzzle itself.
// Its frame is on the stack only while items are looked at.
#[inline(never)]
pub(crate) fn thin_puzzle<P: Shows>(puzzle: &P) -> P
    ensures { IsThinOf ⟦<P as Rules>⟧ puzzle.now result }
{
    match solve(puzzle) {
        Answer::One(grid) => thinned(puzzle, &grid),
        Answer::None => *puzzle,
        Answer::Several(_, _) => *puzzle,
    }
}

/// The puzzle without items that it can do without by the grade that a word says, where these are tried first. Refused as `BadLetter`.
#[inline(never)]
pub(crate) fn thin_puzzle_by<P: Shows>(
    puzzle: &P,
    word: &[u8],
    first: FirstTried,
) -> Result<P, BeginRefusal>
    ensures asked { IfOk result
        (IsThinBy ⟦<P as Rules>⟧ (StruckBy P.puzzle P.own) P.letter_of word.now first puzzle.now) }
    ensures refused { IfErr result (IsNoLetter P.letter_of word.now) }
{
    match read_letter::<P>(word) {
        Some(grade) if follows(puzzle, grade) => {
            Ok(thinned_by(puzzle, grade, first_count::<P>(puzzle.size(), first)))
        }
        Some(_) => Ok(*puzzle),
        None => Err(BeginRefusal::BadLetter),
    }
}

// Below which number items are tried before all others. The givens have the last numbers.
fn first_count<P: Shows>(size: Size, first: FirstTried) -> usize
    ensures value { result ≡ first_count ⟦<P as Rules>⟧ size first }
    ensures inside { result ≤ P.items_of size }
{
    let width = size.get() as usize;
    match first {
        FirstTried::Givens => 0,
        FirstTried::Others => P::item_count(size).saturating_sub(width * width),
    }
}

/// The puzzle with the givens of this one, and all else that its only solution can say. Refused as `NoSolution`, `SeveralSolutions`.
#[inline(never)]
pub(crate) fn filled_puzzle<P: Shows>(puzzle: &P) -> Result<P, BeginRefusal>
    ensures asked { IfOk result (IsFillOf ⟦<P as Rules>⟧ puzzle.now) }
    ensures refused { IfErr result (IsNoFill ⟦<P as Rules>⟧ puzzle.now) }
{
    match solve(puzzle) {
        Answer::None => Err(BeginRefusal::NoSolution),
        Answer::One(grid) => Ok(filled(puzzle, &grid)),
        Answer::Several(_, _) => Err(BeginRefusal::SeveralSolutions),
    }
}

// The full puzzle of a solution without the givens that the puzzle hasn't.
fn filled<P: Shows>(puzzle: &P, grid: &Grid) -> P
    requires { Solves (P.puzzle puzzle.now) grid.now }
    ensures { IsFilled ⟦<P as Rules>⟧ grid.now puzzle.now result }
{
    let count = P::item_count(puzzle.size());
    let mut filled = P::full(grid);
    for item in 0..count {
        if !is_filled_in(puzzle, item) {
            filled.drop_item(item);
        }
    }
    filled
}

// Whether an item is in the puzzle once it is filled in: it is no given, or one that the puzzle has.
fn is_filled_in<P: Shows>(puzzle: &P, item: usize) -> bool
    requires { item < P.items_of (P.puzzle puzzle.now).size }
    ensures { result ≡ is_filled_in ⟦<P as Rules>⟧ puzzle.now item }
{
    item < first_count::<P>(puzzle.size(), FirstTried::Others) || puzzle.has_item(item)
}

// The change that numbers ask for, if there is such an item.
fn change_of<P: Shows>(size: Size, numbers: ItemNumbers) -> Option<Change>
    ensures value { result ≡ change_at P.Items.own size numbers }
    ensures inside { IfSome result (λ change. change.item < P.items_of size) }
    ensures fits { IfSome result (λ change. IsTrue change.fits → change.value ≤ P.most_of size change.item) }
{
    match numbers {
        ItemNumbers::Place { x, y, n } => {
            Some(change_to::<P>(size, true, place_item::<P>(size, x, y)?, n))
        }
        ItemNumbers::Sign { x, y, u, v, n } => {
            sign_change::<P>(size, cell_at(size, x, y)?, cell_at(size, u, v)?, n)
        }
    }
}

// The sign between two squares, where the first is the greater if n is 1.
fn sign_change<P: Shows>(size: Size, first: usize, second: usize, n: u8) -> Option<Change>
    requires first { first < size * size }
    requires second { second < size * size }
    ensures value { result ≡ sign_change P.Items.own size first second n }
    ensures inside { IfSome result (λ change. change.item < P.items_of size) }
    ensures fits { IfSome result (λ change. IsTrue change.fits → change.value ≤ P.most_of size change.item) }
{
    if let Some(item) = P::sign_item(size, first, second) {
        return Some(change_to::<P>(size, n <= 1, item, n));
    }
    let item = P::sign_item(size, second, first)?;
    Some(change_to::<P>(size, n <= 1, item, turned(n)))
}

// The number of a sign's item, where the second square is to be the greater if n is 1.
fn turned(n: u8) -> u8
    ensures { result ≡ turned n }
{
    if n == 1 { 2 } else { n }
}

fn change_to<P: Shows>(size: Size, is_right: bool, item: usize, value: u8) -> Change
    requires { item < P.items_of size }
    ensures value { result ≡ change_to P.Items.own size is_right item value }
    ensures fits { IsTrue result.fits → value ≤ P.most_of size item }
{
    Change {
        item,
        value,
        fits: is_right && value <= P::most_value(size, item),
    }
}

// The item of the given of a square, or of the clue at a place of the edge.
fn place_item<P: Shows>(size: Size, x: i8, y: i8) -> Option<usize>
    ensures value { result ≡ place_item P.Items.own size x y }
    ensures inside { IfSome result (λ item. item < P.items_of size) }
{
    match cell_at(size, x, y) {
        Some(cell) => Some(P::given_item(size, cell)),
        None => P::clue_item(size, edge_place(size, x, y)?),
    }
}

// The square at (x, y), if the grid has it.
fn cell_at(size: Size, x: i8, y: i8) -> Option<usize>
    ensures value { result ≡ cell_at size x y }
    ensures inside { IfSome result (λ cell. cell < size * size) }
{
    let width = size.get() as i8;
    if 0 <= x && x < width && 0 <= y && y < width {
        Some(y as usize * width as usize + x as usize)
    } else {
        None
    }
}
