//! Latin squares that are drawn row by row.

ghost use Rattle.std.specs.Prelude.{◌≡◌, ℕ, ◌+◌, ◌==◌, ◌<◌, ◌≤◌, length, slice_index, Some, None};
ghost use Rattle.std.specs.List.{list_any};
ghost use Rattle.std.specs.Bool.{OnTrue, OnFalse};
ghost use Rattle.latin_board.specs.Squares.{IsLatin};
ghost use Rattle.fair_games.specs.Squares.{drawn_latin, drawn_rows, first_row, is_free, next_row, stands_in, with_row};

use arrayvec::ArrayVec;
use latin_board::{Grid, Size};
use puzzle_gen::{draw_numbers, square};
use rand_core::Rng;

/// Draws a Latin square, row by row.
pub(crate) fn draw_square<R: Rng>(rng: &mut R, size: Size) -> Grid
    ensures drawn { (result, R.stream rng.new) ≡ drawn_latin size (R.stream rng.old) }
    ensures size { result.size ≡ size }
    ensures latin { IsLatin result }
{
    let grid = draw_rows(rng, size);
    if grid.is_latin() {
        grid
    } else {
        // Unreachable, since each row fits by Hall's theorem (not proved).
        square(size, 0)
    }
}

// Draws the rows, one after the other.
fn draw_rows<R: Rng>(rng: &mut R, size: Size) -> Grid
    ensures drawn { (result, R.stream rng.new) ≡ drawn_rows size size (R.stream rng.old) }
    ensures size { result.size ≡ size }
{
    let width = size.get() as usize;
    let mut grid = Grid::blank(size);
    for row in 0..width {
        draw_row(rng, &mut grid, row);
    }
    grid
}

// Draws a row below those that stand.
fn draw_row<R: Rng>(rng: &mut R, grid: &mut Grid, row: usize)
    requires { row < grid.old.size }
    ensures drawn { (grid.new, R.stream rng.new) ≡ next_row row (grid.old, R.stream rng.old) }
    ensures size { grid.new.size ≡ grid.old.size }
{
    let width = grid.size().get() as usize;
    let columns = draw_numbers(rng, width);
    let numbers = draw_numbers(rng, width);
    let mut chosen = ArrayVec::new();
    if find_row(grid, numbers.as_slice(), columns.as_slice(), &mut chosen) {
        write_row(grid, row, columns.as_slice(), chosen.as_slice());
    }
}

// Chooses a number for each of the columns, the first that fit in the order of the numbers; false where none do.
fn find_row(grid: &Grid, numbers: &[u8], columns: &[u8], chosen: &mut ArrayVec<u8, 9>) -> bool
    requires numbers { (k : ℕ) → k < length numbers.now → slice_index numbers.now k < grid.now.size }
    requires columns { (k : ℕ) → k < length columns.now → slice_index columns.now k < grid.now.size }
    requires chosen { (k : ℕ) → k < length chosen.old.items → slice_index chosen.old.items k < grid.now.size }
    requires room { length chosen.old.items + length columns.now ≤ 9 }
    ensures found { OnTrue result
        (first_row grid.now numbers.now columns.now chosen.old.items ≡ Some chosen.new.items) }
    ensures none { OnFalse result (first_row grid.now numbers.now columns.now chosen.old.items ≡ None) }
    ensures same { OnFalse result (chosen.new.items ≡ chosen.old.items) }
    ensures count { OnTrue result (length chosen.new.items ≡ length chosen.old.items + length columns.now) }
    ensures fits { OnTrue result
        ((k : ℕ) → k < length chosen.new.items → slice_index chosen.new.items k < grid.now.size) }
{
    let [column, rest @ ..] = columns else {
        return true;
    };
    for k in 0..numbers.len() {
        if is_free(grid, chosen.as_slice(), *column, numbers[k]) {
            chosen.push(numbers[k]);
            if find_row(grid, numbers, rest, chosen) {
                return true;
            }
            chosen.pop();
        }
    }
    false
}

// Whether a number, counted from 0, wasn't chosen yet and doesn't stand in the column.
fn is_free(grid: &Grid, chosen: &[u8], column: u8, number: u8) -> bool
    requires column { column < grid.now.size }
    requires number { number < grid.now.size }
    ensures { result ≡ is_free grid.now column chosen.now number }
{
    let _size = grid.size();
    !is_among(chosen, number) && !stands(grid, column, number + 1)
}

// Whether a number is in a list.
fn is_among(list: &[u8], number: u8) -> bool
    ensures { result ≡ list_any (λ c. c == number) list.now }
{
    list.iter().any(|c| *c == number)
}

// Whether a number stands in a column.
fn stands(grid: &Grid, column: u8, number: u8) -> bool
    requires { column < grid.now.size }
    ensures { result ≡ stands_in grid.now column number grid.now.size }
{
    let width = grid.size().get() as usize;
    let mut found = false;
    for row in 0..width {
        let here = grid.get(row * width + column as usize) == number;
        found = found || here;
    }
    found
}

// Writes the chosen numbers, counted from 0, into their columns of a row.
fn write_row(grid: &mut Grid, row: usize, columns: &[u8], chosen: &[u8])
    requires row { row < grid.old.size }
    requires columns { (k : ℕ) → k < grid.old.size → slice_index columns.now k < grid.old.size }
    requires chosen { (k : ℕ) → k < grid.old.size → slice_index chosen.now k < grid.old.size }
    requires all { length columns.now ≡ grid.old.size }
    requires each { length chosen.now ≡ grid.old.size }
    ensures { grid.new ≡ with_row grid.old row columns.now chosen.now grid.old.size }
{
    let width = grid.size().get() as usize;
    for k in 0..width {
        let _size = grid.size();
        grid.set(row * width + columns[k] as usize, chosen[k] + 1);
    }
}
