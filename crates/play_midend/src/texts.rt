//! Move texts: the strings by which the collection's games tell their mid-end a move, and which save files hold.

ghost use Rattle.std.specs.Prelude.{◌≡◌, ◌≢◌, ◌+◌, ◌*◌, ◌≤◌, ◌∷◌, map, IfOk, IfErr, IfSome};
ghost use Rattle.byte_text.specs.Decimals.{decimal_value};
ghost use Rattle.play_midend.specs.declared.moves.Move.{Move};
ghost use Rattle.play_midend.specs.MoveTexts.{move_text, three_at, two_at, coordinate_at, solution_at, size_by_count};
ghost use Rattle.play_midend.specs.MoveTexts.{digit_at, move_by, move_at, move_fault, IsMoveText};
ghost use Rattle.byte_text.specs.Bytes.{capital_s, digit};

use crate::fault::PlayFault;
use crate::moves::Move;
use byte_text::{cut, number};
use latin_board::{Grid, Size};
use std::alloc::{AllocError, Global};

// A number from 0 to 255 in decimal.
fn byte_at(text: &[u8]) -> Option<u8>
    ensures { result ≡ decimal_value 255 text.now }
{
    Some(number(text, 255)? as u8)
}

// Three numbers from 0 to 255, with commas between them.
fn three(text: &[u8]) -> Option<(u8, u8, u8)>
    ensures { result ≡ three_at text.now }
{
    let (x, rest) = cut(text, b',');
    let rest = rest?;
    let x = byte_at(x)?;
    let (y, last) = cut(rest, b',');
    let last = last?;
    let y = byte_at(y)?;
    Some((x, y, byte_at(last)?))
}

// -1, or a number up to 127.
fn coordinate(text: &[u8]) -> Option<i8>
    ensures { result ≡ coordinate_at text.now }
{
    if text == b"-1".as_slice() {
        return Some(-1);
    }
    Some(number(text, 127)? as i8)
}

// The two coordinates of an edge place, with a comma between them.
fn two(text: &[u8]) -> Option<(i8, i8)>
    ensures { result ≡ two_at text.now }
{
    let (x, y) = cut(text, b',');
    let y = y?;
    let x = coordinate(x)?;
    Some((x, coordinate(y)?))
}

// The size of a grid with so many squares.
fn size_of_squares(count: usize) -> Option<Size>
    ensures value { result ≡ size_by_count count }
    ensures square { IfSome result (λ w. w * w ≡ count) }
{
    match count {
        9 => Size::new(3),
        16 => Size::new(4),
        25 => Size::new(5),
        36 => Size::new(6),
        49 => Size::new(7),
        64 => Size::new(8),
        81 => Size::new(9),
        _ => None,
    }
}

// The number of a digit from 1 to the width.
fn digit(width: u8, byte: u8) -> Option<u8>
    requires { width ≤ 9 }
    ensures { result ≡ digit_at width byte }
{
    if b'1' <= byte && byte <= b'0' + width {
        Some(byte - b'0')
    } else {
        None
    }
}

// The grid that the digits fill in reading order.
fn solution(text: &[u8]) -> Option<Grid>
    ensures { result ≡ solution_at text.now }
{
    let size = size_of_squares(text.len())?;
    let width = size.get();
    let mut grid = Grid::blank(size);
    for (cell, byte) in text.iter().enumerate() {
        grid.set(cell, digit(width, *byte)?);
    }
    Some(grid)
}

// The move that the text spells, by its first byte.
fn move_of(text: &[u8]) -> Option<Move>
    ensures { result ≡ move_by text.now }
{
    match text {
        [b'R', rest @ ..] => three(rest).map(|(x, y, n)| Move::Real { x, y, n }),
        [b'P', rest @ ..] => three(rest).map(|(x, y, n)| Move::Pencil { x, y, n }),
        [b'M'] => Some(Move::MarkAll),
        [b'S', rest @ ..] => solution(rest).map(Move::Solve),
        [b'D', rest @ ..] => two(rest).map(|(x, y)| Move::Done { x, y }),
        _ => None,
    }
}

// The fault of a text that is no move.
fn fault_of(text: &[u8]) -> PlayFault
    ensures { result ≡ move_fault text.now }
{
    match text {
        [b'H' | b'F', ..] => PlayFault::Unsupported,
        _ => PlayFault::BadMove,
    }
}

// Apart from `read_move`, so that `move_at` is opened here alone: there its laws say what it is.
#[tactic(auto, unfolding(crate::specs::MoveTexts::move_at))]
fn read_text(text: &[u8]) -> Result<Move, PlayFault>
    ensures { result ≡ move_at text.now }
{
    move_of(text).ok_or(fault_of(text))
}

/// The move that the text spells, which is never `Restart`.
///
/// The texts are `Rx,y,n` and `Px,y,n` with numbers from 0 to 255, `M`, `S` and the digits of a full grid in reading order,
/// whose size follows from their count, and `Dx,y` with x and y of -1 or from 0 to 127. Numbers are decimal, without leading
/// zeros.
///
/// `Unsupported` where the first byte is `H` or `F`, otherwise `BadMove` where the text is no move.
#[tactic(auto, using(crate::proofs::MoveTextLaws::reads))]
pub fn read_move(text: &[u8]) -> Result<Move, PlayFault>
    ensures value { result ≡ move_at text.now }
    ensures found { IfOk result (λ m. IsMoveText m text.now) }
    ensures only { (m : Move) → IsMoveText m text.now → result ≡ Ok m }
    ensures fault { IfErr result (λ fault. fault ≡ move_fault text.now) }
{
    read_text(text)
}

/// The text of a move that isn't `Restart`.
///
/// `OutOfMemory` alone.
pub fn write_move(alloc: Global, m: &Move) -> Result<Vec<u8>, PlayFault>
    requires { m.now ≢ Move.Restart }
    ensures text { IfOk result (λ text. text.items ≡ move_text m.now) }
    ensures only_out_of_memory { IfErr result (λ fault. fault ≡ PlayFault.OutOfMemory) }
{
    Ok(text_of(alloc, m)?)
}

// The text of any move: that of a restart is empty.
fn text_of(alloc: Global, m: &Move) -> Result<Vec<u8>, AllocError>
    ensures { IfOk result (λ text. text.items ≡ move_text m.now) }
{
    let text = match *m {
        Move::Real { x, y, n } => format!(in alloc; "R{x},{y},{n}")?.into_bytes(),
        Move::Pencil { x, y, n } => format!(in alloc; "P{x},{y},{n}")?.into_bytes(),
        Move::MarkAll => Vec::from_slice(alloc, b"M")?,
        Move::Solve(grid) => solution_text(alloc, &grid)?,
        Move::Restart => Vec::new(alloc),
        Move::Done { x, y } => format!(in alloc; "D{x},{y}")?.into_bytes(),
    };
    Ok(text)
}

// The text of a move that fills in a grid: `S` and the digits.
fn solution_text(alloc: Global, grid: &Grid) -> Result<Vec<u8>, AllocError>
    ensures { IfOk result (λ text. text.items ≡ capital_s ∷ map digit grid.now.numbers) }
{
    let width = grid.size().get() as usize;
    let mut text = Vec::with_capacity(alloc, 1 + width * width)?;
    text.push(b'S')?;
    for cell in 0..width * width {
        text.push(b'0' + grid.get(cell))?;
    }
    Ok(text)
}
