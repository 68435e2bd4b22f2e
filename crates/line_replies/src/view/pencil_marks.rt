//! The pencil marks of a board, as lines.

ghost use Rattle.std.specs.Prelude.{◌≡◌, ◌*◌, ◌<◌, ◌++◌, IfOk, OnOk};
ghost use Rattle.play_midend.specs.Histories.{shown};
ghost use Rattle.line_replies.specs.BoardTexts.{mark_digits, marks_line, marks_lines};

use arrayvec::ArrayVec;
use game_texts::Game;
use latin_board::{Board, Marks, OutOfMemory};
use play_midend::Session;
use std::alloc::{AllocError, Global};

/// The pencil marks of the shown board: for each square with marks, in reading order, a line `x,y:` and its marks in
/// rising order, or the line `no marks`.
///
/// `OutOfMemory` where a growth was refused.
pub fn marks_text<P: Game>(alloc: Global, session: &Session<P>) -> Result<Vec<u8>, OutOfMemory>
    ensures { IfOk result (λ text. text.items
        ≡ marks_lines (shown (P.puzzle session.now.puzzle) session.now)) }
{
    marks_of(alloc, session.board())
}

fn marks_of(alloc: Global, board: &Board) -> Result<Vec<u8>, OutOfMemory>
    ensures { IfOk result (λ text. text.items ≡ marks_lines board.now) }
{
    let width = board.size().get();
    let mut text = Vec::new(alloc);
    for cell in 0..width * width {
        push_marks_line(&mut text, board, cell)?;
    }
    if text.is_empty() {
        text.extend_from_slice(b"no marks\n")?;
    }
    Ok(text)
}

fn push_marks_line(text: &mut Vec<u8>, board: &Board, cell: u8) -> Result<(), AllocError>
    requires { cell < board.now.size * board.now.size }
    ensures { OnOk result (text.new.items ≡ text.old.items ++ marks_line board.now cell) }
{
    let width = board.size().get();
    let digits = mark_digits(board.marks(usize::from(cell)));
    if digits.is_empty() {
        return Ok(());
    }
    text.extend_from_slice(&[b'0' + cell % width, b',', b'0' + cell / width, b':'])?;
    text.extend_from_slice(&digits)?;
    text.push(b'\n')?;
    Ok(())
}

fn mark_digits(marks: Marks) -> ArrayVec<u8, 9>
    ensures { result.items ≡ mark_digits marks }
{
    let mut digits = ArrayVec::new();
    for n in 1..10 {
        if marks.has(n) {
            digits.push(b'0' + n);
        }
    }
    digits
}
