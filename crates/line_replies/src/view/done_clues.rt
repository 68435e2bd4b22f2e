//! The edge clues that are done, as lines.

ghost use Rattle.std.specs.Prelude.{◌≡◌, ◌+◌, ◌*◌, ◌<◌, ◌≤◌, ◌++◌, ℤ, pos, negsuc, ◌≤ℤ◌, zero, length};
ghost use Rattle.arrayvec.specs.ArrayVec.{array_vec_len};
ghost use Rattle.play_midend.specs.Histories.{shown};
ghost use Rattle.play_midend.specs.MoveTexts.{coordinate_text};
ghost use Rattle.line_replies.specs.BoardTexts.{place_text, done_line, done_lines};

use arrayvec::ArrayVec;
use game_texts::Game;
use latin_board::{Board, Size, edge_xy};
use play_midend::Session;

// At most 36 lines of five bytes.
type DoneText = ArrayVec<u8, 180>;

// Two coordinates and a comma: no place has -1 twice.
type PlaceText = ArrayVec<u8, 4>;

/// The edge clues that are marked as done on the shown board: a line `x,y` for each, in the order of descriptions, or
/// the line `no done clues`.
pub fn done_text<P: Game>(session: &Session<P>) -> ArrayVec<u8, 180>
    ensures { result.items ≡ done_lines (shown (P.puzzle session.now.puzzle) session.now) }
{
    done_of(session.board())
}

fn done_of(board: &Board) -> DoneText
    ensures { result.items ≡ done_lines board.now }
{
    let mut text = ArrayVec::new();
    for place in 0..4 * board.size().get() {
        push_done_line(&mut text, board, place);
    }
    if text.is_empty() {
        text.try_extend_from_slice(b"no done clues\n").unwrap();
    }
    text
}

fn push_done_line(text: &mut DoneText, board: &Board, place: u8)
    requires inside { place < 4 * board.now.size }
    requires room { array_vec_len text.old + 5 ≤ 180 }
    ensures line { text.new.items ≡ text.old.items ++ done_line board.now place }
    ensures short { array_vec_len text.new ≤ array_vec_len text.old + 5 }
{
    if board.done(place) {
        text.try_extend_from_slice(&place_text(board.size(), place))
            .unwrap();
        text.push(b'\n');
    }
}

fn place_text(size: Size, place: u8) -> PlaceText
    requires { place < 4 * size }
    ensures { result.items ≡ place_text size place }
{
    let (x, y) = edge_xy(size, place);
    let mut text = ArrayVec::new();
    push_coordinate(&mut text, x);
    text.push(b',');
    push_coordinate(&mut text, y);
    text
}

#[tactic(auto, using(crate::proofs::Coordinates::negative_text, crate::proofs::Coordinates::natural_text))]
fn push_coordinate(text: &mut PlaceText, coordinate: i8)
    requires low { negsuc zero ≤ℤ coordinate }
    requires high { coordinate ≤ℤ pos 9 }
    requires room { array_vec_len text.old + length (coordinate_text coordinate) ≤ 4 }
    ensures { text.new.items ≡ text.old.items ++ coordinate_text coordinate }
{
    if coordinate < 0 {
        text.try_extend_from_slice(b"-1").unwrap();
    } else {
        text.push(b'0' + coordinate as u8);
    }
}
