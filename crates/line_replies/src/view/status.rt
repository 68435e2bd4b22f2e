//! The status of a session, as words.

ghost use Rattle.std.specs.Prelude.{◌≡◌, ◌+◌, ◌≤◌, length};
ghost use Rattle.play_midend.specs.Histories.{shown};
ghost use Rattle.line_replies.specs.BoardTexts.{status_word, status_words};

use crate::view::decimal_text::decimal_text;
use arrayvec::ArrayString;
use game_texts::Game;
use latin_board::Board;
use play_midend::Session;

/// The status of a session, without a line feed: `helped`, `solved` or `playing`, a space, the position, `/` and the
/// number of states.
pub fn status_text<P: Game>(session: &Session<P>) -> ArrayString<32>
    ensures { result.bytes ≡ status_words (shown (P.puzzle session.now.puzzle) session.now)
        session.now.position (length session.now.moves + 1) }
{
    let mut text = ArrayString::new();
    text.push_str(status_word(session.board()));
    text.push_str(" ");
    text.push_str(decimal_text(session.position()).as_str());
    text.push_str("/");
    text.push_str(decimal_text(session.states()).as_str());
    text
}

/// Whether the board is played, solved, or was helped with, in a word.
pub fn status_word(board: &Board) -> &'static str
    ensures word { result.now ≡ status_word board.now }
    ensures short { length result.now ≤ 7 }
{
    if board.cheated() {
        "helped"
    } else if board.completed() {
        "solved"
    } else {
        "playing"
    }
}
