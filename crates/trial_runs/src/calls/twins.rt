//! Whether two sessions are equal, found out without memory.

use play_midend::Session;
use puzzle_cli::Draw;

/// Whether two sessions are equal: in their puzzles, parameters and kept bytes, in all moves, the later ones included, and in the
/// boards of all states. Equal ones are left at their last states.
pub(crate) fn are_equal<P: Draw>(one: &mut Session<P>, other: &mut Session<P>) -> bool {
    have_equal_games(one, other)
        && have_equal_moves(one, other)
        && show_the_same(one, other)
        && go_back_alike(one, other)
        && go_on_alike(one, other)
}

fn have_equal_games<P: Draw>(one: &Session<P>, other: &Session<P>) -> bool {
    one.puzzle().same(other.puzzle())
        && *one.params() == *other.params()
        && *one.next_params() == *other.next_params()
        && one.extras().seed == other.extras().seed
        && one.extras().auxinfo == other.extras().auxinfo
        && one.extras().ui == other.extras().ui
        && one.extras().time == other.extras().time
}

fn have_equal_moves<P: Draw>(one: &Session<P>, other: &Session<P>) -> bool {
    if one.states() != other.states() || one.position() != other.position() {
        return false;
    }
    for i in 1..one.states() {
        if *one.move_at(i) != *other.move_at(i) {
            return false;
        }
    }
    true
}

// Whether two sessions show equal boards on the way back to the start.
fn go_back_alike<P: Draw>(one: &mut Session<P>, other: &mut Session<P>) -> bool {
    for _ in 1..one.position() {
        if one.undo().is_err() || other.undo().is_err() || !show_the_same(one, other) {
            return false;
        }
    }
    true
}

// Whether two sessions show equal boards on the way to the last state.
fn go_on_alike<P: Draw>(one: &mut Session<P>, other: &mut Session<P>) -> bool {
    for _ in one.position()..one.states() {
        if one.redo().is_err() || other.redo().is_err() || !show_the_same(one, other) {
            return false;
        }
    }
    true
}

fn show_the_same<P: Draw>(one: &Session<P>, other: &Session<P>) -> bool {
    *one.board() == *other.board()
}
