//! The turn as a page calls it: bytes by address and length, the answer in rooms that the page gives.

ghost use Rattle.std.specs.Prelude.{◌≡◌, ◌⊎◌, ◌≤◌, ◌<◌, length, take, true, false, Some, vec_items};
ghost use Rattle.line_replies.specs.Starts.{OfGame};
ghost use Rattle.web_turn.specs.declared.outcome.Outcome.{Outcome};
ghost use Rattle.web_turn.specs.Turns.{IsTurnOutcome, IsTooLong, game_of, come_line, outcome_number};

use crate::outcome::Outcome;
use crate::turn::{Answer, answer_line};
use clue_rules::{Towers, Unequal};
use json_replies::Json;
use line_replies::{Facts, Format, GameName};
use std::alloc::Global;

/// How a call ended, and how long its answer is.
#[derive(Drop)]
#[repr(C)]
pub struct Ending {
    /// The number of the outcome: 0 answered, 1 `quit`, 2 the text before is no save of this game, 3 no memory,
    /// 4 no room. Any call may answer 3, and one with a text that is no save may answer it in place of 2.
    pub outcome: u64,
    /// How many bytes are said.
    pub said: usize,
    /// How many bytes the text of a save of the session after has.
    pub saved: usize,
}

/// Answers a line, in Unequal or otherwise in Towers, to the session of the text before, or to none where that is empty.
///
/// The reply goes to the start of `said`, and the text of a save of the session after to the start of
/// `saved`. Of a text that is no save the program's line on it is said, as `refused: BadState 3`, or there
/// was no memory for it. Where one of both has no place in its room, their lengths alone are given. Where
/// there was no memory nothing is said, and no clause says when that is.
#[unsafe(no_mangle)]
pub extern "C" fn puzzles_turn(
    alloc: Global,
    is_unequal: bool,
    before: &[u8],
    line: &[u8],
    said: &mut [u8],
    saved: &mut [u8],
    ending: &mut Ending,
)
    ensures answered { ending.new.outcome ≡ outcome_number Outcome.Answered → OfGame (game_of is_unequal)
        (IsTurnOutcome ⟦<Towers as Facts>⟧.facts ⟦<Json as Format<Towers>>⟧.reply before.now (come_line line.now)
        (take ending.new.said said.new) (take ending.new.saved saved.new) Outcome.Answered)
        (IsTurnOutcome ⟦<Unequal as Facts>⟧.facts ⟦<Json as Format<Unequal>>⟧.reply before.now (come_line line.now)
        (take ending.new.said said.new) (take ending.new.saved saved.new) Outcome.Answered) }
    ensures ended { ending.new.outcome ≡ outcome_number Outcome.Ended → OfGame (game_of is_unequal)
        (IsTurnOutcome ⟦<Towers as Facts>⟧.facts ⟦<Json as Format<Towers>>⟧.reply before.now (come_line line.now)
        (take ending.new.said said.new) (take ending.new.saved saved.new) Outcome.Ended)
        (IsTurnOutcome ⟦<Unequal as Facts>⟧.facts ⟦<Json as Format<Unequal>>⟧.reply before.now (come_line line.now)
        (take ending.new.said said.new) (take ending.new.saved saved.new) Outcome.Ended) }
    ensures unread { ending.new.outcome ≡ outcome_number Outcome.Unread → OfGame (game_of is_unequal)
        (IsTurnOutcome ⟦<Towers as Facts>⟧.facts ⟦<Json as Format<Towers>>⟧.reply before.now (come_line line.now)
        (take ending.new.said said.new) (take ending.new.saved saved.new) Outcome.Unread)
        (IsTurnOutcome ⟦<Unequal as Facts>⟧.facts ⟦<Json as Format<Unequal>>⟧.reply before.now (come_line line.now)
        (take ending.new.said said.new) (take ending.new.saved saved.new) Outcome.Unread) }
    ensures room { ending.new.outcome ≡ outcome_number Outcome.OutOfRoom → OfGame (game_of is_unequal)
        (IsTooLong ⟦<Towers as Facts>⟧.facts ⟦<Json as Format<Towers>>⟧.reply before.now (come_line line.now)
        ending.new.said ending.new.saved (length said.old) (length saved.old))
        (IsTooLong ⟦<Unequal as Facts>⟧.facts ⟦<Json as Format<Unequal>>⟧.reply before.now (come_line line.now)
        ending.new.said ending.new.saved (length said.old) (length saved.old)) }
    ensures lengths { ending.new.outcome ≤ outcome_number Outcome.Unread →
        (ending.new.said ≤ length said.new) × (ending.new.saved ≤ length saved.new) }
    ensures known { ending.new.outcome ≤ outcome_number Outcome.OutOfRoom }
{
    let game = if is_unequal {
        GameName::Unequal
    } else {
        GameName::Towers
    };
    let outcome = match answer_line(alloc, game, before, line) {
        Ok(answer) => {
            ending.said = answer.said.len();
            ending.saved = answer.saved.len();
            if hand_out(&answer, said, saved) {
                answer.outcome
            } else {
                Outcome::OutOfRoom
            }
        }
        Err(_) => Outcome::OutOfMemory,
    };
    ending.outcome = outcome.number();
}

// Puts both texts of an answer into their rooms, where each has its place.
fn hand_out(answer: &Answer, said: &mut [u8], saved: &mut [u8]) -> bool
    ensures said { result ≡ true →
        take (length (vec_items answer.now.said)) said.new ≡ vec_items answer.now.said }
    ensures saved { result ≡ true →
        take (length (vec_items answer.now.saved)) saved.new ≡ vec_items answer.now.saved }
    ensures lengths { result ≡ true →
        (length (vec_items answer.now.said) ≤ length said.new)
        × (length (vec_items answer.now.saved) ≤ length saved.new) }
    ensures room { result ≡ false →
        (length said.old < length (vec_items answer.now.said))
        ⊎ (length saved.old < length (vec_items answer.now.saved)) }
{
    put(said, &answer.said) && put(saved, &answer.saved)
}

// Puts the bytes at the start of the room, where they have a place there.
fn put(room: &mut [u8], bytes: &[u8]) -> bool
    ensures put { result ≡ true → take (length bytes.now) room.new ≡ bytes.now }
    ensures length { result ≡ true → length bytes.now ≤ length room.new }
    ensures room { result ≡ false → length room.old < length bytes.now }
{
    if room.len() < bytes.len() {
        return false;
    }
    room[..bytes.len()].copy_from_slice(bytes);
    true
}
