//! The replies of a puzzle program as JSON.
//!
//! [`Json`] is a format of the program: each line is answered by one object on one line. It tells what the line makes of a session
//! ([`execute`](line_replies::execute)), or answers a line that only this format has: `hint` and others ask something of the session, and
//! `fair`, `blank`, `item` and `thin` begin one as `new` does.
#![tactic(auto)]

mod begin;
mod begin_line;
mod begin_refusal;
mod board;
mod clue_lists;
mod desk;
mod fair;
mod fair_request;
mod fair_words;
mod format;
mod further;
mod further_line;
mod hint_text;
mod item_words;
mod listed_items;
mod marked_hints;
mod object_line;
mod reason_parts;
mod reply_laws;
mod session;
mod shown;
mod start;
mod text;
mod written;
mod written_steps;

pub use format::Json;
pub use reply_laws::laws;
pub use shown::{ShownFacts, Shows};
