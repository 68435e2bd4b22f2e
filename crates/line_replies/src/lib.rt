//! The replies to lines: a command is carried out on a session, and the answer is a value or the text that
//! tells it.
//!
//! One call, [`execute`], answers a line: it gives the answer, or the [`Refusal`]. A [`Format`] tells it in
//! its words, as [`Plain`] does; a [`Machine`] is what answers lines, as a loop over them sees it. [`Draw`]
//! is what a game adds to be played so: its picture. The texts of a session can be had alone: [`picture`],
//! [`marks_text`], [`status_text`] and [`done_text`]. [`begin`] gives the first session.
//!
//! A refused line leaves the session as it was. [`laws`] has what holds of the replies in turn: `undo` and
//! `redo`, refusals, that each reply is a step of the session's own calls, that what `save` answers loads
//! back, and that a game begun from a seed has one solution.
//!
//! Nothing here reads or writes: the run, the command line and the files are in `puzzle_cli`, which gives
//! these names on.
#![tactic(auto)]

mod command;
mod draw;
mod format;
mod machine;
mod reply;
mod run_laws;
mod start;
mod view;

pub use command::line_fault::LineFault;
pub use draw::{Draw, picture};
pub use format::{Format, Plain};
pub use machine::{LINE_BYTES, Machine, Response};
pub use reply::answers::execute;
pub use reply::facts::Facts;
pub use reply::new_session::begin_game;
pub use reply::refusal::Refusal;
pub use reply::text::Text;
pub use run_laws::laws;
pub use start::begin;
pub use start::game_name::GameName;
pub use start::start_fault::StartFault;
pub use view::done_clues::done_text;
pub use view::id::id_text;
pub use view::pencil_marks::marks_text;
pub use view::status::{status_text, status_word};
