//! Puzzles as text programs: a line that comes in is answered by the lines of its reply.
//!
//! [`run`] reads lines from a source and answers them to a sink. Each line is a command or is refused; a
//! command begins a session, asks something of it, or ends the run.
//!
//! The answer to a line is made by `line_replies`, whose names are given on here: [`Draw`] is what a game
//! adds to be played so, its picture, and a [`Format`] tells an answer in its words. [`Plain`] is that of
//! [`run`], which is [`run_with`] at it. The loop over lines alone, for any [`Machine`], is [`run_machine`].
//!
//! [`play`] is a whole game in any format: from what the words of a command line say, over the file to load
//! and a run, to the file that it is saved to. It knows files by the trait [`GameFiles`].
//!
//! A reply is made whole before its first byte is written. A refused line leaves the session as it was.
//! [`laws`] has what holds of the replies in turn.
//!
//! ```
//! let session = begin::<Towers>(alloc, Some(b"3:3//////3/////"), None)?;
//! let (session, end) = run(alloc, session, &mut source, &mut sink);
//! assert_eq!(rt; end, End::Finished);
//! ```
#![tactic(auto)]

mod fault;
mod line;
mod program;
mod run_end;
mod session_run;
mod start;

pub use fault::Fault;
pub use line::line_loop::run_machine;
pub use line_replies::{
    Draw, Facts, Format, GameName, LineFault, Machine, Plain, Refusal, Response, StartFault, Text,
    begin, begin_game, done_text, execute, id_text, laws, marks_text, picture, status_text,
    status_word,
};
pub use program::game_files::{GameFiles, Unwritten};
pub use program::play;
pub use run_end::End;
pub use session_run::{run, run_with};
pub use start::command_fault::CommandFault;
pub use start::command_line::{Args, read_words, read_words_of};
pub use start::program_texts::{PUZZLES, ProgramTexts};
