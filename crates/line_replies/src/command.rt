//! Commands: a line says what to begin, what to ask of a session, or to end the run.
ghost use Rattle.std.specs.Prelude.{◌≡◌, ◌≤◌, IfOk, IfSome, option_map};
ghost use Rattle.std.specs.Option.{option_copied};
ghost use Rattle.line_replies.specs.Commands.{command_copied, read_copied, IsRead, IsCommandInRange};
ghost use Rattle.trail_solver.specs.declared.listing.TheConstants.{MOST_LISTED};
ghost use Rattle.line_replies.specs.Inner.CommandReading.{command_at, read_at, limit_at, word_at};

pub(crate) mod line_fault;

use crate::command::line_fault::LineFault;
use byte_text::number;
use trail_solver::MOST_LISTED;

/// A command, whose argument is a text of type `T`.
#[derive(Clone, Copy)]
pub(crate) enum Command<T> {
    /// Begin a session with the puzzle of a game ID.
    New(T),
    /// End the run.
    Quit,
    /// Ask this of the session.
    Ask(Request<T>),
}

/// A request to a session: a call of it, a view of it, or a listing.
#[derive(Clone, Copy)]
pub(crate) enum Request<T> {
    /// Call it.
    Act(Action<T>),
    /// Tell something of it, which stays as it is.
    Tell(View),
    /// List the first solutions of the starting puzzle, so many at most: from 1 to `MOST_LISTED`.
    Listing(u8),
}

/// A call of a session.
#[derive(Clone, Copy)]
pub(crate) enum Action<T> {
    /// Make the move that a text spells.
    Play(T),
    Undo,
    Redo,
    Restart,
    /// Fill in the only solution of the starting puzzle.
    Solve,
}

/// A view of a session.
#[derive(Clone, Copy)]
pub(crate) enum View {
    /// The board, drawn.
    Show,
    /// The pencil marks.
    Marks,
    Status,
    /// The ID of the game.
    Id,
    /// The edge clues that are done.
    Done,
    /// The save text.
    Save,
}

/// The command of a word alone, or `None` where the line is no such word.
fn read_word(line: &[u8]) -> Option<Command<&[u8]>>
    ensures word { option_map command_copied result ≡ word_at line.now }
    ensures range { IfSome result IsCommandInRange }
{
    let command = if line == b"undo".as_slice() {
        Command::Ask(Request::Act(Action::Undo))
    } else if line == b"redo".as_slice() {
        Command::Ask(Request::Act(Action::Redo))
    } else if line == b"restart".as_slice() {
        Command::Ask(Request::Act(Action::Restart))
    } else if line == b"solve".as_slice() {
        Command::Ask(Request::Act(Action::Solve))
    } else if line == b"show".as_slice() {
        Command::Ask(Request::Tell(View::Show))
    } else if line == b"marks".as_slice() {
        Command::Ask(Request::Tell(View::Marks))
    } else if line == b"status".as_slice() {
        Command::Ask(Request::Tell(View::Status))
    } else if line == b"id".as_slice() {
        Command::Ask(Request::Tell(View::Id))
    } else if line == b"done".as_slice() {
        Command::Ask(Request::Tell(View::Done))
    } else if line == b"save".as_slice() {
        Command::Ask(Request::Tell(View::Save))
    } else if line == b"quit".as_slice() {
        Command::Quit
    } else {
        return None;
    };
    Some(command)
}

/// The command that a line is, or `None` where the line is empty.
///
/// One space stands between a word and its argument. The argument is the rest of the line, and may be empty; that of `list`
/// is a number from 1 to `MOST_LISTED` in decimal without leading zeros.
///
/// `LongLine` where there is no line, since it was too long to be kept; `BadCommand` where it is no command.
pub(crate) fn read_command(line: Option<&[u8]>) -> Result<Option<Command<&[u8]>>, LineFault>
    ensures read { IsRead (option_copied line.entry) (read_copied result) }
    ensures range { IfOk result (λ read. IfSome read IsCommandInRange) }
{
    parse_line(line)
}

// A line is read as by `read_at`, a function on lists; that the grammar says the same follows from it.
fn parse_line(line: Option<&[u8]>) -> Result<Option<Command<&[u8]>>, LineFault>
    ensures read { read_copied result ≡ read_at (option_copied line.entry) }
    ensures range { IfOk result (λ read. IfSome read IsCommandInRange) }
{
    let Some(line) = line else {
        return Err(LineFault::LongLine);
    };
    if line.is_empty() {
        return Ok(None);
    }
    match parse_command(line) {
        Some(command) => Ok(Some(command)),
        None => Err(LineFault::BadCommand),
    }
}

#[tactic(auto, unfolding(crate::specs::Inner::CommandReading::command_at))]
fn parse_command(line: &[u8]) -> Option<Command<&[u8]>>
    ensures command { option_map command_copied result ≡ command_at line.now }
    ensures range { IfSome result IsCommandInRange }
{
    if let Some(command) = read_word(line) {
        return Some(command);
    }
    if let Some(id) = line.strip_prefix(b"new ") {
        return Some(Command::New(id));
    }
    if let Some(text) = line.strip_prefix(b"move ") {
        return Some(Command::Ask(Request::Act(Action::Play(text))));
    }
    if let Some(text) = line.strip_prefix(b"list ") {
        return Some(Command::Ask(Request::Listing(read_limit(text)?)));
    }
    None
}

// The number of solutions that a text asks for.
fn read_limit(text: &[u8]) -> Option<u8>
    ensures limit { result ≡ limit_at text.now }
    ensures range { IfSome result (λ n. (1 ≤ n) × (n ≤ MOST_LISTED)) }
{
    let limit = number(text, u64::from(MOST_LISTED))?;
    if limit == 0 {
        return None;
    }
    Some(limit as u8)
}
