//! The laws of what lines make of sessions. Each is of all lines and sessions, and so no clause of one call,
//! which every caller would have to carry: they are the contract of a function that does nothing.
ghost use Rattle.line_replies.specs.RunLaws.{LinesAreReadOnce, RefusedLinesLeave, OtherRepliesAnswer};
ghost use Rattle.line_replies.specs.RunLaws.{BothPicturesAreWholeLines, RepliesAreWholeLines, OutputIsOne, OutputIsThere};
ghost use Rattle.line_replies.specs.RunLaws.{AnswersStayStorable, LinesAreCalls, OtherRequestsLeave, UndoLineTakesBack};
ghost use Rattle.line_replies.specs.RunLaws.{RedoLineTakesUndoBack, SaveLineLoadsBack, DescribedLinesBegin, SeededLinesHaveOne};
ghost use Rattle.line_replies.specs.Faithful.{BothPicturesShowNumbers, ViewsTellBoards};

use crate::draw::Draw;
use crate::reply::facts::Facts;

/// The laws of what [`execute`](crate::execute) makes of lines, in any game; each format tells it in its
/// words.
///
/// Each line is read in one way. Of the bytes of a reply in the format [`Plain`](crate::Plain), `refused: `
/// and a name tell that the line left the session, and any others are the answer as it was given: so what is
/// said here of answers holds of what is written. A reply is empty or ends with a line feed, where a game's
/// pictures are so, and those of both games are. With ample memory there is one output and one session for
/// each list of lines, where each seed has a puzzle or a refusal, as `generate` answers. Where a session can
/// be stored, or there is none, so it is after each line.
///
/// A line that asks for a call of the session is answered as the session answers the call; one that asks for
/// anything else leaves the session. A move, a restart or a solution that was made and then `undo` give back
/// the board, the past, the position, the puzzle, the parameters and the kept bytes. `undo` and then `redo`
/// give back the whole session.
///
/// The text that `save` answers of a session that can be stored begins that session again, as a file does;
/// only want of memory, or more bytes than a save may have, refuse it. `new` with the written form of a
/// puzzle begins a game of that puzzle. The puzzle of a game that `new` began from a seed has one solution,
/// and several without any one of its items; `solve` answers that solution, and `list 2` has it alone.
///
/// Two sessions of a puzzle of which `show`, `marks`, `done` and `status` tell the same show the same board,
/// both flags included, where a game's pictures show the numbers, and those of both games do.
pub fn laws<P: Draw>()
    ensures read_once { LinesAreReadOnce }
    ensures refused { RefusedLinesLeave ⟦<P as Facts>⟧.facts }
    ensures answered { OtherRepliesAnswer ⟦<P as Facts>⟧.facts }
    ensures pictures { BothPicturesAreWholeLines }
    ensures whole_lines { RepliesAreWholeLines ⟦<P as Facts>⟧.facts }
    ensures one_output { OutputIsOne ⟦<P as Facts>⟧.facts }
    ensures output { OutputIsThere ⟦<P as Facts>⟧.facts }
    ensures stays_storable { AnswersStayStorable ⟦<P as Facts>⟧.facts }
    ensures calls { LinesAreCalls ⟦<P as Facts>⟧.facts }
    ensures others { OtherRequestsLeave ⟦<P as Facts>⟧.facts }
    ensures undone { UndoLineTakesBack ⟦<P as Facts>⟧.facts }
    ensures redone { RedoLineTakesUndoBack ⟦<P as Facts>⟧.facts }
    ensures loads_back { SaveLineLoadsBack ⟦<P as Facts>⟧.facts }
    ensures described { DescribedLinesBegin ⟦<P as Facts>⟧.facts }
    ensures seeded { SeededLinesHaveOne ⟦<P as Facts>⟧.facts }
    ensures numbers { BothPicturesShowNumbers }
    ensures boards { ViewsTellBoards ⟦<P as Facts>⟧.facts }
{}
