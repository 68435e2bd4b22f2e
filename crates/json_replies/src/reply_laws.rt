//! The laws of what is told as JSON. Each is of all that [`Json`](crate::Json) may say, and so no clause of one call, which every caller
//! would have to carry: they are the contract of a function that does nothing.

ghost use Rattle.json_replies.specs.ReplyLaws.{LinesAreTheReply, ObjectsTellOneReply, ObjectsAreNotLost, AnswersLeave};
ghost use Rattle.json_replies.specs.BeginLines.{ItemLinesAsk};
ghost use Rattle.json_replies.specs.FairLaws.{FairLinesBegin, HintsLeadOn, HintsLeadToTheEnd};
ghost use Rattle.json_replies.specs.HintLines.{HintLinesWrite, PlayedHintsSolve};
ghost use Rattle.json_replies.specs.MarkedLaws.{MarksAreNoHarder, MarksLeadOn, MarksLeadToTheEnd};

use crate::shown::{ShownFacts, Shows};
use line_replies::Facts;

/// The laws of the objects that answer lines, in any game.
///
/// The lines that are told of a reply of whole lines, each with LF, are the reply. Where a game's pictures are whole
/// lines every plain reply is, so two that are told by the same bytes are the same, and what is told of the session
/// that they leave is the same. No object's line is `{"lost":"OutOfMemory"}`. The lines that are answered from the
/// session leave it: `board`, `completable`, `hint`, `hint marks`, `grade`, `solutions` and `spare`. `item` and
/// numbers with commas between ask for the item of just these numbers. `fair` and three words leave the session, or
/// begin that of the puzzle that they ask for. It has one solution and is of the grade. In such a puzzle hints lead on
/// while a square is empty: by that grade at most, or to a contradiction where a number is wrong. Where none is, the
/// hinted numbers lead one after another to the solution. A hint from pencil marks is so, too: a number of the
/// solution, by no higher grade than without them, or a contradiction where a number or a mark is wrong; and marks
/// that keep the solution lead to the end. The line `move Rx,y,n` of a hinted number puts it on the board and is
/// refused only for want of memory or room; so such lines in turn solve the puzzle.
pub fn laws<P: Shows>()
    ensures lines { LinesAreTheReply }
    ensures one_reply { ObjectsTellOneReply ⟦<P as Facts>⟧.facts ⟦<P as ShownFacts>⟧.board_facts }
    ensures not_lost { ObjectsAreNotLost ⟦<P as Facts>⟧.facts ⟦<P as ShownFacts>⟧.board_facts }
    ensures answers { AnswersLeave ⟦<P as Facts>⟧.facts ⟦<P as ShownFacts>⟧.board_facts }
    ensures items { ItemLinesAsk }
    ensures fair { FairLinesBegin ⟦<P as Facts>⟧.facts ⟦<P as ShownFacts>⟧.board_facts }
    ensures hints { HintsLeadOn ⟦<P as Facts>⟧.facts ⟦<P as ShownFacts>⟧.board_facts }
    ensures hints_end { HintsLeadToTheEnd ⟦<P as Facts>⟧.facts ⟦<P as ShownFacts>⟧.board_facts }
    ensures marks { MarksLeadOn ⟦<P as Facts>⟧.facts ⟦<P as ShownFacts>⟧.board_facts }
    ensures marks_end { MarksLeadToTheEnd ⟦<P as Facts>⟧.facts ⟦<P as ShownFacts>⟧.board_facts }
    ensures marks_grade { MarksAreNoHarder ⟦<P as Facts>⟧.facts ⟦<P as ShownFacts>⟧.board_facts }
    ensures hint_lines { HintLinesWrite ⟦<P as Facts>⟧.facts ⟦<P as ShownFacts>⟧.board_facts }
    ensures hints_played { PlayedHintsSolve ⟦<P as Facts>⟧.facts ⟦<P as ShownFacts>⟧.board_facts }
{
    named_steps::laws::<P>();
}
