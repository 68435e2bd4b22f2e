//! The command `solve`: its effect on a session, and the reply.
ghost use Rattle.std.specs.Prelude.{◌≡◌, Some, None, Err, IfOk, IfErr, OnOk};
ghost use Rattle.play_midend.specs.declared.fault.PlayFault.{PlayFault};
ghost use Rattle.play_midend.specs.declared.moves.Move.TheVariants.{Solve};
ghost use Rattle.line_replies.specs.Refusals.{play_refusal};
ghost use Rattle.line_replies.specs.Texts.{text_bytes};
ghost use Rattle.latin_board.specs.Squares.{GridValue};
ghost use Rattle.line_replies.specs.SolutionTexts.{move_line, solve_sentence, IsLastMove};
ghost use Rattle.line_replies.specs.Inner.Answers.{IsFilledIn};

use crate::draw::symbols::grid_digits;
use crate::reply::refusal::Refusal;
use crate::reply::text::Text;
use arrayvec::ArrayVec;
use game_texts::Game;
use latin_board::Grid;
use play_midend::{PlayFault, Session};

// `S`, at most 81 digits and a line feed.
type SolveLine = ArrayVec<u8, 83>;

/// The reply to `solve` by its answer: the move that was made, or why there is none to make.
///
/// The text takes no memory, as the session has changed by then.
pub(crate) fn solve_reply<P: Game>(
    session: &Session<P>,
    answer: Result<(), PlayFault>,
) -> Result<Text, Refusal>
    requires { OnOk answer ((g : GridValue) × IsFilledIn (P.puzzle session.now.puzzle) session.now g) }
    ensures made { OnOk answer (IfOk result (λ text. IsLastMove session.now (text_bytes text))) }
    ensures ok { IfErr answer (λ fault. IfOk result (λ text.
        solve_sentence fault ≡ Some (text_bytes text))) }
    ensures err { IfErr result (λ refusal. (fault : PlayFault) × (answer ≡ Err fault)
        × (solve_sentence fault ≡ None) × (refusal ≡ play_refusal fault)) }
{
    match answer {
        Ok(()) => Ok(Text::Solved(solution_line(session))),
        Err(PlayFault::NoSolution) => Ok(Text::line("No solution exists for this puzzle")),
        Err(PlayFault::SeveralSolutions) => {
            Ok(Text::line("Multiple solutions exist for this puzzle"))
        }
        Err(fault) => Err(Refusal::from(fault)),
    }
}

// The line of the solution that was filled in last, which the board shows.
#[tactic(auto, using(crate::proofs::FilledIn::last_line))]
fn solution_line<P: Game>(session: &Session<P>) -> SolveLine
    requires { (g : GridValue) × IsFilledIn (P.puzzle session.now.puzzle) session.now g }
    ensures { IsLastMove session.now result.items }
{
    grid_line(session.board().grid())
}

fn grid_line(grid: &Grid) -> SolveLine
    ensures { result.items ≡ move_line (Solve grid.now) }
{
    let mut line = ArrayVec::new();
    line.push(b'S');
    line.try_extend_from_slice(&grid_digits(grid)).unwrap();
    line.push(b'\n');
    line
}
