//! The game that a line `fair` asks for.

ghost use Rattle.std.specs.Prelude.{◌≡◌, IfOk, IfErr};
ghost use Rattle.game_texts.specs.Parameters.{IsParams};
ghost use Rattle.json_replies.specs.FairLines.{words_copied};
ghost use Rattle.json_replies.specs.FairReplies.{AskForFair, AskFairInVain};

use crate::begin_refusal::BeginRefusal;
use crate::fair_request::read_request;
use crate::fair_words::FairWords;
use crate::shown::{ShownFacts, Shows};
use fair_games::{FairGame, seeded};
use game_texts::{Game, Params};
use line_replies::Facts;
use trail_solver::Rules;

/// The fair game that the words ask for: its parameters and its puzzle. It takes no memory.
///
/// Refused, in this order, as `BadSize`, `BadLetter`, `BadSeed`, `NoneFound`.
// Its frame is on the stack only while a game is drawn.
#[inline(never)]
pub(crate) fn fair_game<P: Shows>(words: FairWords<&[u8]>) -> Result<(Params, P), BeginRefusal>
    ensures asked { IfOk result (λ game. AskForFair ⟦<P as Facts>⟧.facts ⟦<P as ShownFacts>⟧.board_facts
        (words_copied words.entry) game.0 game.1) }
    ensures refused { IfErr result (AskFairInVain ⟦<P as Facts>⟧.facts ⟦<P as ShownFacts>⟧.board_facts
        (words_copied words.entry)) }
    ensures params { IfOk result (λ game. IsParams P.letter_codes game.0) }
    ensures valid { IfOk result (λ game. P.valid game.1) }
    ensures size { IfOk result (λ game. game.0.size ≡ (P.puzzle game.1).size) }
{
    let request = read_request::<P>(words)?;
    let params = Params {
        size: request.size,
        letter: <P as FairGame>::letter(request.grade),
    };
    match seeded(request.size, request.grade, request.seed) {
        Some(puzzle) => Ok((params, puzzle)),
        None => Err(BeginRefusal::NoneFound),
    }
}
