//! The game that a line asks for, and how it begins.

ghost use Rattle.std.specs.Prelude.{◌≡◌, Ok, Err, None, IfOk, IfErr, OnErr};
ghost use Rattle.std.specs.Option.{IsSomeAnd};
ghost use Rattle.game_texts.specs.Parameters.{IsParams};
ghost use Rattle.line_replies.specs.Commands.{is_quit};
ghost use Rattle.line_replies.specs.Machines.{IsResponse};
ghost use Rattle.line_replies.specs.Replies.{LineGives};
ghost use Rattle.line_replies.specs.RunLaws.{described_line};
ghost use Rattle.json_replies.specs.BeginLines.{begin_copied};
ghost use Rattle.json_replies.specs.BeginReplies.{AskFor, AskInVain};

use crate::begin_line::BeginLine;
use crate::begin_refusal::BeginRefusal;
use crate::desk::{
    blank_puzzle, changed_puzzle, filled_puzzle, plain, thin_puzzle, thin_puzzle_by,
};
use crate::fair::fair_game;
use crate::shown::{ShownFacts, Shows};
use game_texts::Params;
use line_replies::{Draw, Facts, Refusal, Response, Text, begin_game};
use play_midend::Session;
use std::alloc::Global;
use trail_solver::Rules;

/// The game that a line asks for: its parameters and its puzzle. It takes no memory.
pub(crate) fn asked_game<P: Shows>(
    session: &Option<Session<P>>,
    asked: BeginLine<&[u8]>,
) -> Result<(Params, P), BeginRefusal>
    ensures asked { IfOk result (λ game. AskFor ⟦<P as Facts>⟧.facts ⟦<P as ShownFacts>⟧.board_facts
        session.now (begin_copied asked.entry) game.0 game.1) }
    ensures refused { IfErr result (AskInVain ⟦<P as Facts>⟧.facts ⟦<P as ShownFacts>⟧.board_facts
        session.now (begin_copied asked.entry)) }
    ensures params { IfOk result (λ game. IsParams P.letter_codes game.0) }
    ensures valid { IfOk result (λ game. P.valid game.1) }
    ensures size { IfOk result (λ game. game.0.size ≡ (P.puzzle game.1).size) }
{
    match asked {
        BeginLine::Fair(words) => fair_game(words),
        BeginLine::Blank(word) => Ok(plain(blank_puzzle(word)?)),
        BeginLine::Item(numbers) => Ok(plain(changed_puzzle(puzzle_of(session)?, numbers)?)),
        BeginLine::Thin => Ok(plain(thin_puzzle(puzzle_of(session)?))),
        BeginLine::ThinBy(word, first) => {
            Ok(plain(thin_puzzle_by(puzzle_of(session)?, word, first)?))
        }
        BeginLine::Fill => Ok(plain(filled_puzzle(puzzle_of(session)?)?)),
    }
}

// The puzzle of the session.
fn puzzle_of<P: Shows>(session: &Option<Session<P>>) -> Result<&P, BeginRefusal>
    ensures ok { IfOk result (λ puzzle. IsSomeAnd session.now (λ h. puzzle.now ≡ h.puzzle)) }
    ensures err { IfErr result (λ refusal. (session.now ≡ None) × (refusal ≡ BeginRefusal.NoGame)) }
{
    match session {
        Some(session) => Ok(session.puzzle()),
        None => Err(BeginRefusal::NoGame),
    }
}

/// Begins the game of a puzzle, as the line `new` with the puzzle's written form does.
pub(crate) fn begin_puzzle<P: Draw>(
    alloc: Global,
    session: &mut Option<Session<P>>,
    params: Params,
    puzzle: P,
) -> Result<Response, Refusal>
    requires params { IsParams P.letter_codes params }
    requires valid { P.valid puzzle }
    requires size { params.size ≡ (P.puzzle puzzle).size }
    ensures ok { IfOk result (λ answer. IsResponse
        (λ old line said new. LineGives ⟦<P as Facts>⟧.facts old line (Ok (said, new)))
        is_quit session.old (described_line ⟦<P as Facts>⟧.facts params puzzle) answer session.new) }
    ensures err { OnErr result (session.new ≡ session.old) }
    ensures why { IfErr result (λ refusal. LineGives ⟦<P as Facts>⟧.facts session.old
        (described_line ⟦<P as Facts>⟧.facts params puzzle) (Err refusal)) }
{
    *session = Some(begin_game(alloc, params, puzzle)?);
    Ok(Response::Reply(Text::line("ok")))
}
