//! The session that a game ID begins.
ghost use Rattle.std.specs.Prelude.{◌≡◌, Ok, Err, IfOk, IfErr};
ghost use Rattle.line_replies.specs.GameFacts.{undrawn_facts};
ghost use Rattle.line_replies.specs.NewSessions.{no_extras, new_game, TextBegins, IsStartRefusal};

use crate::start::start_fault::StartFault;
use game_texts::{Game, GameId, Params, read_id};
use play_midend::{Extras, Session};
use puzzle_gen::generate;
use std::alloc::Global;

/// The new session of a game ID: of the puzzle that is described, or of the one that is generated from the seed.
///
/// Refused as `read_id` refuses the text, then as `generate` refuses the seed; `OutOfMemory`.
pub(crate) fn new_session<P: Game>(alloc: Global, id: &[u8]) -> Result<Session<P>, StartFault>
    ensures ok { IfOk result (λ session. TextBegins (undrawn_facts P.Rules P.Game.own) id.now (Ok session)) }
    ensures why { IfErr result (IsStartRefusal (TextBegins (undrawn_facts P.Rules P.Game.own) id.now)) }
{
    let (params, puzzle) = read_game(id)?;
    begin_game(alloc, params, puzzle)
}

// The parameters and the puzzle of a game ID. It takes no memory.
fn read_game<P: Game>(id: &[u8]) -> Result<(Params, P), StartFault>
    ensures ok { IfOk result (λ game.
        TextBegins (undrawn_facts P.Rules P.Game.own) id.now (Ok (new_game game.0 game.1))) }
    ensures size { IfOk result (λ game. game.0.size ≡ (P.puzzle game.1).size) }
    ensures err { IfErr result (λ fault. TextBegins (undrawn_facts P.Rules P.Game.own) id.now (Err fault)) }
{
    match read_id::<P>(id)? {
        GameId::Described(params, puzzle) => Ok((params, puzzle)),
        GameId::Seeded(params, seed) => Ok((params, generate(&params, seed)?)),
    }
}

/// A session at the start of a puzzle of the size of these parameters: the one that the line `new` with the puzzle's written form begins.
/// Nothing but memory refuses it.
pub fn begin_game<P: Game>(
    alloc: Global,
    params: Params,
    puzzle: P,
) -> Result<Session<P>, StartFault>
    requires { params.size ≡ (P.puzzle puzzle).size }
    ensures ok { IfOk result (λ session. session ≡ new_game params puzzle) }
    ensures why { IfErr result (λ fault. fault ≡ StartFault.OutOfMemory) }
{
    let next_params = params;
    Session::new(alloc, params, next_params, puzzle, no_extras()).map_err(
        |_| StartFault::OutOfMemory,
    )
}

fn no_extras() -> Extras
    ensures { result ≡ no_extras }
{
    Extras {
        seed: None,
        auxinfo: None,
        ui: None,
        time: None,
    }
}
