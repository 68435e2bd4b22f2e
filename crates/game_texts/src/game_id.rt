//! Game IDs: parameters with the description of a puzzle, or with a seed for one.

ghost use Rattle.std.specs.Prelude.{◌≡◌, Ok, Err, IfOk, Result};
ghost use Rattle.byte_text.specs.Reading.{Gives};
ghost use Rattle.game_texts.specs.declared.game_id.GameId.{GameId};
ghost use Rattle.game_texts.specs.GameIds.{IsIdText, id_at, describes_at, is_separator, params_part, from_separator, id_parts_at, id_map};
ghost use Rattle.game_texts.specs.IdFaults.{NotForMemory};
ghost use Rattle.game_texts.specs.Parameters.{has_adjacent_mode};

use crate::game::Game;
use crate::id_fault::IdFault;
use crate::params::{Params, has_adjacent_mode, read_params};
use byte_text::number;

/// A game ID: the parameters with a puzzle of their size, or with the seed of one.
#[derive(Clone, Copy, Debug, PartialEq, Eq, Drop)]
pub enum GameId<P> {
    /// The parameters and the puzzle that the ID describes.
    Described(Params, P),
    /// The parameters and the seed of a puzzle.
    Seeded(Params, u64),
}

/// The ID that the text says, of the game `P`.
///
/// The refusals are, the first that applies: those of `Params::read` on what stands before the first `:`, `#` or `!`;
/// `ForeignSeed` after `#`; `NoDescription` where none of these stands; `BadSeed`; those of `Game::read_desc`. It takes no
/// memory, so `OutOfMemory` is never among them.
pub fn read_id<P: Game>(text: &[u8]) -> Result<GameId<P>, IdFault>
    ensures value { result ≡ id_at P.letter_codes (has_adjacent_mode P.title) P.desc_at text.now }
    ensures found { IfOk result (λ id.
        IsIdText P.letter_codes (describes_at P.puzzle P.valid P.describes) id text.now) }
    ensures only { (id : GameId P)
        → IsIdText P.letter_codes (describes_at P.puzzle P.valid P.describes) id text.now
        → result ≡ Ok id }
    ensures not_for_memory { NotForMemory result }
{
    parse_id(text)
}

// Apart from `read_id`, so that `id_at` is opened here alone: there its laws say what it is.
#[tactic(auto, unfolding(crate::specs::GameIds::id_at))]
fn parse_id<P: Game>(text: &[u8]) -> Result<GameId<P>, IdFault>
    ensures { result ≡ id_at P.letter_codes (has_adjacent_mode P.title) P.desc_at text.now }
{
    match read_id_parts(P::letters(), has_adjacent_mode(P::name()), text) {
        Ok(GameId::Described(params, description)) => {
            let puzzle = P::read_desc(params.size, description)?;
            Ok(GameId::Described(params, puzzle))
        }
        Ok(GameId::Seeded(params, seed)) => Ok(GameId::Seeded(params, seed)),
        Err(fault) => Err(fault),
    }
}

/// The ID that the text says, with its description as a text, of a game with these letters.
///
/// Refused, in this order, as the parameters are, `ForeignSeed` where the separator is `#`, `NoDescription` where there
/// is none, and `BadSeed`. The description isn't read.
#[tactic(auto, unfolding(crate::specs::GameIds::id_parts_at))]
pub(crate) fn read_id_parts<'a>(
    letters: &str,
    has_adjacent: bool,
    text: &'a [u8],
) -> Result<GameId<&'a [u8]>, IdFault>
    ensures { Gives (λ id. id_map (λ r. r.now) id) result
        (id_parts_at letters.now has_adjacent text.now) }
{
    let (front, back) = split_at_separator(text);
    let params = read_params(letters, has_adjacent, front)?;
    match back {
        [] => Err(IdFault::NoDescription),
        [b'#', ..] => Err(IdFault::ForeignSeed),
        [b'!', seed @ ..] => {
            let seed = number(seed, u64::MAX).ok_or(IdFault::BadSeed)?;
            Ok(GameId::Seeded(params, seed))
        }
        [_, description @ ..] => Ok(GameId::Described(params, description)),
    }
}

// The bytes before the first separator, and those from it on.
fn split_at_separator(text: &[u8]) -> (&[u8], &[u8])
    ensures front { result.0.now ≡ params_part text.now }
    ensures back { result.1.now ≡ from_separator text.now }
{
    for (place, byte) in text.iter().enumerate() {
        if is_separator(*byte) {
            return text.split_at(place);
        }
    }
    text.split_at(text.len())
}

// Whether the byte is `:`, `#` or `!`.
fn is_separator(byte: u8) -> bool
    ensures { result ≡ is_separator byte }
{
    matches!(byte, b':' | b'#' | b'!')
}
