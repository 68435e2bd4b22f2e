//! The parameters of a game: a size, and a difficulty letter or none.

ghost use Rattle.std.specs.Prelude.{◌≡◌, List, ℕ, Contains, Result, Ok, Err, IfOk, IfSome};
ghost use Rattle.game_texts.specs.Parameters.{IsParamText, letter_at, has_adjacent_mode, behind_size, params_at};

use crate::game::Game;
use crate::id_fault::IdFault;
use arrayvec::ArrayVec;
use byte_text::begins_with_digit;
use latin_board::Size;

/// The parameters of a game. The letter is kept and written, and has no other effect.
#[derive(Clone, Copy, Debug, PartialEq, Eq)]
pub struct Params {
    /// The width of the grid.
    pub size: Size,
    /// The difficulty letter, where there is one.
    pub letter: Option<u8>,
}

impl Params {
    /// The parameters that the text says, of the game `P`.
    ///
    /// Refused, in this order, as `BadSize`, `AdjacentMode` where the game has that mode, `BadLetter`, `BadParams`.
    pub fn read<P: Game>(text: &[u8]) -> Result<Params, IdFault>
        ensures value { result ≡ params_at P.letter_codes (has_adjacent_mode P.title) text.now }
        ensures found { IfOk result (λ p. IsParamText P.letter_codes p text.now) }
        ensures only { (p : Params) → IsParamText P.letter_codes p text.now → result ≡ Ok p }
    {
        read_params(P::letters(), has_adjacent_mode(P::name()), text)
    }

    ghost use Rattle.std.specs.Prelude.{◌≡◌, List, ℕ, Contains, IfSome};
    ghost use Rattle.game_texts.specs.Parameters.{params_text, IsParamText};

    /// The text of the parameters: the size, and `d` and the letter where there is one.
    pub fn write(&self) -> ArrayVec<u8, 3>
        ensures written { result.items ≡ params_text self.now }
        ensures readable { (letters : List ℕ)
            → IfSome self.now.letter (λ letter. Contains letters letter)
            → IsParamText letters self.now result.items }
    {
        let mut text = ArrayVec::new();
        text.push(b'0' + self.size.get());
        if let Some(letter) = self.letter {
            text.push(b'd');
            text.push(letter);
        }
        text
    }
}

/// Whether the collection's game of this name has an adjacent mode, which isn't supported here: Unequal alone has one.
pub(crate) fn has_adjacent_mode(name: &str) -> bool
    ensures { result ≡ has_adjacent_mode name.now }
{
    name == "Unequal"
}

/// The parameters that the text says, of a game with these letters.
///
/// Refused, in this order, as `BadSize`, `AdjacentMode` where the game has that mode, `BadLetter`, `BadParams`.
#[tactic(auto, unfolding(crate::specs::Parameters::params_at))]
pub(crate) fn read_params(letters: &str, has_adjacent: bool, text: &[u8]) -> Result<Params, IdFault>
    ensures { result ≡ params_at letters.now has_adjacent text.now }
{
    let [digit, rest @ ..] = text else {
        return Err(IdFault::BadSize);
    };
    if begins_with_digit(rest) {
        return Err(IdFault::BadSize);
    }
    let size = Size::new(digit.wrapping_sub(b'0')).ok_or(IdFault::BadSize)?;
    read_behind_size(letters, has_adjacent, size, rest)
}

// The parameters of a size, by what stands after it.
fn read_behind_size(
    letters: &str,
    has_adjacent: bool,
    size: Size,
    rest: &[u8],
) -> Result<Params, IdFault>
    ensures { result ≡ behind_size letters.now has_adjacent size rest.now }
{
    match rest {
        [] => Ok(Params { size, letter: None }),
        [b'a', ..] if has_adjacent => Err(IdFault::AdjacentMode),
        [b'd', after @ ..] => read_letter(letters, size, after),
        _ => Err(IdFault::BadParams),
    }
}

// The parameters of a size, by what stands after the `d`.
fn read_letter(letters: &str, size: Size, text: &[u8]) -> Result<Params, IdFault>
    ensures { result ≡ letter_at letters.now size text.now }
{
    match text {
        [letter, more @ ..] if letters.as_bytes().contains(letter) => {
            if !more.is_empty() {
                return Err(IdFault::BadParams);
            }
            Ok(Params {
                size,
                letter: Some(*letter),
            })
        }
        _ => Err(IdFault::BadLetter),
    }
}
