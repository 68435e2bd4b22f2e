//! Texts of JSON: bytes as characters.

ghost use Rattle.std.specs.Prelude.{◌≡◌, IfOk, string_bytes};
ghost use Rattle.json_replies.specs.Texts.{latin_text};

use std::alloc::{AllocError, Global};

/// The text whose characters have the bytes as their codes.
#[tactic(auto, using(crate::proofs::ReplyLines::one_more_byte))]
pub(crate) fn latin_text(alloc: Global, bytes: &[u8]) -> Result<String, AllocError>
    ensures { IfOk result (λ text. string_bytes text ≡ latin_text bytes.now) }
{
    let mut text = String::with_capacity(alloc, bytes.len())?;
    for byte in bytes {
        text.push(char::from(*byte))?;
    }
    Ok(text)
}
