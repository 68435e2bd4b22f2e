//! A text in pieces, cut at a separator byte.

ghost use Rattle.std.specs.Prelude.{◌≡◌, ◌==◌, ◌++◌, ◌∷◌, MatchOption, option_map, position};
ghost use Rattle.byte_text.specs.Cuts.{Lacks, before, behind};

// Where the first separator stands.
fn place_of(separator: u8, bytes: &[u8]) -> Option<usize>
    ensures { result ≡ position (λ b. b == separator) bytes.now }
{
    bytes.iter().position(|b| *b == separator)
}

/// The bytes before the first `separator`, and those after it where there is one.
#[tactic(auto, using(crate::proofs::CutLaws::cuts))]
pub fn cut(bytes: &[u8], separator: u8) -> (&[u8], Option<&[u8]>)
    ensures front { result.0.now ≡ before separator bytes.now }
    ensures rest { option_map (λ r. r.now) result.1 ≡ behind separator bytes.now }
    // It is the first separator at which the text is cut.
    ensures first { Lacks separator result.0.now }
    ensures parts { MatchOption result.1 (bytes.now ≡ result.0.now)
        (λ r. bytes.now ≡ result.0.now ++ separator ∷ r.now) }
{
    match place_of(separator, bytes) {
        Some(place) => (&bytes[..place], Some(&bytes[place + 1..])),
        None => (bytes, None),
    }
}
