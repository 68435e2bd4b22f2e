//! Digits, and decimal numbers without leading zeros.

ghost use Rattle.std.specs.Prelude.{◌≡◌, ℕ, ◌≤◌, IfSome};
ghost use Rattle.std.specs.Fmt.{decimal};
ghost use Rattle.byte_text.specs.Decimals.{begins_digit, digit_onto, decimal_value};

/// Whether the first byte is a digit.
pub fn begins_with_digit(bytes: &[u8]) -> bool
    ensures { result ≡ begins_digit bytes.now }
{
    bytes.first().is_some_and(|b| b.is_ascii_digit())
}

fn with_digit(n: u64, digit: u8, greatest: u64) -> Option<u64>
    ensures { result ≡ digit_onto greatest n digit }
{
    if !digit.is_ascii_digit() {
        return None;
    }
    let more = n.checked_mul(10)?.checked_add(u64::from(digit - b'0'))?;
    if more <= greatest { Some(more) } else { None }
}

// Apart from `number`, so that `decimal_value` is opened here alone: there its laws say what it is.
#[tactic(auto, unfolding(crate::specs::Decimals::decimal_value))]
fn read_number(bytes: &[u8], greatest: u64) -> Option<u64>
    ensures { result ≡ decimal_value greatest bytes.now }
{
    if bytes.is_empty() || (bytes[0] == b'0' && bytes.len() > 1) {
        return None;
    }
    let mut n = 0;
    for digit in bytes {
        n = with_digit(n, *digit, greatest)?;
    }
    Some(n)
}

/// The number from 0 to `greatest` that `bytes` writes in decimal without leading zeros.
/// `None` where there is no such number: no digit, another byte, a leading zero, or a number above `greatest`.
#[tactic(auto, using(crate::proofs::DecimalLaws::reads))]
pub fn number(bytes: &[u8], greatest: u64) -> Option<u64>
    ensures value { result ≡ decimal_value greatest bytes.now }
    ensures found { IfSome result (λ n. (bytes.now ≡ decimal n) × (n ≤ greatest)) }
    ensures only { (n : ℕ) → n ≤ greatest → bytes.now ≡ decimal n → result ≡ Some n }
{
    read_number(bytes, greatest)
}
