//! Records: the pieces that a save file is made of.

ghost use Rattle.std.specs.Prelude.{◌≡◌, ℕ, ◌≤◌, List, Some, None, Ok, Err, Option, option_map, length, IfOk, IfErr, MatchOption};
ghost use Rattle.byte_text.specs.Reading.{Gives};
ghost use Rattle.byte_text.specs.Decimals.{digit_onto};
ghost use Rattle.play_save.specs.Records.{Entry, BeginsWith, AreBreaks, is_break, skip_breaks, unpadded, field_at};
ghost use Rattle.play_save.specs.Records.{length_at, value_behind, record_behind, record_at};
ghost use Rattle.play_save.specs.Views.{entry_of, entry_and_rest};

use crate::fault::LoadFault;
use byte_text::cut;

/// A record of a save file.
#[derive(Clone, Copy, Debug)]
pub struct Record<'a> {
    /// The key's name: the key without the blanks at its end.
    pub key: &'a [u8],
    /// The value, which may be any bytes.
    pub value: &'a [u8],
}

// LF or CR.
fn is_break(byte: u8) -> bool
    ensures { result ≡ is_break byte }
{
    matches!(byte, b'\n' | b'\r')
}

// The bytes without the line breaks in front.
fn without_breaks(bytes: &[u8]) -> &[u8]
    ensures { result.now ≡ skip_breaks bytes.now }
{
    let mut rest = bytes;
    while let [byte, after @ ..] = rest {
        if !is_break(*byte) {
            return rest;
        }
        rest = after;
    }
    rest
}

// The key without the blanks at its end.
fn name(key: &[u8]) -> &[u8]
    ensures { result.now ≡ unpadded key.now }
{
    let mut end = 0;
    for (place, byte) in key.iter().enumerate() {
        if *byte != b' ' {
            end = place + 1;
        }
    }
    &key[..end]
}

// The bytes before the first colon and those after it.
fn field(bytes: &[u8]) -> Option<(&[u8], &[u8])>
    ensures { option_map (λ parts. (parts.0.now, parts.1.now)) result ≡ field_at bytes.now }
{
    let (front, rest) = cut(bytes, b':');
    Some((front, rest?))
}

// The number with one more digit at its end; `None` if the byte is no digit, or above 99,999,999.
fn with_digit(n: u32, digit: u8) -> Option<u32>
    requires { n ≤ 99999999 }
    ensures { result ≡ digit_onto 99999999 n digit }
{
    if !digit.is_ascii_digit() {
        return None;
    }
    let more = n * 10 + u32::from(digit - b'0');
    if more <= 99_999_999 { Some(more) } else { None }
}

// The length of a value: 1 to 8 digits, leading zeros among them.
fn value_length(digits: &[u8]) -> Option<usize>
    ensures { result ≡ length_at digits.now }
{
    if digits.is_empty() || digits.len() > 8 {
        return None;
    }
    let mut n = 0;
    for digit in digits {
        n = with_digit(n, *digit)?;
    }
    Some(n as usize)
}

// A value after its length, and the rest.
fn value(bytes: &[u8]) -> Option<(&[u8], &[u8])>
    ensures { option_map (λ parts. (parts.0.now, parts.1.now)) result ≡ value_behind bytes.now }
{
    let (digits, rest) = field(bytes)?;
    let length = value_length(digits)?;
    if length > rest.len() {
        return None;
    }
    Some(rest.split_at(length))
}

// The record that begins with its key, and what follows it.
#[tactic(auto, unfolding(crate::specs::Records::record_behind))]
fn first_record(bytes: &[u8]) -> Option<(Record, &[u8])>
    ensures { option_map entry_and_rest result ≡ record_behind bytes.now }
{
    let (key, rest) = field(bytes)?;
    if key.len() != 8 {
        return None;
    }
    let (value, rest) = value(rest)?;
    Some((
        Record {
            key: name(key),
            value,
        },
        rest,
    ))
}

// The first record after line breaks and what follows it, `None` if no byte is left, or `Malformed`.
#[tactic(auto, unfolding(crate::specs::Records::record_at))]
fn read_record(bytes: &[u8]) -> Result<Option<(Record, &[u8])>, LoadFault>
    ensures { Gives (option_map entry_and_rest) result (record_at bytes.now) }
{
    let bytes = without_breaks(bytes);
    if bytes.is_empty() {
        return Ok(None);
    }
    match first_record(bytes) {
        Some(parts) => Ok(Some(parts)),
        None => Err(LoadFault::Malformed),
    }
}

/// The first record of the bytes and what follows it, or `None` where nothing but CR and LF is left.
///
/// A record is a key of eight bytes, none of them a colon and the first no CR or LF; a colon; the length of the value, 1 to 8
/// digits, which may begin with zeros; a colon; and that many bytes. CR and LF before a key are skipped.
///
/// `Malformed` where the bytes begin with no record.
pub fn next_record(bytes: &[u8]) -> Result<Option<(Record, &[u8])>, LoadFault>
    ensures value { Gives (option_map entry_and_rest) result (record_at bytes.now) }
    ensures found { IfOk result (λ o. MatchOption o (AreBreaks bytes.now)
        (λ p. BeginsWith (entry_of p.0) p.1.now bytes.now)) }
    ensures only { (e : Entry) (rest : List ℕ) → BeginsWith e rest bytes.now
        → Gives (option_map entry_and_rest) result (Ok (Some (e, rest))) }
    ensures end { AreBreaks bytes.now → Gives (option_map entry_and_rest) result (Ok None) }
    ensures fault { IfErr result (λ fault. fault ≡ LoadFault.Malformed) }
{
    read_record(bytes)
}
