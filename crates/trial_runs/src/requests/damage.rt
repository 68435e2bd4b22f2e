//! Damage to the text of a save.

use play_save::next_record;
use std::alloc::{AllocError, Global};

/// The bytes that each byte is changed to: ends of lines, what records and moves are made of, and some that stand in none.
static VALUES: [u8; 10] = [0, b'\n', b'\r', b' ', b'0', b'3', b':', b'H', b'S', 0xff];

/// A kind of damage, which makes many texts of one.
#[derive(Clone, Copy)]
pub(crate) enum Damage {
    Whole,
    ByteChanged,
    ByteLeftOut,
    ByteDoubled,
    CutOff,
    RecordLeftOut,
    RecordDoubled,
    RecordsExchanged,
}

/// All kinds, in their order.
pub(crate) static DAMAGES: [Damage; 8] = [
    Damage::Whole,
    Damage::ByteChanged,
    Damage::ByteLeftOut,
    Damage::ByteDoubled,
    Damage::CutOff,
    Damage::RecordLeftOut,
    Damage::RecordDoubled,
    Damage::RecordsExchanged,
];

/// A text and its records, each with the end of the line before it.
#[derive(Drop)]
pub(crate) struct SaveText<'a> {
    text: &'a [u8],
    records: Vec<&'a [u8]>,
}

impl<'a> SaveText<'a> {
    /// The text, with its records up to the first place where none can be read.
    pub(crate) fn new(alloc: Global, text: &'a [u8]) -> Result<SaveText<'a>, AllocError> {
        let mut records = Vec::new(alloc);
        let mut rest = text;
        for _ in 0..text.len() {
            let Ok(Some((_, behind))) = next_record(rest) else {
                break;
            };
            let length = rest.len().saturating_sub(behind.len());
            let Some(record) = rest.get(..length) else {
                break;
            };
            records.push(record)?;
            rest = behind;
        }
        Ok(SaveText { text, records })
    }
}

impl Damage {
    /// The damage in words.
    pub(crate) fn name(self) -> &'static str {
        match self {
            Damage::Whole => "the whole text",
            Damage::ByteChanged => "a byte changed",
            Damage::ByteLeftOut => "a byte left out",
            Damage::ByteDoubled => "a byte doubled",
            Damage::CutOff => "cut off",
            Damage::RecordLeftOut => "a record left out",
            Damage::RecordDoubled => "a record doubled",
            Damage::RecordsExchanged => "two records exchanged",
        }
    }

    /// Each text that the damage makes has a number below this.
    pub(crate) fn numbers(self, save: &SaveText) -> usize {
        let records = save.records.len();
        match self {
            Damage::Whole => 1,
            Damage::ByteChanged => save.text.len().saturating_mul(VALUES.len()),
            Damage::ByteLeftOut | Damage::ByteDoubled | Damage::CutOff => save.text.len(),
            Damage::RecordLeftOut | Damage::RecordDoubled => records,
            Damage::RecordsExchanged => records.saturating_mul(records),
        }
    }

    /// The text with this number. Of two numbers that would exchange the same records one has none.
    pub(crate) fn text(
        self,
        alloc: Global,
        save: &SaveText,
        number: usize,
    ) -> Result<Option<Vec<u8>>, AllocError> {
        let (text, records) = (save.text, save.records.as_slice());
        let next = number.saturating_add(1);
        match self {
            Damage::Whole => Ok(Some(text.to_vec(alloc)?)),
            Damage::ByteChanged => {
                let place = number / VALUES.len();
                let value = VALUES[number % VALUES.len()];
                with_bytes(alloc, text, place, &[value], place.saturating_add(1))
            }
            Damage::ByteLeftOut => with_bytes(alloc, text, number, &[], next),
            Damage::ByteDoubled => with_bytes(alloc, text, next, &[], number),
            Damage::CutOff => with_bytes(alloc, text, number, &[], text.len()),
            Damage::RecordLeftOut => with_records(alloc, records, number, next),
            Damage::RecordDoubled => with_records(alloc, records, next, number),
            Damage::RecordsExchanged => {
                let count = records.len().max(1);
                with_exchange(alloc, records, number / count, number % count)
            }
        }
    }
}

// The bytes in front of a place, some others, and the bytes from another place on.
fn with_bytes(
    alloc: Global,
    text: &[u8],
    front: usize,
    others: &[u8],
    from: usize,
) -> Result<Option<Vec<u8>>, AllocError> {
    match (text.get(..front), text.get(from..)) {
        (Some(front), Some(rest)) => Ok(Some(joined(alloc, &[front, others, rest])?)),
        _ => Ok(None),
    }
}

// The records in front of a place, and those from another place on.
fn with_records(
    alloc: Global,
    records: &[&[u8]],
    front: usize,
    from: usize,
) -> Result<Option<Vec<u8>>, AllocError> {
    match (records.get(..front), records.get(from..)) {
        (Some(front), Some(rest)) => {
            let mut text = joined(alloc, front)?;
            add_parts(&mut text, rest)?;
            Ok(Some(text))
        }
        _ => Ok(None),
    }
}

// The records with two exchanged, of which the first has to stand before the second.
fn with_exchange(
    alloc: Global,
    records: &[&[u8]],
    first: usize,
    second: usize,
) -> Result<Option<Vec<u8>>, AllocError> {
    if first >= second || second >= records.len() {
        return Ok(None);
    }
    let mut records = records.to_vec(alloc)?;
    records.swap(first, second);
    Ok(Some(joined(alloc, &records)?))
}

fn joined(alloc: Global, parts: &[&[u8]]) -> Result<Vec<u8>, AllocError> {
    let mut text = Vec::new(alloc);
    add_parts(&mut text, parts)?;
    Ok(text)
}

fn add_parts(text: &mut Vec<u8>, parts: &[&[u8]]) -> Result<(), AllocError> {
    for part in parts {
        text.extend_from_slice(part)?;
    }
    Ok(())
}
