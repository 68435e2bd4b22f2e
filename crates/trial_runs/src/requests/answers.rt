//! Answers to texts of saves, and what is kept of many of them.

use clue_rules::Game;
use play_midend::Session;
use play_save::{LoadFault, load, save};
use puzzle_cli::status_text;
use std::alloc::{AllocError, Global};

/// How many different answers there are: a text loads, and the refusals by their numbers.
const ANSWERS: usize = 15;

/// A digest of bytes: FNV-1a of 64 bits.
#[derive(Clone, Copy)]
struct Digest(u64);

impl Digest {
    fn new() -> Digest {
        Digest(0xcbf2_9ce4_8422_2325)
    }

    fn take(&mut self, text: &[u8]) {
        for byte in text {
            self.0 = (self.0 ^ u64::from(*byte)).wrapping_mul(0x100_0000_01b3);
        }
    }
}

/// The answer to a text: its number and name, and the answer in full. That is a refusal's name, with its index if it has one; or the
/// status of what was loaded, and its save.
#[derive(Drop)]
pub(crate) struct Answer {
    number: u8,
    name: &'static str,
    in_full: Vec<u8>,
}

impl Answer {
    /// The answer to a text.
    pub(crate) fn of<P: Game>(alloc: Global, text: &[u8]) -> Result<Answer, AllocError> {
        match load::<P>(alloc, text) {
            Ok(session) => Ok(Answer {
                number: 0,
                name: "loads",
                in_full: status_and_save(alloc, &session)?,
            }),
            Err(fault) => Ok(Answer {
                number: fault.number(),
                name: fault.name(),
                in_full: refusal(alloc, fault)?,
            }),
        }
    }
}

// The name of a refusal as a line, with its index if it has one.
fn refusal(alloc: Global, fault: LoadFault) -> Result<Vec<u8>, AllocError> {
    let name = fault.name();
    match fault {
        LoadFault::BadState(index) => Ok(format!(in alloc; "{name} {index}\n")?.into_bytes()),
        _ => Ok(format!(in alloc; "{name}\n")?.into_bytes()),
    }
}

// The status of a session as a line, and its save.
fn status_and_save<P: Game>(alloc: Global, session: &Session<P>) -> Result<Vec<u8>, AllocError> {
    let mut text = Vec::new(alloc);
    text.extend_from_slice(status_text(session).as_bytes())?;
    text.push(b'\n')?;
    if let Ok(own) = save(alloc, session) {
        text.extend_from_slice(&own)?;
    }
    Ok(text)
}

/// A tally of answers: how many there were, a digest of them in order, and by its number each one's name and
/// how often it came.
#[derive(Drop)]
pub(crate) struct Tally {
    pub(crate) texts: u64,
    digest: Digest,
    pub(crate) counts: [(&'static str, u64); ANSWERS],
}

impl Tally {
    /// A tally of no answers.
    pub(crate) fn new() -> Tally {
        Tally {
            texts: 0,
            digest: Digest::new(),
            counts: [("", 0); ANSWERS],
        }
    }

    /// The digest of all answers in full.
    pub(crate) fn digest(&self) -> u64 {
        self.digest.0
    }

    /// Takes one more answer.
    pub(crate) fn take(&mut self, answer: &Answer) {
        self.texts = self.texts.saturating_add(1);
        self.digest.take(&answer.in_full);
        if let Some(count) = self.counts.get_mut(usize::from(answer.number)) {
            *count = (answer.name, count.1.saturating_add(1));
        }
    }
}
