//! Runs without a session: over the client's devices, over those in memory, and over readers and writers of `std`.

use super::calls::{Said, copied};
use client::{Latin, Sheet, Tape};
use puzzle_cli::{End, run};
use puzzle_io::{FromRead, MemorySink, MemorySource, ToWrite};
use std::alloc::Global;

// The output, where the run ended as it should.
fn written(alloc: Global, bytes: &[u8], end: End) -> Said<Vec<u8>> {
    if end.status() == 0 && end.fault_line().is_empty() {
        copied(alloc, bytes)
    } else {
        Err(end.name())
    }
}

// From a tape to a sheet.
pub(crate) fn ran(alloc: Global, input: &str) -> Said<Vec<u8>> {
    let mut tape = Tape::of(input.as_bytes());
    let mut sheet = Sheet::new(alloc);
    let (_, end) = run::<Latin, _, _>(alloc, None, &mut tape, &mut sheet);
    written(alloc, sheet.taken(), end)
}

// From memory to memory, in pieces of three bytes, where the sink's call of this number fails.
pub(crate) fn ran_in_memory(alloc: Global, input: &str, fails_at: u64) -> Said<Vec<u8>> {
    let input = copied(alloc, input.as_bytes())?;
    let room = copied(alloc, &[0; 64])?;
    let mut source = MemorySource::new(input, 3, 0);
    let mut sink = MemorySink::new(room, 3, fails_at);
    let (_, end) = run::<Latin, _, _>(alloc, None, &mut source, &mut sink);
    written(alloc, sink.taken(), end)
}

// From a slice to a vector, as readers and writers of `std`.
pub(crate) fn ran_over_std(alloc: Global, input: &str) -> Said<Vec<u8>> {
    let mut reader = input.as_bytes();
    let mut taken = Vec::new(alloc);
    let mut source = FromRead::new(&mut reader);
    let mut sink = ToWrite::new(&mut taken);
    let (_, end) = run::<Latin, _, _>(alloc, None, &mut source, &mut sink);
    written(alloc, &taken, end)
}
