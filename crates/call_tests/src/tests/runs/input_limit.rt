//! An input without end: a run reads 1,000,000,000 bytes of it.

ghost use Rattle.std.specs.Prelude.{None, false};

use clue_rules::Towers;
use puzzle_cli::{End, run};
use puzzle_io::{DeviceFault, MemorySink, Source};
use std::alloc::Global;

// A source that gives the letter x for ever, counts them, and tells no bytes.
#[derive(Drop)]
struct Letters {
    given: usize,
}

impl Source for Letters {
    ghost to_come = { λ _. None };

    ghost has_failed = { λ _. false };

    fn read(&mut self, buffer: &mut [u8]) -> Result<usize, DeviceFault> {
        for byte in buffer.iter_mut() {
            *byte = b'x';
        }
        self.given = self.given.saturating_add(buffer.len());
        Ok(buffer.len())
    }
}

fn is_a_fault(alloc: Global, room: Vec<u8>) -> bool {
    let mut source = Letters { given: 0 };
    let mut sink = MemorySink::new(room, 64, 0);
    let (session, end) = run::<Towers, _, _>(alloc, None, &mut source, &mut sink);
    session.is_none()
        && end == End::ReadFault
        && sink.taken().is_empty()
        && source.given == 1_000_000_000
}

#[test]
fn an_input_without_end_is_a_fault(rt: HostRuntime) {
    assert!(rt; is_a_fault(rt.alloc(), Vec::new(rt.alloc())));
}
