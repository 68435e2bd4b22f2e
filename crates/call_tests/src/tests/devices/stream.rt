//! The devices over readers and writers of `std`: what they pass on, and that a failure is the last call.

ghost use Rattle.std.specs.Prelude.{◌≤◌, IfOk};

use crate::tests::rows::{Row, check};
use puzzle_io::{DeviceFault, FromRead, Sink, Source, ToWrite};
use std::alloc::Global;
use std::io;
use std::io::{ErrorKind, Read, Write};

const FAULT: DeviceFault = DeviceFault::DeviceFault;

// A reader and writer that answers each call by the next of its answers: so many bytes at most, or an error.
#[derive(Drop)]
struct Scripted<'a> {
    answers: &'a [Option<usize>],
    error: ErrorKind,
    calls: usize,
}

impl Scripted<'_> {
    fn answer(&mut self, room: usize) -> io::Result<usize>
        ensures { IfOk result (λ n. n ≤ room) }
    {
        let answer = self.answers.get(self.calls).copied().unwrap_or(Some(0));
        self.calls = self.calls.saturating_add(1);
        match answer {
            Some(count) => Ok(count.min(room)),
            None => Err(io::Error::from(self.error)),
        }
    }
}

impl Read for Scripted<'_> {
    fn read(&mut self, buffer: &mut [u8]) -> io::Result<usize> {
        self.answer(buffer.len())
    }
}

impl Write for Scripted<'_> {
    fn write(&mut self, bytes: &[u8]) -> io::Result<usize> {
        self.answer(bytes.len())
    }

    fn flush(&mut self) -> io::Result<()> {
        let _ = self.answer(0)?;
        Ok(())
    }
}

#[test]
fn bytes_come_and_go_in_order(rt: HostRuntime) {
    let mut reader = b"abcde".as_slice();
    let mut source = FromRead::new(&mut reader);
    let mut buffer = [0u8; 3];
    assert!(rt; source.read(&mut buffer) == Ok(3) && buffer == *b"abc");
    assert!(rt; source.read(&mut buffer) == Ok(2) && buffer == *b"dec");
    assert!(rt; source.read(&mut buffer) == Ok(0));
    let mut written = Vec::new(rt.alloc());
    let mut sink = ToWrite::new(&mut written);
    assert!(rt;
        sink.write(b"abc") == Ok(3) && sink.flush() == Ok(()) && sink.write(b"de") == Ok(2)
    );
    assert!(rt; written.as_slice() == b"abcde".as_slice());
}

// A reader's error after its first read, an interruption too: the reader is left alone then.
struct FailedRead(ErrorKind);

impl Row for FailedRead {
    fn holds(&self, _alloc: Global) -> bool {
        let mut reader = Scripted {
            answers: &[Some(2), None, Some(2)],
            error: self.0,
            calls: 0,
        };
        let mut source = FromRead::new(&mut reader);
        let is_last = source.read(&mut [0; 4]) == Ok(2)
            && source.read(&mut [0; 4]) == Err(FAULT)
            && source.read(&mut [0; 4]) == Err(FAULT);
        is_last && reader.calls == 2
    }
}

#[test]
fn a_read_that_failed_is_the_last(rt: HostRuntime) {
    const ROWS: &[FailedRead] = &[
        FailedRead(ErrorKind::Interrupted),
        FailedRead(ErrorKind::Other),
    ];
    check(&rt, rt.alloc(), ROWS);
}

// The bytes that are written first, a writer's answers, how many calls it gets, and the outcomes of that
// write, a flush and one more write.
struct FailedWrite(
    &'static [u8],
    &'static [Option<usize>],
    usize,
    Result<usize, DeviceFault>,
    bool,
    Result<usize, DeviceFault>,
);

impl Row for FailedWrite {
    fn holds(&self, _alloc: Global) -> bool {
        let mut writer = Scripted {
            answers: self.1,
            error: ErrorKind::Interrupted,
            calls: 0,
        };
        let mut sink = ToWrite::new(&mut writer);
        let is_so = sink.write(self.0) == self.3
            && sink.flush().is_ok() == self.4
            && sink.write(b"abcd") == self.5;
        is_so && writer.calls == self.2
    }
}

// Of no bytes 0 are taken without a fault, and such a write may fail, too.
#[test]
fn a_write_or_flush_that_failed_is_the_last(rt: HostRuntime) {
    const ABCD: &[u8] = b"abcd";
    const ROWS: &[FailedWrite] = &[
        FailedWrite(ABCD, &[Some(3), Some(0), Some(1)], 3, Ok(3), true, Ok(1)),
        FailedWrite(ABCD, &[None], 1, Err(FAULT), false, Err(FAULT)),
        FailedWrite(ABCD, &[Some(3), None], 2, Ok(3), false, Err(FAULT)),
        FailedWrite(ABCD, &[Some(0)], 1, Ok(0), false, Err(FAULT)),
        FailedWrite(b"", &[Some(0), Some(0), Some(1)], 3, Ok(0), true, Ok(1)),
        FailedWrite(b"", &[None], 1, Err(FAULT), false, Err(FAULT)),
    ];
    check(&rt, rt.alloc(), ROWS);
}

// However many calls there were, and however long they are: where std answers each by a success, so does the device.
#[test]
fn a_device_fails_by_itself_never(rt: HostRuntime) {
    let mut source = FromRead::new(io::repeat(b'x'));
    let mut sink = ToWrite::new(io::sink());
    let mut buffer = [0u8; 5_000];
    for _ in 0..3_000 {
        assert!(rt; source.read(&mut buffer) == Ok(5_000) && source.read(&mut []) == Ok(0));
        assert!(rt; sink.write(&buffer) == Ok(5_000) && sink.flush() == Ok(()));
    }
}
