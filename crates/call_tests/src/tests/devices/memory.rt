//! The devices over memory: pieces, room, and the call that fails.

use puzzle_io::{DeviceFault, MemorySink, MemorySource, Sink, Source};

const FAULT: DeviceFault = DeviceFault::DeviceFault;

#[test]
fn a_source_gives_pieces_to_its_end(rt: HostRuntime) {
    let input = Vec::from_slice(rt.alloc(), b"abcde").expect(&rt, "memory");
    let mut source = MemorySource::new(input, 3, 0);
    let mut buffer = [0u8; 4];
    assert!(rt; source.read(&mut buffer) == Ok(3) && buffer == *b"abc\0");
    assert!(rt; source.read(&mut buffer) == Ok(2) && buffer == *b"dec\0");
    assert!(rt; source.read(&mut buffer) == Ok(0));
}

#[test]
fn a_source_fails_from_its_call_on(rt: HostRuntime) {
    let input = Vec::from_slice(rt.alloc(), b"abcde").expect(&rt, "memory");
    let mut source = MemorySource::new(input, 3, 2);
    assert!(rt; source.read(&mut [0; 4]) == Ok(3));
    assert!(rt; source.read(&mut [0; 4]) == Err(FAULT));
    assert!(rt; source.read(&mut [0; 4]) == Err(FAULT));
}

#[test]
fn a_sink_takes_pieces_until_it_is_full(rt: HostRuntime) {
    let room = Vec::from_slice(rt.alloc(), b".....").expect(&rt, "memory");
    let mut sink = MemorySink::new(room, 3, 0);
    assert!(rt; sink.write(b"vwxyz+") == Ok(3) && sink.flush() == Ok(()));
    assert!(rt; sink.write(b"yz+") == Ok(2) && sink.write(b"+") == Err(FAULT));
    assert!(rt; sink.flush() == Err(FAULT) && sink.taken() == b"vwxyz".as_slice());
}

#[test]
fn a_sink_fails_from_its_call_on(rt: HostRuntime) {
    let room = Vec::from_slice(rt.alloc(), b".....").expect(&rt, "memory");
    let mut sink = MemorySink::new(room, 3, 2);
    assert!(rt; sink.write(b"vw") == Ok(2) && sink.flush() == Err(FAULT));
    assert!(rt; sink.write(b"x") == Err(FAULT) && sink.taken() == b"vw".as_slice());
}
