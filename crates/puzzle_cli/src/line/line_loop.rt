//! The loop of a run: bytes are read, cut into lines, and each line is answered by a machine.

ghost use Rattle.std.specs.Prelude.{◌≡◌, ◌≢◌, ℕ, ◌+◌, ◌≤◌, ◌∷◌, [], Some, false, length, take, is_err, is_some, IfOk, OnOk, OnErr};
ghost use Rattle.std.specs.Option.{option_copied};
ghost use Rattle.std.specs.Io.KnownBytes.{Appends, Consumes, IsAtEnd, Keeps};
ghost use Rattle.puzzle_io.specs.Device.{IsPassedOn};
ghost use Rattle.line_replies.specs.Lines.{as_line};
ghost use Rattle.puzzle_cli.specs.Inner.LineBuffer.{ended_from, last_from};
ghost use Rattle.puzzle_cli.specs.Runs.{point_at, progress_at, Ends};
ghost use Rattle.puzzle_cli.specs.Inner.Steps.{ComeTo};

use crate::line::line_buffer::LineBuffer;
use crate::run_end::End;
use line_replies::{Machine, Response};
use puzzle_io::{DeviceFault, Sink, Source};
use std::alloc::Global;

/// The most bytes that a run reads.
pub(crate) const INPUT_BYTES: usize = 1_000_000_000;

/// The most bytes that are read at once.
const PIECE_BYTES: usize = 4_096;

/// How the run goes on after a step.
#[derive(Clone, Copy)]
enum Flow {
    /// The run goes on.
    More,
    /// A line was `quit`.
    Quit,
    /// A reply didn't go out.
    Unsent,
}

/// Answers the lines of the source, up to the first that quits, and writes each reply to the sink and flushes it.
///
/// Lines are cut and a run ends as [`run`](crate::run) says. Neither device has failed before.
pub fn run_machine<M: Machine, R: Source, W: Sink>(
    alloc: Global,
    machine: &mut M,
    source: &mut R,
    sink: &mut W,
) -> End
    requires source { R.has_failed source.old ≡ false }
    requires sink { W.has_failed sink.old ≡ false }
    ensures ends { Ends M.reply M.is_quit result
        (point_at R.Source W.Sink machine.old source.old sink.old)
        (point_at R.Source W.Sink machine.new source.new sink.new) }
    ensures flushed { W.flushed sink.old ≡ W.taken sink.old → result ≢ End.WriteFault
        → W.flushed sink.new ≡ W.taken sink.new }
{
    let mut line = LineBuffer::new();
    let mut piece = [0; PIECE_BYTES];
    let mut count = 0;
    while count < INPUT_BYTES {
        let room = PIECE_BYTES.min(INPUT_BYTES - count);
        let Ok(len) = read_piece(source, &mut piece, room) else {
            return End::ReadFault;
        };
        if len == 0 {
            return match end_line(alloc, &mut line, machine, sink) {
                Flow::Unsent => End::WriteFault,
                _ => End::Finished,
            };
        }
        count += len;
        match take_piece(alloc, &piece[..len], &mut line, machine, sink) {
            Flow::More => {}
            Flow::Quit => return End::Finished,
            Flow::Unsent => return End::WriteFault,
        }
    }
    End::ReadFault
}

/// Reads at most `room` bytes into the front of `piece`, none only at the end of the input.
fn read_piece<R: Source>(
    source: &mut R,
    piece: &mut [u8],
    room: usize,
) -> Result<usize, DeviceFault>
    requires some { 1 ≤ room }
    requires within { room ≤ length piece.old }
    ensures bound { IfOk result (λ n. n ≤ room) }
    ensures failed { R.has_failed source.new ≡ is_err result }
    ensures ok { IfOk result (λ n. Consumes (R.to_come source.old) (R.to_come source.new)
        (take n piece.new)) }
    ensures end { IfOk result (λ n. n ≡ 0 → IsAtEnd (R.to_come source.new)) }
    ensures err { OnErr result (Keeps (R.to_come source.old) (R.to_come source.new)) }
{
    source.read(&mut piece[..room])
}

/// Answers the lines that end in a piece, and keeps what stands after them.
fn take_piece<M: Machine, W: Sink>(
    alloc: Global,
    piece: &[u8],
    line: &mut LineBuffer,
    machine: &mut M,
    sink: &mut W,
) -> Flow
    requires { W.has_failed sink.old ≡ false }
    ensures goes { ComeTo M.reply M.is_quit result (ended_from line.old piece.now)
        (progress_at W.Sink machine.old sink.old) (progress_at W.Sink machine.new sink.new) }
    ensures line { result ≡ Flow.More → line.new ≡ last_from line.old piece.now }
    ensures flushed { W.flushed sink.old ≡ W.taken sink.old → result ≢ Flow.Unsent
        → W.flushed sink.new ≡ W.taken sink.new }
{
    for byte in piece {
        match take_byte(alloc, *byte, line, machine, sink) {
            Flow::More => {}
            stopped => return stopped,
        }
    }
    Flow::More
}

/// Answers the line where the byte is LF, which ends it, and keeps any other byte.
fn take_byte<M: Machine, W: Sink>(
    alloc: Global,
    byte: u8,
    line: &mut LineBuffer,
    machine: &mut M,
    sink: &mut W,
) -> Flow
    requires { W.has_failed sink.old ≡ false }
    ensures goes { ComeTo M.reply M.is_quit result (ended_from line.old (byte ∷ []))
        (progress_at W.Sink machine.old sink.old) (progress_at W.Sink machine.new sink.new) }
    ensures line { line.new ≡ last_from line.old (byte ∷ []) }
    ensures flushed { W.flushed sink.old ≡ W.taken sink.old → result ≢ Flow.Unsent
        → W.flushed sink.new ≡ W.taken sink.new }
{
    if byte == b'\n' {
        return end_line(alloc, line, machine, sink);
    }
    line.push(byte);
    Flow::More
}

/// Answers the line, and begins the next one.
fn end_line<M: Machine, W: Sink>(
    alloc: Global,
    line: &mut LineBuffer,
    machine: &mut M,
    sink: &mut W,
) -> Flow
    requires { W.has_failed sink.old ≡ false }
    ensures goes { ComeTo M.reply M.is_quit result (as_line line.old ∷ [])
        (progress_at W.Sink machine.old sink.old) (progress_at W.Sink machine.new sink.new) }
    ensures line { line.new ≡ Some [] }
    ensures flushed { W.flushed sink.old ≡ W.taken sink.old → result ≢ Flow.Unsent
        → W.flushed sink.new ≡ W.taken sink.new }
{
    let flow = answer_line(alloc, line.line(), machine, sink);
    line.clear();
    flow
}

/// Has the line answered, and sends its reply where it has one.
fn answer_line<M: Machine, W: Sink>(
    alloc: Global,
    line: Option<&[u8]>,
    machine: &mut M,
    sink: &mut W,
) -> Flow
    requires { W.has_failed sink.old ≡ false }
    ensures goes { ComeTo M.reply M.is_quit result (option_copied line.entry ∷ [])
        (progress_at W.Sink machine.old sink.old) (progress_at W.Sink machine.new sink.new) }
    ensures flushed { W.flushed sink.old ≡ W.taken sink.old → result ≢ Flow.Unsent
        → W.flushed sink.new ≡ W.taken sink.new }
{
    match machine.answer(alloc, line) {
        Response::Quit => return Flow::Quit,
        Response::Silence => return Flow::More,
        Response::Reply(text) => match send(sink, text.as_bytes()) {
            Ok(()) => return Flow::More,
            Err(_) => return Flow::Unsent,
        },
    }
}

/// Writes all the bytes, and flushes them.
fn send<W: Sink>(sink: &mut W, bytes: &[u8]) -> Result<(), DeviceFault>
    requires { W.has_failed sink.old ≡ false }
    ensures failed { W.has_failed sink.new ≡ is_err result }
    ensures flushed { OnOk result (IsPassedOn (W.flushed sink.new) (W.taken sink.new)) }
    ensures flushed_told { is_some (W.flushed sink.new) ≡ is_some (W.flushed sink.old) }
    ensures told { is_some (W.taken sink.new) ≡ is_some (W.taken sink.old) }
    ensures ok { OnOk result (Appends (W.taken sink.old) (W.taken sink.new) bytes.now) }
    ensures err { OnErr result ((count : ℕ) × Appends (W.taken sink.old) (W.taken sink.new)
        (take count bytes.now)) }
{
    let mut sent = 0;
    while sent < bytes.len() {
        let count = sink.write(&bytes[sent..])?;
        if count == 0 {
            return Err(DeviceFault::DeviceFault);
        }
        sent += count;
    }
    sink.flush()
}
