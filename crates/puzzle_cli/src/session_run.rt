//! The run of a session: lines come in, and their replies go out.
ghost use Rattle.std.specs.Prelude.{◌≡◌, ◌≢◌, false};
ghost use Rattle.line_replies.specs.Commands.{is_quit};
ghost use Rattle.line_replies.specs.Replies.{Reply};
ghost use Rattle.line_replies.specs.RunLaws.{IsNoneOrStorable};
ghost use Rattle.puzzle_cli.specs.Runs.{point_at, Ends};

use crate::line::line_loop::run_machine;
use crate::line::session_machine::SessionMachine;
use crate::run_end::End;
use line_replies::{Draw, Facts, Format, Plain};
use play_midend::Session;
use puzzle_io::{Sink, Source};
use std::alloc::Global;

/// Answers the lines of the source in turn, up to `quit`, and gives back the session that they left.
///
/// It begins with the session, or with none. Each reply is made whole, written and flushed before the next line is looked
/// at: the contract says so of the end alone, and tests of each line. A line ends with LF, or at the end of the input, and loses
/// one CR at its end; an empty one has no reply, and one of more than 1,024 bytes is refused as `LongLine`.
///
/// `Finished` where the input is at its end or a line was `quit`. `ReadFault` where a read fails, or 1,000,000,000 bytes were
/// read and neither had come: a line that has not ended then has no reply. `WriteFault` where a write or a flush fails, or a
/// write takes no byte: the session is the one after the command whose reply failed.
///
/// Where the session can be stored, or there is none, so it is at the end. Where all that the sink had taken was flushed before,
/// so it is at the end, `WriteFault` apart.
///
/// Neither device has failed before.
pub fn run<P: Draw, R: Source, W: Sink>(
    alloc: Global,
    session: Option<Session<P>>,
    source: &mut R,
    sink: &mut W,
) -> (Option<Session<P>>, End)
    requires source { R.has_failed source.old ≡ false }
    requires sink { W.has_failed sink.old ≡ false }
    ensures storable { IsNoneOrStorable ⟦<P as Facts>⟧.facts session
        → IsNoneOrStorable ⟦<P as Facts>⟧.facts result.0 }
    ensures ends { Ends (Reply ⟦<P as Facts>⟧.facts) is_quit result.1
        (point_at R.Source W.Sink session source.old sink.old)
        (point_at R.Source W.Sink result.0 source.new sink.new) }
    ensures flushed { W.flushed sink.old ≡ W.taken sink.old → result.1 ≢ End.WriteFault
        → W.flushed sink.new ≡ W.taken sink.new }
{
    run_with::<Plain, P, R, W>(alloc, session, source, sink)
}

/// Answers the lines of the source in any format, as [`run`] does in the format [`Plain`].
///
/// Neither device has failed before.
pub fn run_with<T: Format<P>, P: Draw, R: Source, W: Sink>(
    alloc: Global,
    session: Option<Session<P>>,
    source: &mut R,
    sink: &mut W,
) -> (Option<Session<P>>, End)
    requires source { R.has_failed source.old ≡ false }
    requires sink { W.has_failed sink.old ≡ false }
    ensures storable { IsNoneOrStorable ⟦<P as Facts>⟧.facts session
        → IsNoneOrStorable ⟦<P as Facts>⟧.facts result.0 }
    ensures ends { Ends T.reply is_quit result.1
        (point_at R.Source W.Sink session source.old sink.old)
        (point_at R.Source W.Sink result.0 source.new sink.new) }
    ensures flushed { W.flushed sink.old ≡ W.taken sink.old → result.1 ≢ End.WriteFault
        → W.flushed sink.new ≡ W.taken sink.new }
{
    let mut machine = SessionMachine::<T, P>::new(session);
    let end = run_machine(alloc, &mut machine, source, sink);
    (machine.into_session(), end)
}
