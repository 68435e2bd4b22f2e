//! A machine that answers lines, as the loop over them sees it.

ghost use Rattle.std.specs.Prelude.{ℕ, Bool, Option, List};
ghost use Rattle.std.specs.Option.{option_copied};
ghost use Rattle.line_replies.specs.Machines.{IsResponse};

use crate::reply::text::Text;
use std::alloc::Global;

/// The most bytes that a line may have, its LF not counted.
pub const LINE_BYTES: usize = 1_024;

/// A machine's answer to a line.
#[derive(Drop)]
pub enum Response {
    /// The line is answered by this text.
    Reply(Text),
    /// The line has no reply.
    Silence,
    /// The line ends the run, and has no reply.
    Quit,
}

/// A machine that answers lines: it takes one at a time, and may be another one after each.
pub trait Machine {
    // The replies that may be given to a line, no bytes where it has none: the machine before, the line, the
    // bytes, the machine after.
    ghost reply: { Self → Option (List ℕ) → List ℕ → Self → Type 0 };

    // Whether a line ends the run.
    ghost is_quit: { Option (List ℕ) → Bool };

    /// The answer to a line, which comes without its LF and without one CR at its end; `None` is one that is
    /// too long. Where it is `Quit`, the machine stays as it was.
    fn answer(&mut self, alloc: Global, line: Option<&[u8]>) -> Response
        ensures { IsResponse reply is_quit self.old (option_copied line.entry) result self.new };
}
