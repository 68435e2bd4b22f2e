//! Why a line is refused.

ghost use Rattle.std.specs.Prelude.{◌≡◌, ◌≤◌, length};
ghost use Rattle.line_replies.specs.Refusals.{refusal_name};

use crate::command::line_fault::LineFault;
use crate::start::start_fault::StartFault;
use latin_board::OutOfMemory;
use play_midend::PlayFault;

/// Why a line is refused.
#[derive(Clone, Copy)]
pub enum Refusal {
    /// The line is no command, or there is no session.
    Line(LineFault),
    /// The game ID begins no session.
    Start(StartFault),
    /// The session refuses.
    Play(PlayFault),
    /// A growth was refused, wherever it was.
    Memory,
}

impl Refusal {
    /// The word by which the refusal is told.
    pub fn name(&self) -> &'static str
        ensures name { result.now ≡ refusal_name self.now }
        ensures short { length result.now ≤ 16 }
    {
        match self {
            Refusal::Line(fault) => fault.name(),
            Refusal::Start(fault) => fault.short_name(),
            Refusal::Play(fault) => fault.name(),
            Refusal::Memory => OutOfMemory.name(),
        }
    }
}

impl From<LineFault> for Refusal {
    ghost use Rattle.std.specs.Prelude.{◌≡◌};
    ghost use Rattle.line_replies.specs.declared.reply.refusal.Refusal.TheVariants.{Line};

    ghost from_gives = { λ fault refusal. refusal ≡ Line fault };

    fn from(fault: LineFault) -> Refusal {
        Refusal::Line(fault)
    }
}

impl From<StartFault> for Refusal {
    ghost use Rattle.std.specs.Prelude.{◌≡◌};
    ghost use Rattle.line_replies.specs.Refusals.{start_refusal};

    ghost from_gives = { λ fault refusal. refusal ≡ start_refusal fault };

    fn from(fault: StartFault) -> Refusal {
        match fault {
            StartFault::OutOfMemory => Refusal::Memory,
            fault => Refusal::Start(fault),
        }
    }
}

impl From<PlayFault> for Refusal {
    ghost use Rattle.std.specs.Prelude.{◌≡◌};
    ghost use Rattle.line_replies.specs.Refusals.{play_refusal};

    ghost from_gives = { λ fault refusal. refusal ≡ play_refusal fault };

    fn from(fault: PlayFault) -> Refusal {
        match fault {
            PlayFault::OutOfMemory => Refusal::Memory,
            fault => Refusal::Play(fault),
        }
    }
}

impl From<OutOfMemory> for Refusal {
    ghost use Rattle.std.specs.Prelude.{◌≡◌};
    ghost use Rattle.line_replies.specs.declared.reply.refusal.Refusal.TheVariants.{Memory};

    ghost from_gives = { λ _ refusal. refusal ≡ Memory };

    fn from(_memory: OutOfMemory) -> Refusal {
        Refusal::Memory
    }
}
