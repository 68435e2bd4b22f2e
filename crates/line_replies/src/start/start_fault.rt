//! Why a first session is refused.

ghost use Rattle.std.specs.Prelude.{◌≡◌, ◌≤◌, length};
ghost use Rattle.line_replies.specs.StartFault.{start_fault_number, start_fault_name, start_fault_status, start_fault_line};

use crate::view::decimal_text::decimal_text;
use arrayvec::ArrayString;
use game_texts::IdFault;
use play_save::LoadFault;
use puzzle_gen::GenFault;
use thiserror::Error;

/// Why a first session is refused.
#[derive(Clone, Copy, Debug, PartialEq, Eq, Error)]
#[error("{}", self.name())]
pub enum StartFault {
    /// The game ID can't be read.
    Id(IdFault),
    /// The seeded game isn't made.
    Gen(GenFault),
    /// The file isn't a save of the game.
    Load(LoadFault),
    /// A growth was refused.
    OutOfMemory,
}

impl StartFault {
    /// The fault's number: 1 `Id`, 2 `Gen`, 3 `Load`, 4 `OutOfMemory`.
    pub fn number(&self) -> u8
        ensures { result ≡ start_fault_number self.now }
    {
        match self {
            StartFault::Id(_) => 1,
            StartFault::Gen(_) => 2,
            StartFault::Load(_) => 3,
            StartFault::OutOfMemory => 4,
        }
    }

    /// The name of the fault inside.
    pub fn name(&self) -> &'static str
        ensures { result.now ≡ start_fault_name self.now }
    {
        match self {
            StartFault::Id(fault) => fault.name(),
            StartFault::Gen(fault) => fault.name(),
            StartFault::Load(fault) => fault.name(),
            StartFault::OutOfMemory => "OutOfMemory",
        }
    }

    /// The status that the program ends with: 3, or 1 where memory is refused.
    pub fn status(&self) -> u8
        ensures { result ≡ start_fault_status self.now }
    {
        match self {
            StartFault::Id(_) | StartFault::Gen(_) | StartFault::Load(_) => 3,
            StartFault::OutOfMemory => 1,
        }
    }

    /// The program's line on standard error, without the LF: `refused: ` and the name, for `BadState` with a
    /// space and its index, or `out of memory`.
    pub fn fault_line(&self) -> ArrayString<40>
        ensures { result.bytes ≡ start_fault_line self.now }
    {
        let mut line = ArrayString::new();
        if let StartFault::OutOfMemory = self {
            line.push_str("out of memory");
            return line;
        }
        line.push_str("refused: ");
        line.push_str(self.short_name());
        if let StartFault::Load(LoadFault::BadState(index)) = self {
            line.push_str(" ");
            line.push_str(&decimal_text(*index as usize));
        }
        line
    }

    // The name, which is short enough for the line.
    pub(crate) fn short_name(&self) -> &'static str
        ensures name { result.now ≡ start_fault_name self.now }
        ensures short { length result.now ≤ 13 }
    {
        self.name()
    }
}

impl From<IdFault> for StartFault {
    ghost use Rattle.std.specs.Prelude.{◌≡◌};
    ghost use Rattle.line_replies.specs.NewSessions.{id_refusal};

    ghost from_gives = { λ fault start. start ≡ id_refusal fault };

    fn from(fault: IdFault) -> StartFault {
        match fault {
            IdFault::OutOfMemory => StartFault::OutOfMemory,
            fault => StartFault::Id(fault),
        }
    }
}

impl From<GenFault> for StartFault {
    ghost use Rattle.std.specs.Prelude.{◌≡◌};
    ghost use Rattle.line_replies.specs.declared.start.start_fault.StartFault.TheVariants.{Gen};

    ghost from_gives = { λ fault start. start ≡ Gen fault };

    fn from(fault: GenFault) -> StartFault {
        StartFault::Gen(fault)
    }
}

impl From<LoadFault> for StartFault {
    ghost use Rattle.std.specs.Prelude.{◌≡◌};
    ghost use Rattle.line_replies.specs.Starts.{load_refusal};

    ghost from_gives = { λ fault start. start ≡ load_refusal fault };

    fn from(fault: LoadFault) -> StartFault {
        match fault {
            LoadFault::OutOfMemory => StartFault::OutOfMemory,
            fault => StartFault::Load(fault),
        }
    }
}
