//! How a run ends.

ghost use Rattle.std.specs.Prelude.{◌≡◌};
ghost use Rattle.puzzle_cli.specs.End.{end_number, end_name, end_status, end_fault_line};

use arrayvec::ArrayString;
use thiserror::Error;

/// How a run ended.
#[derive(Clone, Copy, Debug, PartialEq, Eq, Error)]
#[error("{}", self.name())]
pub enum End {
    /// The input was at its end, or a line was `quit`.
    Finished,
    /// A read failed, or 1,000,000,000 bytes were read and neither the end nor `quit` had been met.
    ReadFault,
    /// A write or a flush failed, or a write took no byte.
    WriteFault,
}

impl End {
    /// The end's number: 1 `Finished`, 2 `ReadFault`, 3 `WriteFault`.
    pub fn number(&self) -> u8
        ensures { result ≡ end_number self.now }
    {
        match self {
            End::Finished => 1,
            End::ReadFault => 2,
            End::WriteFault => 3,
        }
    }

    /// The end's name.
    pub fn name(&self) -> &'static str
        ensures { result.now ≡ end_name self.now }
    {
        match self {
            End::Finished => "Finished",
            End::ReadFault => "ReadFault",
            End::WriteFault => "WriteFault",
        }
    }

    /// The status that the program ends with: 0, or 1 for a fault of a device.
    pub fn status(&self) -> u8
        ensures { result ≡ end_status self.now }
    {
        match self {
            End::Finished => 0,
            End::ReadFault | End::WriteFault => 1,
        }
    }

    /// The program's line on standard error, without the LF; nothing at `Finished`.
    pub fn fault_line(&self) -> ArrayString<40>
        ensures { result.bytes ≡ end_fault_line self.now }
    {
        let words = match self {
            End::Finished => "",
            End::ReadFault => "cannot read the input",
            End::WriteFault => "cannot write the output",
        };
        let mut line = ArrayString::new();
        line.push_str(words);
        line
    }
}
