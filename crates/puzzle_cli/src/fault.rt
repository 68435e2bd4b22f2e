//! Why the program ends before its work is done.

ghost use Rattle.std.specs.Prelude.{◌≡◌, ◌≤◌, length, option_map};
ghost use Rattle.puzzle_cli.specs.Faults.{fault_status, fault_line, fault_left_at};

use crate::run_end::End;
use crate::start::command_fault::CommandFault;
use arrayvec::ArrayString;
use line_replies::StartFault;

/// Why the program ends before its work is done.
#[derive(Drop)]
pub enum Fault {
    /// The command line gives no game.
    Words(CommandFault),
    /// The first session is refused.
    Start(StartFault),
    /// The file to load can't be read.
    LoadFile,
    /// The file to save to can't be written. Where the save stands all the same, it is this path.
    SaveFile(Option<String>),
    /// The input can't be read, or is too long.
    Input,
    /// The output can't be written.
    Output,
    /// A growth was refused.
    OutOfMemory,
}

impl Fault {
    /// The status that the program ends with: that of the fault inside, or 1.
    pub fn status(&self) -> u8
        ensures { result ≡ fault_status self.now }
    {
        match self {
            Fault::Words(fault) => fault.status(),
            Fault::Start(fault) => fault.status(),
            Fault::LoadFile
            | Fault::SaveFile(_)
            | Fault::Input
            | Fault::Output
            | Fault::OutOfMemory => 1,
        }
    }

    /// The line on standard error, without its LF. The text of a refused command line is no line of ours.
    pub fn line(&self) -> ArrayString<40>
        ensures { result.bytes ≡ fault_line self.now }
    {
        match self {
            Fault::Words(CommandFault::BadWords(_) | CommandFault::HelpAsked(_)) => line_of(""),
            Fault::Words(CommandFault::OutOfMemory) => line_of("out of memory"),
            Fault::Start(fault) => fault.fault_line(),
            Fault::LoadFile => line_of("cannot read the file"),
            Fault::SaveFile(_) => line_of("cannot write the file"),
            Fault::Input => End::ReadFault.fault_line(),
            Fault::Output => End::WriteFault.fault_line(),
            Fault::OutOfMemory => line_of("out of memory"),
        }
    }

    /// Where the save stands that couldn't be put into the file to save to, if it stands anywhere.
    pub fn left_at(&self) -> Option<&str>
        ensures { option_map (λ path. path.now) result ≡ fault_left_at self.now }
    {
        match self {
            Fault::SaveFile(Some(path)) => Some(path.as_str()),
            _ => None,
        }
    }
}

impl From<StartFault> for Fault {
    ghost use Rattle.std.specs.Prelude.{◌≡◌};
    ghost use Rattle.puzzle_cli.specs.declared.fault.Fault.TheVariants.{Start};

    ghost from_gives = { λ start fault. fault ≡ Start start };

    fn from(start: StartFault) -> Fault {
        Fault::Start(start)
    }
}

fn line_of(words: &str) -> ArrayString<40>
    requires { length words.now ≤ 40 }
    ensures { result.bytes ≡ words.now }
{
    let mut line = ArrayString::new();
    line.push_str(words);
    line
}
