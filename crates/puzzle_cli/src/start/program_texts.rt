//! The texts of a program's help and version.

use crate::start::help::MORE_HELP;

/// The texts of a program in its help and its version. The command line is the same for each program.
#[derive(Clone, Copy)]
pub struct ProgramTexts {
    /// The program's name.
    pub name: &'static str,
    /// A line that says what it is.
    pub about: &'static str,
    /// The text below the options.
    pub more_help: &'static str,
}

/// The texts of the program `puzzles`.
pub const PUZZLES: ProgramTexts = ProgramTexts {
    name: "puzzles",
    about: "Towers and Unequal, two puzzles played by commands, one a line, from standard input",
    more_help: MORE_HELP,
};
