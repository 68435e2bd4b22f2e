//! The words of a command line, and what is said of them.

pub(crate) mod command_fault;
pub(crate) mod command_line;
pub(crate) mod help;
pub(crate) mod program_texts;
pub(crate) mod refused_words;
