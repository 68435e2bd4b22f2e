//! The views of a board as texts: pencil marks, done clues, the status.

pub(crate) mod decimal_text;
pub(crate) mod done_clues;
pub(crate) mod id;
pub(crate) mod pencil_marks;
pub(crate) mod status;
