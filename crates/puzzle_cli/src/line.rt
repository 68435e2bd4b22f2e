//! Lines: bytes are cut into lines, and each line is handed to a machine that answers it.

pub(crate) mod line_buffer;
pub(crate) mod line_loop;
pub(crate) mod session_machine;
