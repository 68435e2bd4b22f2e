//! Replies: what a line makes of a session, or of none, and what is said to it.

pub(crate) mod answers;
pub(crate) mod facts;
pub(crate) mod new_session;
pub(crate) mod refusal;
pub(crate) mod solution_list;
pub(crate) mod solve_reply;
pub(crate) mod text;
