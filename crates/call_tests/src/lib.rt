//! Tests of the lower crates: their calls with ample memory, each once at a worked value. Files are named for what they call.
//!
//! They stand apart from the crates, since a crate that has tests is proved twice: once by itself, and once with them.
#![tactic(auto)]

#[cfg(test)]
mod tests;
