//! Devices: where the commands of a game come from, and where its replies go.
//!
//! A [`Source`] gives bytes and a [`Sink`] takes them, in pieces of their own choice. Each tells in its contract which
//! bytes are to come, or were taken, or nothing of them, and whether it has failed. After a failure every call fails.
//!
//! [`FromRead`] and [`ToWrite`] stand over the readers and writers of `std` and tell nothing of the bytes. [`MemorySource`]
//! and [`MemorySink`] tell theirs and take no memory; they cut what they give and take into pieces, and fail at a chosen call.
//!
//! ```
//! let mut source = MemorySource::new(Vec::from_slice(alloc, b"undo\n")?, 2, 0);
//! let mut buffer = [0; 8];
//! assert_eq!(rt; source.read(&mut buffer), Ok(2));
//! assert_eq!(rt; buffer[..2], *b"un");
//! ```
#![tactic(auto)]

mod device;
mod from_read;
mod memory_sink;
mod memory_source;
mod pace;
mod to_write;

pub use device::{DeviceFault, Sink, Source};
pub use from_read::FromRead;
pub use memory_sink::MemorySink;
pub use memory_source::MemorySource;
pub use to_write::ToWrite;
