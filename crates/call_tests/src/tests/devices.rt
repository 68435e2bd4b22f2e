//! Devices at worked bytes, and at failures.

mod memory;
mod stream;
