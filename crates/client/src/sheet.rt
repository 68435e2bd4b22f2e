//! A sink that keeps what it takes, and tells nothing of its flushes.

use puzzle_io::{DeviceFault, Sink};
use std::alloc::Global;
use std::marker::Model;

/// The bytes that were taken. It fails where memory is refused.
#[derive(Drop, Debug)]
pub struct Sheet {
    bytes: Vec<u8>,
    failed: bool,
}

impl Model for Sheet {
    ghost use Rattle.client.specs.Devices.{SheetState};

    ghost Value = { SheetState };

    ghost view = { λ sheet. record { taken = sheet.bytes.items; failed = sheet.failed } };
}

impl Sheet {
    ghost use Rattle.std.specs.Prelude.{◌≡◌, [], false};

    /// A sink that has taken nothing.
    pub fn new(alloc: Global) -> Sheet
        ensures { result ≡ record { taken = []; failed = false } }
    {
        Sheet {
            bytes: Vec::new(alloc),
            failed: false,
        }
    }

    /// The bytes that were taken.
    pub fn taken(&self) -> &[u8]
        ensures { result.now ≡ self.now.taken }
    {
        &self.bytes
    }
}

impl Sink for Sheet {
    ghost use Rattle.std.specs.Prelude.{Some};

    ghost taken = { λ sheet. Some sheet.taken };

    ghost has_failed = { λ sheet. sheet.failed };

    fn write(&mut self, bytes: &[u8]) -> Result<usize, DeviceFault> {
        if self.failed {
            return Err(DeviceFault::DeviceFault);
        }
        match self.bytes.extend_from_slice(bytes) {
            Ok(()) => Ok(bytes.len()),
            Err(_) => {
                self.failed = true;
                Err(DeviceFault::DeviceFault)
            }
        }
    }

    fn flush(&mut self) -> Result<(), DeviceFault> {
        if self.failed {
            Err(DeviceFault::DeviceFault)
        } else {
            Ok(())
        }
    }
}
