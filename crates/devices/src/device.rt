//! Devices: what a run reads from and writes to.

ghost use Rattle.std.specs.Prelude.{◌≡◌, ◌<◌, ◌≤◌, ◌+◌, ◌%◌, ◌^◌, ℕ, List, length, Option, IfOk};
ghost use Rattle.std.specs.Io.KnownBytes.{ReadConsumes, WriteAppends};
ghost use Rattle.devices.specs.Devices.{Counts};

use std::io::{Read, Write};

/// A call to a device failed, and the device neither gave nor took anything.
#[derive(Clone, Copy, Debug, PartialEq, Eq)]
pub struct Failed;

/// A device that a run reads from.
pub trait Source {
    /// The bytes that are still to come, if they are known.
    ghost remaining: { Self → Option (List ℕ) };

    /// How often it has failed.
    ghost failed: { Self → ℕ };

    /// Reads into the front of the buffer and returns the number of bytes. 0 is the end, unless the buffer is empty.
    fn read(&mut self, buffer: &mut [u8]) -> Result<usize, Failed>
        ensures bound { IfOk result (λ n. n ≤ length buffer.new) }
        ensures bytes { ReadConsumes (remaining self.old) (remaining self.new) result buffer.new }
        ensures failures { Counts (failed self.old) (failed self.new) result };

    /// Returns how often a call has failed, wrapping.
    fn failures(&self) -> u64
        ensures { result ≡ failed self.now };
}

/// A device that a run writes to.
pub trait Sink {
    /// The bytes that it has been given, if they are known.
    ghost contents: { Self → Option (List ℕ) };

    /// How often it has failed.
    ghost failed: { Self → ℕ };

    /// Writes bytes from the front and returns their number, at least 1 unless `bytes` is empty.
    fn write(&mut self, bytes: &[u8]) -> Result<usize, Failed>
        ensures bound { IfOk result (λ n. n ≤ length bytes.now) }
        ensures some { IfOk result (λ n. 0 < length bytes.now → 0 < n) }
        ensures bytes { WriteAppends (contents self.old) (contents self.new) result bytes.now }
        ensures failures { Counts (failed self.old) (failed self.new) result };

    /// Returns how often a call has failed, wrapping.
    fn failures(&self) -> u64
        ensures { result ≡ failed self.now };
}

/// A reader or a writer of std, with a count of its failures. Its bytes are known if those of the reader or writer are.
#[derive(Drop)]
pub struct Counted<D> {
    pub device: D,
    pub failures: u64,
}

impl<D> Counted<D> {
    /// Returns a device that has not failed yet.
    pub fn new(device: D) -> Counted<D>
        ensures device { result.device ≡ device }
        ensures failures { result.failures ≡ 0 }
    {
        Counted {
            device,
            failures: 0,
        }
    }
}

impl<D: Read> Source for Counted<D> {
    ghost remaining = { λ s. D.remaining s.device };

    ghost failed = { λ s. s.failures };

    fn read(&mut self, buffer: &mut [u8]) -> Result<usize, Failed> {
        match self.device.read(buffer) {
            Ok(n) => Ok(n),
            Err(_) => {
                self.failures = self.failures.wrapping_add(1);
                Err(Failed)
            }
        }
    }

    fn failures(&self) -> u64 {
        self.failures
    }
}

impl<D: Write> Sink for Counted<D> {
    ghost contents = { λ s. D.contents s.device };

    ghost failed = { λ s. s.failures };

    /// Writes bytes. A write of zero bytes counts as a failure, unless `bytes` is empty.
    fn write(&mut self, bytes: &[u8]) -> Result<usize, Failed> {
        match self.device.write(bytes) {
            Ok(n) if 0 < n || bytes.is_empty() => Ok(n),
            _ => {
                self.failures = self.failures.wrapping_add(1);
                Err(Failed)
            }
        }
    }

    fn failures(&self) -> u64 {
        self.failures
    }
}
