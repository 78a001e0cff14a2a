//! Devices that keep why they failed.

use std::io::{self, Read, Write};

/// A reader or a writer of std, with the error of its last failed call.
#[derive(Drop)]
pub struct WithError<D> {
    pub device: D,
    pub error: Option<io::Error>,
}

impl<D> WithError<D> {
    /// Returns a device that has not failed yet.
    pub fn new(device: D) -> WithError<D> {
        WithError {
            device,
            error: None,
        }
    }
}

impl<D: Read> Read for WithError<D> {
    ghost remaining = { λ s. D.remaining s.device };

    fn read(&mut self, buf: &mut [u8]) -> io::Result<usize> {
        match self.device.read(buf) {
            Ok(n) => Ok(n),
            Err(error) => {
                self.error = Some(error);
                Err(error)
            }
        }
    }
}

impl<D: Write> Write for WithError<D> {
    ghost contents = { λ s. D.contents s.device };

    fn write(&mut self, buf: &[u8]) -> io::Result<usize> {
        match self.device.write(buf) {
            Ok(n) => Ok(n),
            Err(error) => {
                self.error = Some(error);
                Err(error)
            }
        }
    }

    fn flush(&mut self) -> io::Result<()> {
        self.device.flush()
    }
}
