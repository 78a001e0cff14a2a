//! Devices over memory that give and take a few bytes at a time, and one call to which fails.

ghost use Rattle.std.specs.Prelude.{◌≤◌, length, None};

use singcheck::{Failed, Sink, Source};
use std::alloc::{AllocError, Global};

/// A text that gives at most `most` bytes a call. The call with the number `failing` fails, counted from 1.
#[derive(Drop)]
pub struct Text {
    bytes: Vec<u8>,
    at: usize,
    most: usize,
    calls: u64,
    failing: u64,
    failures: u64,
}

impl Text {
    /// Returns a text with these bytes, none of them read yet. `AllocError` if an allocation fails.
    pub fn new(alloc: Global, text: &str, most: usize, failing: u64) -> Result<Text, AllocError> {
        Ok(Text {
            bytes: Vec::from_slice(alloc, text.as_bytes())?,
            at: 0,
            most,
            calls: 0,
            failing,
            failures: 0,
        })
    }

    fn part(&self, room: usize) -> &[u8]
        ensures { length result.now ≤ room }
    {
        let most = room.min(self.most);
        let rest = self.bytes.get(self.at..).unwrap_or(&[]);
        if rest.len() <= most {
            rest
        } else {
            &rest[..most]
        }
    }
}

impl Source for Text {
    ghost remaining = { λ _. None };

    ghost failed = { λ s. s.failures };

    fn read(&mut self, buffer: &mut [u8]) -> Result<usize, Failed> {
        self.calls = self.calls.wrapping_add(1);
        if self.calls == self.failing {
            self.failures = self.failures.wrapping_add(1);
            return Err(Failed);
        }
        let part = self.part(buffer.len());
        let n = part.len();
        buffer[..n].copy_from_slice(part);
        self.at = self.at.saturating_add(n);
        Ok(n)
    }

    fn failures(&self) -> u64 {
        self.failures
    }
}

/// The bytes taken so far, at most `most` a call. The call with the number `failing` fails, counted from 1.
#[derive(Drop)]
pub struct Page {
    pub bytes: Vec<u8>,
    most: usize,
    calls: u64,
    failing: u64,
    failures: u64,
}

impl Page {
    /// Returns an empty page.
    pub fn new(alloc: Global, most: usize, failing: u64) -> Page {
        Page {
            bytes: Vec::new(alloc),
            most,
            calls: 0,
            failing,
            failures: 0,
        }
    }
}

impl Sink for Page {
    ghost contents = { λ _. None };

    ghost failed = { λ s. s.failures };

    fn write(&mut self, bytes: &[u8]) -> Result<usize, Failed> {
        self.calls = self.calls.wrapping_add(1);
        let n = bytes.len().min(self.most).max(1).min(bytes.len());
        if self.calls == self.failing || self.bytes.extend_from_slice(&bytes[..n]).is_err() {
            self.failures = self.failures.wrapping_add(1);
            return Err(Failed);
        }
        Ok(n)
    }

    fn failures(&self) -> u64 {
        self.failures
    }
}

/// The bytes taken so far, at most 512 in all. It allocates nothing.
#[derive(Drop)]
pub struct Card {
    bytes: [u8; 512],
    len: usize,
    failures: u64,
    ghost within: { len ≤ 512 },
}

impl Card {
    /// Returns an empty card.
    pub fn new() -> Card {
        Card {
            bytes: [0; 512],
            len: 0,
            failures: 0,
        }
    }

    /// Returns what was written to it.
    pub fn bytes(&self) -> &[u8] {
        &self.bytes[..self.len]
    }
}

impl Sink for Card {
    ghost contents = { λ _. None };

    ghost failed = { λ s. s.failures };

    fn write(&mut self, bytes: &[u8]) -> Result<usize, Failed> {
        let room = self.bytes.len() - self.len;
        if bytes.len() > room {
            self.failures = self.failures.wrapping_add(1);
            return Err(Failed);
        }
        let end = self.len + bytes.len();
        self.bytes[self.len..end].copy_from_slice(bytes);
        self.len = end;
        Ok(bytes.len())
    }

    fn failures(&self) -> u64 {
        self.failures
    }
}
