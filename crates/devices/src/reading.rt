//! Reading of whole inputs.

ghost use Rattle.std.specs.Prelude.{◌≡◌, ◌≢◌, ◌<◌, ◌≤◌, length, IfOk, IfErr, OnErr, IsErrOf};
ghost use Rattle.std.specs.Io.KnownBytes.{Consumes, IsAtEnd};
ghost use Rattle.devices.specs.RunFaults.{IsReadFault};
ghost use Rattle.devices.specs.Runs.{TakesAtMost};

use crate::device::{Failed, Source};
use crate::fault::{Input, RunFault};
use source::MAX_TEXT;
use std::alloc::Global;

/// The most bytes of a text that are read: one more than it may have.
pub const MAX_READ: usize = MAX_TEXT + 1;

/// The most bytes that are requested from a device at a time.
const PART: usize = 4096;

/// Reads the text up to its end, or to one byte past the greatest length. The rest is left unread.
///
/// # Errors
/// `Read` if the device failed, `Memory` if out of memory. The bytes read until then are dropped.
pub fn read_text<R: Source>(alloc: Global, reader: &mut R) -> Result<Vec<u8>, RunFault>
    ensures bytes { IfOk result (λ text. Consumes (R.remaining reader.old) (R.remaining reader.new) text.items) }
    ensures long { IfOk result (λ text. length text.items ≤ MAX_READ) }
    ensures end { IfOk result (λ text. length text.items < MAX_READ → IsAtEnd (R.remaining reader.new)) }
    ensures most { OnErr result (TakesAtMost MAX_READ (R.remaining reader.old) (R.remaining reader.new)) }
    ensures read { IsErrOf result (RunFault.Read Input.Text) → R.failed reader.new ≢ R.failed reader.old }
    ensures only { IfErr result (IsReadFault Input.Text) }
{
    read_up_to(alloc, reader, MAX_READ, Input::Text)
}

/// Reads an input up to its end, or `most` bytes of it. The rest is left unread.
///
/// # Errors
/// `Read` of this input if the device failed, `Memory` if out of memory. The bytes read until then are dropped.
pub fn read_up_to<R: Source>(
    alloc: Global,
    reader: &mut R,
    most: usize,
    input: Input,
) -> Result<Vec<u8>, RunFault>
    ensures bytes { IfOk result (λ bytes. Consumes (R.remaining reader.old) (R.remaining reader.new) bytes.items) }
    ensures long { IfOk result (λ bytes. length bytes.items ≤ most) }
    ensures end { IfOk result (λ bytes. length bytes.items < most → IsAtEnd (R.remaining reader.new)) }
    ensures most { OnErr result (TakesAtMost most (R.remaining reader.old) (R.remaining reader.new)) }
    ensures read { IsErrOf result (RunFault.Read input) → R.failed reader.new ≢ R.failed reader.old }
    ensures only { IfErr result (IsReadFault input) }
{
    let mut bytes = Vec::new(alloc);
    let mut buffer = [0; PART];
    'reads: while bytes.len() < most {
        let room = buffer.len().min(most - bytes.len());
        let part = &mut buffer[..room];
        match reader.read(part) {
            Ok(0) => return Ok(bytes),
            Ok(n) => bytes.extend_from_slice(&part[..n])?,
            Err(Failed) => return Err(RunFault::Read(input)),
        }
    }
    Ok(bytes)
}
