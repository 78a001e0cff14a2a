//! Writing of whole answers.

ghost use Rattle.std.specs.Prelude.{◌≡◌, ◌≢◌, ◌++◌, List, ℕ, OnOk, OnErr, IsErrOf};
ghost use Rattle.std.specs.Io.KnownBytes.{Appends};
ghost use Rattle.devices.specs.Devices.{TakesBeginning};

use crate::device::{Failed, Sink};
use crate::fault::RunFault;

/// Writes all of the bytes, in as few pieces as the device takes.
///
/// # Errors
/// `Write` if the device failed. It has then taken a beginning of the bytes.
pub fn write_all<W: Sink>(bytes: &[u8], writer: &mut W) -> Result<(), RunFault>
    ensures all { OnOk result (Appends (W.contents writer.old) (W.contents writer.new) bytes.now) }
    ensures same { OnOk result (W.failed writer.new ≡ W.failed writer.old) }
    ensures begun { OnErr result (TakesBeginning (W.contents writer.old) (W.contents writer.new) bytes.now) }
    ensures write { OnErr result (W.failed writer.new ≢ W.failed writer.old) }
    ensures only { OnErr result (IsErrOf result RunFault.Write) }
{
    let mut rest = bytes;
    'writes: while !rest.is_empty() {
        match writer.write(rest) {
            Ok(n) => rest = &rest[n..],
            Err(Failed) => return Err(RunFault::Write),
        }
    }
    Ok(())
}
