//! How the program ends after a failed run.

ghost use Rattle.std.specs.Prelude.{◌≡◌, ◌≢◌, ◌++◌, codes, OnOk, OnErr};
ghost use Rattle.std.specs.Fmt.{decimal};
ghost use Rattle.std.specs.Io.KnownBytes.{Appends};
ghost use Rattle.devices.specs.Devices.{TakesBeginning};
ghost use Rattle.devices.specs.Endings.{status_of, line_of};

use crate::device::Sink;
use crate::fault::RunFault;
use crate::writing::write_all;
use itoa::Buffer;

/// Writes the line of a fault and returns the exit status: 2 if a request is refused, 3 for a file or a device, 4 if
/// out of memory.
///
/// `name` is the name of the file, or of the entry if there is no such entry. If the writer fails, it has taken a
/// beginning of the line, and the status is the same. This never allocates.
pub fn ending<W: Sink>(fault: &RunFault, name: &str, writer: &mut W) -> u8
    ensures status { result ≡ status_of fault.now }
    ensures begun { TakesBeginning (W.contents writer.old) (W.contents writer.new) (line_of fault.now name.now) }
    ensures whole { W.failed writer.new ≡ W.failed writer.old
        → Appends (W.contents writer.old) (W.contents writer.new) (line_of fault.now name.now) }
{
    let _ = write_line(fault, name, writer);
    exit_status(fault)
}

fn exit_status(fault: &RunFault) -> u8
    ensures { result ≡ status_of fault.now }
{
    match fault {
        RunFault::Workers | RunFault::Slots | RunFault::Entry | RunFault::Schedule(_) => 2,
        RunFault::Read(_) | RunFault::Write => 3,
        RunFault::Memory => 4,
    }
}

fn write_line<W: Sink>(fault: &RunFault, name: &str, writer: &mut W) -> Result<(), RunFault>
    ensures all { OnOk result (Appends (W.contents writer.old) (W.contents writer.new) (line_of fault.now name.now)) }
    ensures begun { OnErr result (TakesBeginning (W.contents writer.old) (W.contents writer.new) (line_of fault.now name.now)) }
    ensures write { OnErr result (W.failed writer.new ≢ W.failed writer.old) }
{
    match fault {
        RunFault::Read(_) => write_named(b"singcheck: cannot read ", name, writer),
        RunFault::Write => write_all(b"singcheck: cannot write\n", writer),
        RunFault::Workers => write_all(b"singcheck: workers not 1 to 64\n", writer),
        RunFault::Slots => write_all(b"singcheck: slots not 1 to 16777216\n", writer),
        RunFault::Entry => write_named(b"singcheck: no entry ", name, writer),
        RunFault::Schedule(line) => write_schedule_line(*line, writer),
        RunFault::Memory => write_all(b"singcheck: out of memory\n", writer),
    }
}

/// Writes which line of a schedule is malformed. Its digits are on the stack, so this never allocates.
fn write_schedule_line<W: Sink>(line: u32, writer: &mut W) -> Result<(), RunFault>
    ensures all { OnOk result (Appends (W.contents writer.old) (W.contents writer.new)
        (codes "singcheck: schedule line " ++ (decimal line ++ codes "\n"))) }
    ensures begun { OnErr result (TakesBeginning (W.contents writer.old) (W.contents writer.new)
        (codes "singcheck: schedule line " ++ (decimal line ++ codes "\n"))) }
    ensures write { OnErr result (W.failed writer.new ≢ W.failed writer.old) }
{
    let mut digits = Buffer::new();
    write_named(b"singcheck: schedule line ", digits.format(line), writer)
}

/// Writes a line that ends with a name.
fn write_named<W: Sink>(front: &[u8], name: &str, writer: &mut W) -> Result<(), RunFault>
    ensures all { OnOk result (Appends (W.contents writer.old) (W.contents writer.new) (front.now ++ (name.now ++ codes "\n"))) }
    ensures begun { OnErr result (TakesBeginning (W.contents writer.old) (W.contents writer.new) (front.now ++ (name.now ++ codes "\n"))) }
    ensures write { OnErr result (W.failed writer.new ≢ W.failed writer.old) }
{
    write_all(front, writer)?;
    write_all(name.as_bytes(), writer)?;
    write_all(b"\n", writer)
}
