//! A run that checks a text.

ghost use Rattle.std.specs.Prelude.{◌≡◌, ◌≢◌, ◌&&◌, true, false, IfOk, IfErr, IfSome, IsErrOf, OnOk, OnErr};
ghost use Rattle.std.specs.Io.KnownBytes.{Keeps};
ghost use Rattle.devices.specs.Runs.{Writes, BeginsAnswer, LeavesRest, TakesAtMost};
ghost use Rattle.singcheck.specs.Checks.{Checks};
ghost use Rattle.singcheck.specs.CheckFaults.{RunExplains, workers_fit, slots_fit};
ghost use Rattle.singcheck.specs.Safety.{IsSafeText};

use crate::checking::{check_text, judge_numbers};
use crate::tools::Tools;
use devices::{Input, MAX_READ, RunFault, Sink, Source, Status, read_text, write_all};
use pool::Gate;
use shelf::Shelf;
use std::sync::Wait;
use std::thread::Threads;

/// Reads a program text, checks it, and writes its report.
///
/// The bytes written are those that `check` returns: the report of the first stage that has findings, with status
/// `Found`, or the line `ok: C contracts, M methods`, with status `Empty`. At most `MAX_READ` bytes are read, and the
/// rest is left unread.
///
/// # Errors
/// `Workers` or `Slots` if that number is out of range, before anything is read. `Read` and `Write` only if that
/// device failed, `Memory` only if out of memory or if a thread could not be started. Nothing is written before the
/// whole answer is known. After `Write`, a beginning of it was written.
pub fn run_check<R: Threads + Wait + AllocGlobal + Sync, I: Source, O: Sink, G: Gate>(
    rt: &R,
    reader: &mut I,
    writer: &mut O,
    workers: usize,
    slots: usize,
    gate: &G,
) -> Result<Status, RunFault>
    ensures written { IfOk result (λ status. IfSome (I.remaining reader.old) (λ text.
        Writes Checks text (O.contents writer.old) (O.contents writer.new) status)) }
    ensures safe { IfOk result (λ status. IfSome (I.remaining reader.old) (λ text. status ≡ Status.Empty → IsSafeText text)) }
    ensures begun { IsErrOf result RunFault.Write → IfSome (I.remaining reader.old) (λ text.
        BeginsAnswer Checks text (O.contents writer.old) (O.contents writer.new)) }
    ensures rest { OnOk result (LeavesRest MAX_READ (I.remaining reader.old) (I.remaining reader.new)) }
    ensures most { TakesAtMost MAX_READ (I.remaining reader.old) (I.remaining reader.new) }
    ensures read { IsErrOf result (RunFault.Read Input.Text) → I.failed reader.new ≢ I.failed reader.old }
    ensures write { IsErrOf result RunFault.Write → O.failed writer.new ≢ O.failed writer.old }
    ensures unwritten { OnErr result ((IsErrOf result RunFault.Write → ⊥) → Keeps (O.contents writer.old) (O.contents writer.new)) }
    ensures workers { OnOk result (workers_fit workers ≡ true) }
    ensures slots { OnOk result (slots_fit slots ≡ true) }
    ensures fault { IfErr result (RunExplains workers slots) }
    ensures unread { (workers_fit workers && slots_fit slots) ≡ false → I.remaining reader.new ≡ I.remaining reader.old }
{
    judge_numbers(workers, slots)?;
    let text = read_text(rt.alloc(), reader)?;
    let shelf = Shelf::new(rt.alloc())?;
    let tools = Tools {
        rt,
        alloc: rt.alloc(),
        workers,
        slots,
        gate,
        shelf: &shelf,
    };
    let report = check_text(&tools, &text)?;
    write_all(&report.bytes, writer)?;
    Ok(report.status)
}
