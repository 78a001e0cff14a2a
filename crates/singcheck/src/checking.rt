//! The check of a text with its methods.

ghost use Rattle.std.specs.Prelude.{◌≡◌, ◌<◌, ◌^◌, true, ℕ, map, length, List, IfOk, IfErr, OnOk};
ghost use Rattle.rules.specs.Programs.{model_of};
ghost use Rattle.sound.specs.Premises.{NothingIsFound};
ghost use Rattle.singcheck.specs.Checks.{Checks, HasProgram};
ghost use Rattle.singcheck.specs.CheckFaults.{AreUnfit, ExplainsFault, workers_fit, slots_fit};
ghost use Rattle.singcheck.specs.Safety.{IsSafeText};

use crate::front::program_of;
use crate::laws::one_program;
use crate::limits::{MOST_SLOTS, MOST_WORKERS};
use crate::refusals::refused_report;
use crate::report::{Report, clear, finding_report};
use crate::tools::Tools;
use crate::verdicts::analyse_methods;
use devices::{CheckFault, Status};
use pool::Gate;
use rules::Program;
use shelf::Shelf;
use source::Memory;
use std::sync::Wait;
use std::thread::Threads;

/// Checks a text. Returns the report of the first stage that has findings (the text, its names, its contracts, its
/// methods), with status `Found`, or the line `ok: C contracts, M methods`, with status `Empty`.
///
/// Workers share the methods. One of them checks each method, once, and enters the gate before it with the index of
/// the method in the text. The first worker runs in the calling thread, each other one in its own thread. There are
/// never more workers than methods, and they start only if the earlier stages found nothing. The report does not
/// depend on `workers`, `slots` or which worker took which method.
///
/// If the status is `Empty`, every run of the program is safe: no process uses a block that it does not own, sends
/// what its state does not send, receives a message that its switch has no case for, overflows a queue, or ends while
/// it owns a block.
///
/// # Errors
/// `Workers` if `workers` is not 1 to `MOST_WORKERS`, then `Slots` if `slots` is not 1 to `MOST_SLOTS`, both before
/// the text is read. `Memory` if out of memory or if a thread could not be started.
pub fn check<R: Threads + Wait + AllocGlobal + Sync, G: Gate>(
    rt: &R,
    text: &[u8],
    workers: usize,
    slots: usize,
    gate: &G,
) -> Result<Report, CheckFault>
    ensures report { IfOk result (λ r. Checks text.now r.bytes.items r.status) }
    ensures safe { IfOk result (λ r. r.status ≡ Status.Empty → IsSafeText text.now) }
    ensures workers { OnOk result (workers_fit workers ≡ true) }
    ensures slots { OnOk result (slots_fit slots ≡ true) }
    ensures fault { IfErr result (ExplainsFault workers slots) }
{
    judge_numbers(workers, slots)?;
    let shelf = Shelf::new(rt.alloc())?;
    check_onto(rt, text, workers, slots, gate, &shelf)
}

/// Checks a text as `check` does, and puts the verdict of each method on the caller's shelf as soon as it is found.
///
/// Other threads may read the verdicts on the shelf at any time. Verdicts that were put there before an error stay.
pub fn check_onto<R: Threads + Wait + AllocGlobal + Sync, G: Gate>(
    rt: &R,
    text: &[u8],
    workers: usize,
    slots: usize,
    gate: &G,
    shelf: &Shelf,
) -> Result<Report, CheckFault>
    ensures report { IfOk result (λ r. Checks text.now r.bytes.items r.status) }
    ensures safe { IfOk result (λ r. r.status ≡ Status.Empty → IsSafeText text.now) }
    ensures workers { OnOk result (workers_fit workers ≡ true) }
    ensures slots { OnOk result (slots_fit slots ≡ true) }
    ensures fault { IfErr result (ExplainsFault workers slots) }
{
    judge_numbers(workers, slots)?;
    let tools = Tools {
        rt,
        alloc: rt.alloc(),
        workers,
        slots,
        gate,
        shelf,
    };
    let report = check_text(&tools, text)?;
    Ok(report)
}

/// Tests the numbers of workers and slots, in this order. `Workers` or `Slots` if one is out of range.
pub(crate) fn judge_numbers(workers: usize, slots: usize) -> Result<(), CheckFault>
    ensures workers { OnOk result (workers_fit workers ≡ true) }
    ensures slots { OnOk result (slots_fit slots ≡ true) }
    ensures fault { IfErr result (AreUnfit workers slots) }
{
    if !(1..=MOST_WORKERS).contains(&workers) {
        return Err(CheckFault::Workers);
    }
    if !(1..=MOST_SLOTS).contains(&slots) {
        return Err(CheckFault::Slots);
    }
    Ok(())
}

/// Returns the report of a text.
pub(crate) fn check_text<R: Threads + Wait + Sync, G: Gate>(
    tools: &Tools<'_, R, G>,
    text: &[u8],
) -> Result<Report, Memory>
    ensures report { IfOk result (λ r. Checks text.now r.bytes.items r.status) }
    ensures safe { IfOk result (λ r. r.status ≡ Status.Empty → IsSafeText text.now) }
{
    one_program();
    match program_of(tools.alloc, text) {
        Ok(program) => check_methods(tools, &program),
        Err(refused) => refused_report(tools.alloc, text, refused),
    }
}

/// Returns the report of the methods of a program without earlier findings.
fn check_methods<R: Threads + Wait + Sync, G: Gate>(
    tools: &Tools<'_, R, G>,
    program: &Program,
) -> Result<Report, Memory>
    ensures report { IfOk result (λ r. (text : List ℕ) → HasProgram text (model_of program.now) → Checks text r.bytes.items r.status) }
    ensures clean { IfOk result (λ r. r.status ≡ Status.Empty → NothingIsFound (model_of program.now)) }
{
    let alloc = tools.alloc;
    let findings = analyse_methods(tools, program)?;
    if !findings.is_empty() {
        return finding_report(alloc, findings);
    }
    clear(alloc, program)
}
