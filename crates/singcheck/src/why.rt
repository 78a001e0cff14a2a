//! Explains the findings of a text.

ghost use Rattle.std.specs.Prelude.{◌≡◌, ◌≢◌, ℕ, List, IfErr, IfOk, IfSome, IsErrOf, OnOk, OnErr};
ghost use Rattle.std.specs.Io.KnownBytes.{Keeps};
ghost use Rattle.rules.specs.Programs.{model_of};
ghost use Rattle.devices.specs.RunFaults.{IsBoundsFault};
ghost use Rattle.devices.specs.Runs.{Writes, BeginsAnswer, LeavesRest, TakesAtMost};
ghost use Rattle.singcheck.specs.Checks.{HasProgram};
ghost use Rattle.singcheck.specs.Explains.{Explains};
ghost use Rattle.singcheck.specs.Fronts.{IsRefused};

use crate::explaining::{explain_methods, explained_in_order, explained_report};
use crate::front::{Refused, program_of};
use crate::remarking::explain_refused;
use crate::report::{Report, clear};
use devices::{Input, MAX_READ, RunFault, Sink, Source, Status, read_text, write_all};
use rules::Program;
use source::{Memory, Place};
use std::alloc::Global;

/// Reads a program text and writes the report of `check`, with lines that explain the findings.
///
/// A finding in a method has a trace: the choices of a shortest path through the method to the finding, and what the
/// path does to the variables that the finding is about. A finding in a contract has edges that show it
/// (`contract_traces::show_faults`), one of names or types has its remark (`remarks::remark`), such as what was asked for and
/// what was given. If a place is named, only the findings at that place have lines. The lines are `  LINE:COL text`,
/// and the status is that of `check`. The calling thread analyses the methods one by one. At most `MAX_READ` bytes
/// are read, and the rest is left unread.
///
/// # Errors
/// `Read` and `Write` only if that device failed, `Memory` only if out of memory. Nothing is written before the whole
/// answer is known. After `Write`, a beginning of it was written.
pub fn run_why<R: Source, W: Sink>(
    alloc: Global,
    reader: &mut R,
    writer: &mut W,
    named: Option<Place>,
) -> Result<Status, RunFault>
    ensures written { IfOk result (λ status. IfSome (R.remaining reader.old) (λ text.
        Writes (Explains named) text (W.contents writer.old) (W.contents writer.new) status)) }
    ensures begun { IsErrOf result RunFault.Write → IfSome (R.remaining reader.old) (λ text.
        BeginsAnswer (Explains named) text (W.contents writer.old) (W.contents writer.new)) }
    ensures rest { OnOk result (LeavesRest MAX_READ (R.remaining reader.old) (R.remaining reader.new)) }
    ensures most { TakesAtMost MAX_READ (R.remaining reader.old) (R.remaining reader.new) }
    ensures read { IsErrOf result (RunFault.Read Input.Text) → R.failed reader.new ≢ R.failed reader.old }
    ensures write { IsErrOf result RunFault.Write → W.failed writer.new ≢ W.failed writer.old }
    ensures unwritten { OnErr result ((IsErrOf result RunFault.Write → ⊥) → Keeps (W.contents writer.old) (W.contents writer.new)) }
    ensures fault { IfErr result IsBoundsFault }
{
    let text = read_text(alloc, reader)?;
    let answer = why_of(alloc, &text, named)?;
    write_all(&answer.bytes, writer)?;
    Ok(answer.status)
}

/// Returns the answer to a text.
fn why_of(alloc: Global, text: &[u8], named: Option<Place>) -> Result<Report, Memory>
    ensures { IfOk result (λ answer. Explains named text.now answer.bytes.items answer.status) }
{
    match program_of(alloc, text) {
        Ok(program) => why_methods(alloc, &program, named),
        Err(refused) => why_refused(alloc, text, refused, named),
    }
}

/// Returns the answer to a text that has no program.
fn why_refused(
    alloc: Global,
    text: &[u8],
    refused: Refused,
    named: Option<Place>,
) -> Result<Report, Memory>
    requires refused { IsRefused text.now refused }
    ensures { IfOk result (λ answer. Explains named text.now answer.bytes.items answer.status) }
{
    let explained = explain_refused(alloc, text, refused, named)?;
    let listed = explained_in_order(explained)?;
    Ok(Report {
        bytes: explained_report(alloc, &listed)?,
        status: Status::Found,
    })
}

/// Returns the answer to a program without findings before its methods.
fn why_methods(alloc: Global, program: &Program, named: Option<Place>) -> Result<Report, Memory>
    ensures { IfOk result (λ answer. (text : List ℕ) → HasProgram text (model_of program.now)
        → Explains named text answer.bytes.items answer.status) }
{
    let found = explain_methods(alloc, program, named)?;
    if found.is_empty() {
        return clear(alloc, program);
    }
    let listed = explained_in_order(found)?;
    Ok(Report {
        bytes: explained_report(alloc, &listed)?,
        status: Status::Found,
    })
}
