//! A run that replays a schedule, with a line for each event.

ghost use Rattle.std.specs.Prelude.{◌≡◌, ◌≢◌, ◌<◌, ℕ, List, IfErr, IfOk, IfSome, IsErrOf, OnErr, OnOk, length};
ghost use Rattle.std.specs.Io.KnownBytes.{Keeps};
ghost use Rattle.rules.specs.Programs.{model_of};
ghost use Rattle.replays.specs.Schedules.{IsSchedule};
ghost use Rattle.devices.specs.RunFaults.{IsReplayFault};
ghost use Rattle.devices.specs.Runs.{BeginsAnswer, LeavesRest, TakesAtMost, Writes};
ghost use Rattle.singcheck.specs.Entered.{IsAnswerFault, IsBegun};
ghost use Rattle.singcheck.specs.Replays.{LacksEntry, LacksSchedule};
ghost use Rattle.singcheck.specs.Safety.{HasEmptyReport};
ghost use Rattle.singcheck.specs.TracedReplays.{IsTraced, Traces, TracesSafely};

use crate::entering::{Begun, enter};
use crate::laws::{
    each_program_has_bounds, each_program_is_well_formed, findings_or_program, one_program,
};
use crate::limits::MAX_SCHEDULE_READ;
use crate::printed_runs::tracer_of;
use crate::refusals::refused_report;
use crate::replaying::{scheduled_events, status_of};
use crate::report::Report;
use devices::{Input, MAX_READ, RunFault, Sink, Source, Status, read_text, write_all};
use machine::{Event, Replayed};
use replays::{Detail, add_conditions, lines_of};
use runs::trace_of;
use semantics::laws::replays_agree;
use sound::laws::{empty_report_is_safe, runs_are_bounded};
use source::Memory;
use std::alloc::Global;

/// Does what `run_replay` does, and writes a line for each event of the wanted detail before the lines of the replay, and how many
/// conditions the events chose after them.
///
/// If `check` finds nothing in the text, no replay stops with a fault.
///
/// # Errors
/// Those of `run_replay`.
pub fn run_trace<R: Source, Q: Source, W: Sink>(
    alloc: Global,
    reader: &mut R,
    entry: &[u8],
    schedule: &mut Q,
    detail: Detail,
    writer: &mut W,
) -> Result<Status, RunFault>
    ensures written { IfOk result (λ status. IfSome (R.remaining reader.old) (λ text. IfSome (Q.remaining schedule.old) (λ lines.
        Writes (Traces entry.now detail lines) text (W.contents writer.old) (W.contents writer.new) status))) }
    ensures safe { IfOk result (λ status. IfSome (R.remaining reader.old) (λ text. IfSome (Q.remaining schedule.old) (λ lines.
        HasEmptyReport text → Writes (TracesSafely entry.now detail lines) text (W.contents writer.old) (W.contents writer.new) status))) }
    ensures begun { IsErrOf result RunFault.Write → IfSome (R.remaining reader.old) (λ text. IfSome (Q.remaining schedule.old) (λ lines.
        BeginsAnswer (Traces entry.now detail lines) text (W.contents writer.old) (W.contents writer.new))) }
    ensures entry { IsErrOf result RunFault.Entry → IfSome (R.remaining reader.old) (λ text. LacksEntry text entry.now) }
    ensures line { (n : ℕ) → IsErrOf result (RunFault.Schedule n) → IfSome (R.remaining reader.old) (λ text.
        IfSome (Q.remaining schedule.old) (λ lines. LacksSchedule text entry.now lines n)) }
    ensures rest { OnOk result (LeavesRest MAX_READ (R.remaining reader.old) (R.remaining reader.new)) }
    ensures most { TakesAtMost MAX_READ (R.remaining reader.old) (R.remaining reader.new) }
    ensures most_of_schedule { TakesAtMost MAX_SCHEDULE_READ (Q.remaining schedule.old) (Q.remaining schedule.new) }
    ensures unread { IsErrOf result RunFault.Entry → schedule.new ≡ schedule.old }
    ensures read { IsErrOf result (RunFault.Read Input.Text) → R.failed reader.new ≢ R.failed reader.old }
    ensures read_schedule { IsErrOf result (RunFault.Read Input.Schedule) → Q.failed schedule.new ≢ Q.failed schedule.old }
    ensures write { IsErrOf result RunFault.Write → W.failed writer.new ≢ W.failed writer.old }
    ensures unwritten { OnErr result ((IsErrOf result RunFault.Write → ⊥) → Keeps (W.contents writer.old) (W.contents writer.new)) }
    ensures fault { IfErr result IsReplayFault }
{
    let text = read_text(alloc, reader)?;
    let answer = trace_text(alloc, &text, entry, schedule, detail)?;
    write_all(&answer.bytes, writer)?;
    Ok(answer.status)
}

/// Returns the answer to a text, an entry and a schedule.
fn trace_text<Q: Source>(
    alloc: Global,
    text: &[u8],
    entry: &[u8],
    schedule: &mut Q,
    detail: Detail,
) -> Result<Report, RunFault>
    ensures traces { IfOk result (λ answer. IfSome (Q.remaining schedule.old) (λ lines.
        Traces entry.now detail lines text.now answer.bytes.items answer.status)) }
    ensures safe { IfOk result (λ answer. IfSome (Q.remaining schedule.old) (λ lines.
        HasEmptyReport text.now → TracesSafely entry.now detail lines text.now answer.bytes.items answer.status)) }
    ensures entry { IsErrOf result RunFault.Entry → LacksEntry text.now entry.now }
    ensures line { (n : ℕ) → IsErrOf result (RunFault.Schedule n) → IfSome (Q.remaining schedule.old) (λ lines.
        LacksSchedule text.now entry.now lines n) }
    ensures most { TakesAtMost MAX_SCHEDULE_READ (Q.remaining schedule.old) (Q.remaining schedule.new) }
    ensures unread { IsErrOf result RunFault.Entry → schedule.new ≡ schedule.old }
    ensures read { IsErrOf result (RunFault.Read Input.Schedule) → Q.failed schedule.new ≢ Q.failed schedule.old }
    ensures fault { IfErr result IsAnswerFault }
{
    one_program();
    each_program_has_bounds();
    each_program_is_well_formed();
    findings_or_program();
    empty_report_is_safe();
    runs_are_bounded();
    match enter(alloc, text, entry) {
        Ok(Some(begun)) => {
            let events = scheduled_events(alloc, schedule)?;
            Ok(print_trace(alloc, &begun, &events, detail)?)
        }
        Ok(None) => Err(RunFault::Entry),
        Err(refused) => Ok(refused_report(alloc, text, refused)?),
    }
}

/// Replays events from an entry, and returns their lines and those of the replay.
fn print_trace(
    alloc: Global,
    begun: &Begun,
    events: &[Event],
    detail: Detail,
) -> Result<Report, Memory>
    requires there { begun.now.method.0 < length (model_of begun.now.program).methods }
    ensures { IfOk result (λ r. (text entry schedule : List ℕ) → IsBegun text entry begun.now → IsSchedule schedule events.now
        → IsTraced entry detail schedule text r.bytes.items r.status) }
{
    replays_agree();
    let tracer = tracer_of(alloc, begun, detail)?;
    let traced = trace_of(&tracer, begun.method, events)?;
    let halt = traced.halt;
    let journal = traced.journal;
    let conditions = journal.conditions;
    let steps = journal.events.len();
    let mut bytes = journal.lines;
    let came = Replayed {
        world: journal.world,
        steps,
        halt,
    };
    let replayed = lines_of(alloc, &begun.program, &begun.structs, events, &came)?;
    bytes.extend_from_slice(&replayed)?;
    add_conditions(&mut bytes, conditions)?;
    Ok(Report {
        bytes,
        status: status_of(halt),
    })
}
