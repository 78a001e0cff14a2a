//! A run that replays a schedule.

ghost use Rattle.std.specs.Prelude.{◌≡◌, ◌≢◌, ◌<◌, ◌⊎◌, ℕ, List, IfErr, IfOk, IfSome, IsErrOf, OnOk, OnErr, length};
ghost use Rattle.std.specs.Io.KnownBytes.{Keeps};
ghost use Rattle.rules.specs.Programs.{model_of};
ghost use Rattle.replays.specs.Schedules.{IsFirstMalformed, IsSchedule};
ghost use Rattle.devices.specs.RunFaults.{IsReplayFault};
ghost use Rattle.devices.specs.Runs.{BeginsAnswer, LeavesRest, TakesAtMost, Writes};
ghost use Rattle.singcheck.specs.Entered.{IsAnswerFault, IsBegun, IsScheduledFault};
ghost use Rattle.singcheck.specs.Replays.{HasSomeEntry, IsRan, LacksEntry, LacksSchedule, Replays, stop_status};
ghost use Rattle.singcheck.specs.Safety.{HasEmptyReport, ReplaysWithinBounds, RunsSafely};

use crate::entering::{Begun, enter};
use crate::laws::{
    each_program_has_bounds, each_program_is_well_formed, findings_or_program, one_program,
};
use crate::limits::MAX_SCHEDULE_READ;
use crate::refusals::refused_report;
use crate::report::Report;
use devices::{Input, MAX_READ, RunFault, Sink, Source, Status, read_text, read_up_to, write_all};
use machine::{Event, Halt, replay};
use replays::laws::a_front_tells_all;
use replays::{ScheduleFault, lines_of, read_schedule};
use semantics::laws::replays_agree;
use sound::laws::{empty_report_is_safe, runs_are_bounded};
use source::Memory;
use std::alloc::Global;

/// Reads a program text and a schedule, and writes the replay of the schedule from an entry.
///
/// The text is read first. If its text, names or contracts have findings, the report of the first of these stages
/// with findings is written, with status `Found`, and nothing is read of the schedule; findings in methods do not
/// matter. Otherwise the entry is looked up, then the schedule is read, and then its events are taken one by one,
/// from the beginning of the method, until one is no step. The number of steps, why the replay stopped, and the world
/// after the last step are written, with status `Empty` if every event was a step, else `Found`.
///
/// At most `MAX_READ` bytes of the text and `MAX_SCHEDULE_READ` of the schedule are read. The schedule is read only
/// if the text has the entry, so an unreadable schedule never replaces a report.
///
/// If `check` finds nothing in the text, no replay stops with a fault. Whatever it finds in methods, no replay stops
/// with a send past a bound, and each queue is a walk of its contract.
///
/// # Errors
/// `Entry` if no method is called `entry` (`Class.Method`), or if the first one that is gives something or takes
/// something, numbers included. `Schedule` names the first malformed line. `Read` and `Write` only if that device
/// failed, `Memory` only if out of memory. Nothing is written before the whole answer is known. After `Write`, a
/// beginning of it was written.
pub fn run_replay<R: Source, Q: Source, W: Sink>(
    alloc: Global,
    reader: &mut R,
    entry: &[u8],
    schedule: &mut Q,
    writer: &mut W,
) -> Result<Status, RunFault>
    ensures written { IfOk result (λ status. IfSome (R.remaining reader.old) (λ text. IfSome (Q.remaining schedule.old) (λ lines.
        Writes (Replays entry.now lines) text (W.contents writer.old) (W.contents writer.new) status))) }
    ensures safe { IfOk result (λ status. IfSome (R.remaining reader.old) (λ text. IfSome (Q.remaining schedule.old) (λ lines.
        HasEmptyReport text → Writes (RunsSafely entry.now lines) text (W.contents writer.old) (W.contents writer.new) status))) }
    ensures bounded { IfOk result (λ status. IfSome (R.remaining reader.old) (λ text. IfSome (Q.remaining schedule.old) (λ lines.
        Writes (ReplaysWithinBounds entry.now lines) text (W.contents writer.old) (W.contents writer.new) status))) }
    ensures begun { IsErrOf result RunFault.Write → IfSome (R.remaining reader.old) (λ text. IfSome (Q.remaining schedule.old) (λ lines.
        BeginsAnswer (Replays entry.now lines) text (W.contents writer.old) (W.contents writer.new))) }
    ensures entry { IsErrOf result RunFault.Entry → IfSome (R.remaining reader.old) (λ text. LacksEntry text entry.now) }
    ensures line { (n : ℕ) → IsErrOf result (RunFault.Schedule n) → IfSome (R.remaining reader.old) (λ text.
        IfSome (Q.remaining schedule.old) (λ lines. LacksSchedule text entry.now lines n)) }
    ensures rest { OnOk result (LeavesRest MAX_READ (R.remaining reader.old) (R.remaining reader.new)) }
    ensures most { TakesAtMost MAX_READ (R.remaining reader.old) (R.remaining reader.new) }
    ensures rest_of_schedule { OnOk result (IfSome (R.remaining reader.old) (λ text. HasSomeEntry text entry.now
        → LeavesRest MAX_SCHEDULE_READ (Q.remaining schedule.old) (Q.remaining schedule.new))) }
    ensures most_of_schedule { TakesAtMost MAX_SCHEDULE_READ (Q.remaining schedule.old) (Q.remaining schedule.new) }
    ensures unread { IsErrOf result RunFault.Entry → schedule.new ≡ schedule.old }
    ensures untouched { IfSome (R.remaining reader.old) (λ text. (schedule.new ≡ schedule.old) ⊎ HasSomeEntry text entry.now) }
    ensures read { IsErrOf result (RunFault.Read Input.Text) → R.failed reader.new ≢ R.failed reader.old }
    ensures read_schedule { IsErrOf result (RunFault.Read Input.Schedule) → Q.failed schedule.new ≢ Q.failed schedule.old }
    ensures write { IsErrOf result RunFault.Write → W.failed writer.new ≢ W.failed writer.old }
    ensures unwritten { OnErr result ((IsErrOf result RunFault.Write → ⊥) → Keeps (W.contents writer.old) (W.contents writer.new)) }
    ensures fault { IfErr result IsReplayFault }
{
    let text = read_text(alloc, reader)?;
    let answer = answer_to(alloc, &text, entry, schedule)?;
    write_all(&answer.bytes, writer)?;
    Ok(answer.status)
}

/// Returns the answer to a text, an entry and a schedule.
fn answer_to<Q: Source>(
    alloc: Global,
    text: &[u8],
    entry: &[u8],
    schedule: &mut Q,
) -> Result<Report, RunFault>
    ensures replays { IfOk result (λ answer. IfSome (Q.remaining schedule.old) (λ lines.
        Replays entry.now lines text.now answer.bytes.items answer.status)) }
    ensures safe { IfOk result (λ answer. IfSome (Q.remaining schedule.old) (λ lines.
        HasEmptyReport text.now → RunsSafely entry.now lines text.now answer.bytes.items answer.status)) }
    ensures bounded { IfOk result (λ answer. IfSome (Q.remaining schedule.old) (λ lines.
        ReplaysWithinBounds entry.now lines text.now answer.bytes.items answer.status)) }
    ensures entry { IsErrOf result RunFault.Entry → LacksEntry text.now entry.now }
    ensures line { (n : ℕ) → IsErrOf result (RunFault.Schedule n) → IfSome (Q.remaining schedule.old) (λ lines.
        LacksSchedule text.now entry.now lines n) }
    ensures rest { OnOk result (HasSomeEntry text.now entry.now
        → LeavesRest MAX_SCHEDULE_READ (Q.remaining schedule.old) (Q.remaining schedule.new)) }
    ensures most { TakesAtMost MAX_SCHEDULE_READ (Q.remaining schedule.old) (Q.remaining schedule.new) }
    ensures unread { IsErrOf result RunFault.Entry → schedule.new ≡ schedule.old }
    ensures untouched { (schedule.new ≡ schedule.old) ⊎ HasSomeEntry text.now entry.now }
    ensures read { IsErrOf result (RunFault.Read Input.Schedule) → Q.failed schedule.new ≢ Q.failed schedule.old }
    ensures fault { IfErr result IsAnswerFault }
{
    one_program();
    each_program_has_bounds();
    each_program_is_well_formed();
    findings_or_program();
    empty_report_is_safe();
    runs_are_bounded();
    match enter(alloc, text, entry) {
        Ok(Some(begun)) => run_schedule(alloc, &begun, schedule),
        Ok(None) => Err(RunFault::Entry),
        Err(refused) => Ok(refused_report(alloc, text, refused)?),
    }
}

/// Reads a schedule and replays it from an entry.
fn run_schedule<Q: Source>(
    alloc: Global,
    begun: &Begun,
    schedule: &mut Q,
) -> Result<Report, RunFault>
    requires there { begun.now.method.0 < length (model_of begun.now.program).methods }
    ensures ran { IfOk result (λ answer. IfSome (Q.remaining schedule.old) (λ lines. (text entry : List ℕ)
        → IsBegun text entry begun.now → IsRan entry lines text answer.bytes.items answer.status)) }
    ensures line { (n : ℕ) → IsErrOf result (RunFault.Schedule n) → IfSome (Q.remaining schedule.old) (λ lines. IsFirstMalformed lines n) }
    ensures rest { OnOk result (LeavesRest MAX_SCHEDULE_READ (Q.remaining schedule.old) (Q.remaining schedule.new)) }
    ensures most { TakesAtMost MAX_SCHEDULE_READ (Q.remaining schedule.old) (Q.remaining schedule.new) }
    ensures read { IsErrOf result (RunFault.Read Input.Schedule) → Q.failed schedule.new ≢ Q.failed schedule.old }
    ensures fault { IfErr result IsScheduledFault }
{
    let events = scheduled_events(alloc, schedule)?;
    Ok(replay_events(alloc, begun, &events)?)
}

/// Reads the events of a schedule.
pub(crate) fn scheduled_events<Q: Source>(
    alloc: Global,
    schedule: &mut Q,
) -> Result<Vec<Event>, RunFault>
    ensures told { IfOk result (λ events. IfSome (Q.remaining schedule.old) (λ lines. IsSchedule lines events.items)) }
    ensures line { (n : ℕ) → IsErrOf result (RunFault.Schedule n) → IfSome (Q.remaining schedule.old) (λ lines. IsFirstMalformed lines n) }
    ensures rest { OnOk result (LeavesRest MAX_SCHEDULE_READ (Q.remaining schedule.old) (Q.remaining schedule.new)) }
    ensures most { TakesAtMost MAX_SCHEDULE_READ (Q.remaining schedule.old) (Q.remaining schedule.new) }
    ensures read { IsErrOf result (RunFault.Read Input.Schedule) → Q.failed schedule.new ≢ Q.failed schedule.old }
    ensures fault { IfErr result IsScheduledFault }
{
    a_front_tells_all();
    let bytes = read_up_to(alloc, schedule, MAX_SCHEDULE_READ, Input::Schedule)?;
    match read_schedule(alloc, &bytes) {
        Ok(events) => Ok(events),
        Err(ScheduleFault::Malformed(line)) => Err(RunFault::Schedule(line)),
        Err(ScheduleFault::Memory) => Err(RunFault::Memory),
    }
}

/// Replays events from an entry and returns the lines of the replay.
fn replay_events(alloc: Global, begun: &Begun, events: &[Event]) -> Result<Report, Memory>
    requires there { begun.now.method.0 < length (model_of begun.now.program).methods }
    ensures { IfOk result (λ r. (text entry schedule : List ℕ) → IsBegun text entry begun.now → IsSchedule schedule events.now
        → IsRan entry schedule text r.bytes.items r.status) }
{
    replays_agree();
    let came = replay(alloc, &begun.program, begun.method, events)?;
    let bytes = lines_of(alloc, &begun.program, &begun.structs, events, &came)?;
    Ok(Report {
        bytes,
        status: status_of(came.halt),
    })
}

/// Returns the status of a replay that stopped for this reason: `Found`, or `Empty` if there is none.
pub(crate) fn status_of(halt: Option<Halt>) -> Status
    ensures { result ≡ stop_status halt }
{
    match halt {
        Some(_) => Status::Found,
        None => Status::Empty,
    }
}
