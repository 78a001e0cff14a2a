//! A run as lines.

ghost use Rattle.std.specs.Prelude.{◌≡◌, IfOk, IfSome, List, ℕ};
ghost use Rattle.rules.specs.Programs.{model_of};
ghost use Rattle.replays.specs.Schedules.{IsSchedule};
ghost use Rattle.replays.specs.Telling.{tracer_words};
ghost use Rattle.singcheck.specs.Entered.{IsBegun};
ghost use Rattle.singcheck.specs.PrintedRuns.{AreLinesOf, all_events, end_status, run_words};

use crate::entering::Begun;
use crate::report::Report;
use devices::Status;
use lost::lost_blocks;
use machine::Event;
use replays::{Detail, RunEnd, Tracer, schedule_of};
use runs::Simulation;
use source::Memory;
use std::alloc::Global;

/// The bytes and the status of a run, and its events as a schedule; none if the text has findings, if no run was found, or if it is too
/// long for one.
#[derive(Drop)]
pub(crate) struct Ran {
    pub(crate) report: Report,
    pub(crate) schedule: Option<Vec<u8>>,
}

/// Returns what turns the events of a run into lines.
pub(crate) fn tracer_of(alloc: Global, begun: &Begun, detail: Detail) -> Result<Tracer<'_>, Memory>
    ensures program { IfOk result (λ tracer. (tracer_words tracer).words.program ≡ model_of begun.now.program) }
    ensures words { IfOk result (λ tracer. (text entry : List ℕ) → (is : IsBegun text entry begun.now)
        → tracer_words tracer ≡ run_words text is.entered.has.resolved.items (model_of begun.now.program) detail) }
{
    Tracer::new(
        alloc,
        &begun.program,
        &begun.structs,
        &begun.methods,
        detail,
    )
}

/// Returns the lines of a run, and its schedule.
pub(crate) fn printed_run(
    alloc: Global,
    tracer: &Tracer<'_>,
    run: Simulation,
) -> Result<Ran, Memory>
    ensures lines { IfOk result (λ ran. AreLinesOf (tracer_words tracer.now) run ran.report.bytes.items) }
    ensures status { IfOk result (λ ran. ran.report.status ≡ end_status run.end) }
    ensures schedule { IfOk result (λ ran. IfSome ran.schedule (λ s. IsSchedule s.items (all_events run.journal.events.items run.end))) }
{
    let mut bytes = Vec::new(alloc);
    let lost = lost_blocks(alloc, &run.journal.world)?;
    tracer.add_run(&mut bytes, &run.journal, run.end, &lost)?;
    let status = status_of(run.end);
    let schedule = schedule_of_run(alloc, run)?;
    Ok(Ran {
        report: Report { bytes, status },
        schedule,
    })
}

/// Returns the events of a run, with that of its fault if it ends in one.
fn events_of(run: Simulation) -> Result<Vec<Event>, Memory>
    ensures { IfOk result (λ events. events.items ≡ all_events run.journal.events.items run.end) }
{
    let end = run.end;
    let journal = run.journal;
    let mut events = journal.events;
    match end {
        RunEnd::Fault(event, ..) => {
            events.push(event)?;
            Ok(events)
        }
        RunEnd::Ended | RunEnd::Deadlock | RunEnd::Running => Ok(events),
    }
}

/// Returns a schedule of the events of a run, if there is one.
fn schedule_of_run(alloc: Global, run: Simulation) -> Result<Option<Vec<u8>>, Memory>
    ensures { IfOk result (λ schedule. IfSome schedule (λ s. IsSchedule s.items (all_events run.journal.events.items run.end))) }
{
    let events = events_of(run)?;
    schedule_of(alloc, &events)
}

/// Returns the status of a run that ends so.
fn status_of(end: RunEnd) -> Status
    ensures { result ≡ end_status end }
{
    match end {
        RunEnd::Ended | RunEnd::Running => Status::Empty,
        RunEnd::Deadlock | RunEnd::Fault(..) => Status::Found,
    }
}
