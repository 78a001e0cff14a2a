//! A search of all runs from an entry.

ghost use Rattle.std.specs.Prelude.{◌≡◌, ◌≢◌, ◌<◌, ℕ, List, IfErr, IfOk, IfSome, IsErrOf, None, OnErr, OnOk, length};
ghost use Rattle.std.specs.Io.KnownBytes.{Keeps};
ghost use Rattle.rules.specs.Programs.{model_of};
ghost use Rattle.machine.specs.Outcomes.{QueueBounds};
ghost use Rattle.machine.specs.Runs.{AreBounds};
ghost use Rattle.explore.specs.Answers.{LeadsSoonest};
ghost use Rattle.devices.specs.Runs.{BeginsAnswer, LeavesRest, TakesAtMost, Writes};
ghost use Rattle.singcheck.specs.Entered.{IsBegun};
ghost use Rattle.singcheck.specs.PrintedRuns.{Explores, IsRunningFault, IsTextRunFault};
ghost use Rattle.singcheck.specs.Replays.{LacksEntry};

use crate::entering::{Begun, enter};
use crate::lines::{add_all_worlds, add_some_worlds};
use crate::printed_runs::{Ran, printed_run, tracer_of};
use crate::refusals::refused_report;
use crate::report::Report;
use deadlocks::laws::deadlocks_agree;
use devices::{Input, MAX_READ, RunFault, Sink, Source, Status, read_text, write_all};
use explore::{Answer, explore};
use machine::Event;
use replays::laws::lines_are_of_runs;
use replays::{Detail, RunEnd};
use runs::follow;
use semantics::laws::events_agree;
use source::Memory;
use std::alloc::Global;

/// Reads a program text, searches all runs from an entry for a deadlock, breadth first, and writes what it finds.
///
/// If the text, its names or its contracts have findings, the report of the first of these stages with findings is written, with status
/// `Found`; findings in methods do not matter. Otherwise the entry is looked up. If the search meets a deadlock, the lines of a run into
/// it are written, with status `Found`. If it has visited every world that runs from the entry reach, it writes that there is no deadlock
/// in them, and how many they are; this is proved. If it has visited `worlds` of them and there are others, it writes that it has found
/// none. The status is then `Empty`.
///
/// Returns the status, and a schedule with which `replay` takes the events into the deadlock, if one was found.
///
/// # Errors
/// `Entry` if no method is called `entry` (`Class.Method`), or if the first one that is gives something or takes something, numbers
/// included. `Read` and `Write` only if that device failed, `Memory` only if out of memory. Nothing is written before the whole answer
/// is known. After `Write`, a beginning of it was written.
pub fn run_explore<R: Source, W: Sink>(
    alloc: Global,
    reader: &mut R,
    entry: &[u8],
    worlds: usize,
    writer: &mut W,
) -> Result<(Status, Option<Vec<u8>>), RunFault>
    ensures written { IfOk result (λ ran. IfSome (R.remaining reader.old) (λ text.
        Writes (Explores entry.now worlds ran.1) text (W.contents writer.old) (W.contents writer.new) ran.0)) }
    ensures begun { IsErrOf result RunFault.Write → IfSome (R.remaining reader.old) (λ text.
        BeginsAnswer (Explores entry.now worlds None) text (W.contents writer.old) (W.contents writer.new)) }
    ensures entry { IsErrOf result RunFault.Entry → IfSome (R.remaining reader.old) (λ text. LacksEntry text entry.now) }
    ensures rest { OnOk result (LeavesRest MAX_READ (R.remaining reader.old) (R.remaining reader.new)) }
    ensures most { TakesAtMost MAX_READ (R.remaining reader.old) (R.remaining reader.new) }
    ensures read { IsErrOf result (RunFault.Read Input.Text) → R.failed reader.new ≢ R.failed reader.old }
    ensures write { IsErrOf result RunFault.Write → W.failed writer.new ≢ W.failed writer.old }
    ensures unwritten { OnErr result ((IsErrOf result RunFault.Write → ⊥) → Keeps (W.contents writer.old) (W.contents writer.new)) }
    ensures fault { IfErr result IsRunningFault }
{
    let text = read_text(alloc, reader)?;
    let ran = explore_text(alloc, &text, entry, worlds)?;
    write_all(&ran.report.bytes, writer)?;
    Ok((ran.report.status, ran.schedule))
}

/// Returns the answer to a text and an entry.
fn explore_text(alloc: Global, text: &[u8], entry: &[u8], worlds: usize) -> Result<Ran, RunFault>
    ensures explores { IfOk result (λ ran. Explores entry.now worlds ran.schedule text.now ran.report.bytes.items ran.report.status) }
    ensures entry { IsErrOf result RunFault.Entry → LacksEntry text.now entry.now }
    ensures fault { IfErr result IsTextRunFault }
{
    match enter(alloc, text, entry) {
        Ok(Some(begun)) => Ok(explore_begun(alloc, &begun, worlds)?),
        Ok(None) => Err(RunFault::Entry),
        Err(refused) => Ok(Ran {
            report: refused_report(alloc, text, refused)?,
            schedule: None,
        }),
    }
}

/// Searches the runs that begin with a method and returns the answer.
fn explore_begun(alloc: Global, begun: &Begun, worlds: usize) -> Result<Ran, Memory>
    requires there { begun.now.method.0 < length (model_of begun.now.program).methods }
    ensures { IfOk result (λ ran. (text entry : List ℕ) → IsBegun text entry begun.now
        → Explores entry worlds ran.schedule text ran.report.bytes.items ran.report.status) }
{
    deadlocks_agree();
    match explore(alloc, &begun.program, begun.method, worlds)? {
        Answer::Found(events) => shortest_run(alloc, begun, worlds, &events),
        Answer::Whole(count) => {
            let mut bytes = Vec::new(alloc);
            add_all_worlds(&mut bytes, count)?;
            Ok(empty(bytes))
        }
        Answer::Unknown => print_unknown(alloc, worlds),
    }
}

/// Returns the lines of the run along these events if it ends in a deadlock, as that along those that `explore` finds does.
fn shortest_run(
    alloc: Global,
    begun: &Begun,
    worlds: usize,
    events: &[Event],
) -> Result<Ran, Memory>
    requires there { begun.now.method.0 < length (model_of begun.now.program).methods }
    requires soonest { (bound : QueueBounds) → AreBounds (model_of begun.now.program) bound
        → LeadsSoonest (model_of begun.now.program) bound begun.now.method.0 events.now }
    ensures { IfOk result (λ ran. (text entry : List ℕ) → IsBegun text entry begun.now
        → Explores entry worlds ran.schedule text ran.report.bytes.items ran.report.status) }
{
    deadlocks_agree();
    events_agree();
    lines_are_of_runs();
    let tracer = tracer_of(alloc, begun, Detail::Notable)?;
    let run = follow(alloc, &tracer, begun.method, events)?;
    match run.end {
        RunEnd::Deadlock => printed_run(alloc, &tracer, run),
        RunEnd::Ended | RunEnd::Fault(..) | RunEnd::Running => print_unknown(alloc, worlds),
    }
}

/// Returns the line that says that no deadlock was found within this many worlds.
fn print_unknown(alloc: Global, worlds: usize) -> Result<Ran, Memory>
    ensures { IfOk result (λ ran. (text entry : List ℕ)
        → Explores entry worlds ran.schedule text ran.report.bytes.items ran.report.status) }
{
    let mut bytes = Vec::new(alloc);
    add_some_worlds(&mut bytes, worlds)?;
    Ok(empty(bytes))
}

/// Returns an answer of these bytes without a finding.
fn empty(bytes: Vec<u8>) -> Ran
    ensures bytes { result.report.bytes ≡ bytes }
    ensures status { result.report.status ≡ Status.Empty }
{
    Ran {
        report: Report {
            bytes,
            status: Status::Empty,
        },
        schedule: None,
    }
}
