//! Runs along given events.

ghost use Rattle.std.specs.Prelude.{◌≡◌, ◌<◌, ◌≤◌, IfOk, IfSome, Some, length};
ghost use Rattle.replays.specs.Telling.{tracer_words};
ghost use Rattle.runs.specs.Ends.{IsRun};
ghost use Rattle.runs.specs.Traces.{IsTraceOf};

use crate::ending::{Simulation, ended_run};
use machine::{Event, Fault, Halt};
use program::MethodId;
use replays::laws::lines_are_of_runs;
use replays::{Journal, RunEnd, Tracer};
use source::{Memory, Place};
use std::alloc::Global;

/// A run along given events: those that it took, and why the next one was no step. `None` if it took all.
#[derive(Drop)]
pub struct Trace {
    pub journal: Journal,
    pub halt: Option<Halt>,
}

/// Returns the halt as it is, but `Memory` as an error, since running out of memory ends no trace.
fn refuse_memory(halt: Halt) -> Result<Halt, Memory>
    ensures same { IfOk result (λ answer. answer ≡ halt) }
    ensures known { IfOk result (λ answer. answer ≡ Halt.Memory → ⊥) }
{
    match halt {
        Halt::Memory => Err(Memory),
        Halt::NoSuchProcess | Halt::NoSuchChoice | Halt::Fault(..) | Halt::Waits => Ok(halt),
    }
}

/// Takes these events one by one, from the beginning of a method, until one is no step.
///
/// # Errors
/// `Memory` if out of memory, also in a step: no trace has that as its halt.
pub fn trace_of(tracer: &Tracer<'_>, method: MethodId, events: &[Event]) -> Result<Trace, Memory>
    requires there { method.0 < length (tracer_words tracer.now).words.program.methods }
    ensures { IfOk result (IsTraceOf (tracer_words tracer.now) method.0 events.now) }
{
    lines_are_of_runs();
    let mut journal = tracer.begin(method)?;
    for index in 0..events.len() {
        match tracer.take(&mut journal, events[index]) {
            Ok(()) => {}
            Err(halt) => {
                let halt = Some(refuse_memory(halt)?);
                return Ok(Trace { journal, halt });
            }
        }
    }
    Ok(Trace {
        journal,
        halt: None,
    })
}

/// Returns the fault that is a halt, and its place. `None` if the halt is no fault.
fn fault_of(halt: Option<Halt>) -> Option<(Fault, Place)>
    ensures { IfSome result (λ stop. halt ≡ Some (Halt.Fault stop.0 stop.1)) }
{
    match halt {
        Some(Halt::Fault(fault, place)) => Some((fault, place)),
        _ => None,
    }
}

/// Runs a method along these events, until one of them is no step.
///
/// # Errors
/// `Memory` if out of memory.
pub fn follow(
    alloc: Global,
    tracer: &Tracer<'_>,
    method: MethodId,
    events: &[Event],
) -> Result<Simulation, Memory>
    requires there { method.0 < length (tracer_words tracer.now).words.program.methods }
    ensures run { IfOk result (IsRun (tracer_words tracer.now) method.0) }
    ensures few { IfOk result (λ run. length run.journal.events.items ≤ length events.now) }
{
    let traced = trace_of(tracer, method, events)?;
    let steps = traced.journal.events.len();
    match fault_of(traced.halt) {
        Some(stop) if steps < events.len() => Ok(Simulation {
            journal: traced.journal,
            end: RunEnd::Fault(events[steps], stop.0, stop.1),
        }),
        _ => ended_run(alloc, tracer, traced.journal),
    }
}
