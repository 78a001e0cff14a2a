//! The end of a run.

ghost use Rattle.std.specs.Prelude.{◌≡◌, ℕ, IfOk};
ghost use Rattle.rules.specs.Programs.{model_of};
ghost use Rattle.machine.specs.Views.{world_model};
ghost use Rattle.replays.specs.Journals.{IsJournal};
ghost use Rattle.replays.specs.Telling.{tracer_words};
ghost use Rattle.runs.specs.Ends.{IsAnEnd, IsRun, is_failure};

use deadlocks::{all_ended, is_deadlock};
use machine::World;
use replays::{Journal, RunEnd, Tracer};
use rules::Program;
use source::Memory;
use std::alloc::Global;

/// A run, and how it ends.
#[derive(Drop)]
pub struct Simulation {
    pub journal: Journal,
    pub end: RunEnd,
}

impl Simulation {
    /// Returns whether the run ends in a deadlock or a fault.
    pub fn fails(&self) -> bool
        ensures { result ≡ is_failure self.now.end }
    {
        match self.end {
            RunEnd::Deadlock | RunEnd::Fault(..) => true,
            RunEnd::Ended | RunEnd::Running => false,
        }
    }
}

/// Returns how a run ends that has come to this world and has met no fault.
///
/// # Errors
/// `Memory` if out of memory.
fn end_at(alloc: Global, program: &Program, world: &World) -> Result<RunEnd, Memory>
    ensures { IfOk result (IsAnEnd (model_of program.now) (world_model world.now)) }
{
    if all_ended(world) {
        return Ok(RunEnd::Ended);
    }
    if is_deadlock(alloc, program, world)? {
        Ok(RunEnd::Deadlock)
    } else {
        Ok(RunEnd::Running)
    }
}

/// Returns a run that has met no fault, with its end.
///
/// # Errors
/// `Memory` if out of memory.
pub(crate) fn ended_run(
    alloc: Global,
    tracer: &Tracer<'_>,
    journal: Journal,
) -> Result<Simulation, Memory>
    ensures run { IfOk result (λ run. (m : ℕ) → IsJournal (tracer_words tracer.now) m journal → IsRun (tracer_words tracer.now) m run) }
    ensures journal { IfOk result (λ run. run.journal ≡ journal) }
{
    let end = end_at(alloc, tracer.program(), &journal.world)?;
    Ok(Simulation { journal, end })
}
