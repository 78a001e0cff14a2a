//! Random runs.

ghost use Rattle.std.specs.Prelude.{◌≡◌, ◌<◌, ℕ, IfOk, length};
ghost use Rattle.machine.specs.Views.{world_model};
ghost use Rattle.replays.specs.EventLines.{TraceWords};
ghost use Rattle.replays.specs.Journals.{IsJournal};
ghost use Rattle.replays.specs.Telling.{tracer_words};
ghost use Rattle.runs.specs.Ends.{IsRun, IsAttempt};
ghost use Rattle.runs.specs.Tallies.{AreTallies};

use crate::chooser::Chooser;
use crate::ending::{Simulation, ended_run};
use crate::tallies::Tallies;
use machine::Halt;
use program::MethodId;
use replays::{Journal, RunEnd, Tracer};
use source::Memory;
use std::alloc::Global;

/// Which runs are wanted: the method with which they begin, the seed of the first one, how many there are, and how many events each has
/// at most.
#[derive(Clone, Copy, Debug)]
pub struct Plan {
    pub method: MethodId,
    pub seed: u64,
    pub runs: u64,
    pub steps: u64,
}

/// One of several runs, the seed of its choices, and how many of all ended in each way.
#[derive(Drop)]
pub struct RandomRun {
    pub run: Simulation,
    pub seed: u64,
    pub tallies: Tallies,
}

impl RandomRun {
    /// Counts one more run, and keeps the one that is the better to look at.
    fn count(&mut self, run: Simulation, seed: u64)
        ensures run { (t : TraceWords) (m : ℕ) → IsRun t m self.old.run → IsRun t m run → IsRun t m self.new.run }
        ensures tallies { (t : TraceWords) (m : ℕ) → AreTallies t m self.old.tallies → IsRun t m run → AreTallies t m self.new.tallies }
    {
        self.tallies
            .count(run.end.kind(), run.journal.events.len(), seed);
        if is_better(&run, &self.run) {
            self.run = run;
            self.seed = seed;
        }
    }
}

/// Returns whether a later run is the better one to look at: of runs that fail it is the shortest, and of others the last.
fn is_better(later: &Simulation, earlier: &Simulation) -> bool {
    if earlier.fails() {
        later.fails() && later.journal.events.len() < earlier.journal.events.len()
    } else {
        true
    }
}

/// What an attempt to take an event comes to.
enum Attempt {
    /// An event was taken.
    Taken,
    /// An event is a fault.
    Faulty(RunEnd),
    /// No event can be taken.
    Idle,
}

/// Takes a random event that can be taken.
fn take_turn(
    tracer: &Tracer<'_>,
    chooser: &mut Chooser,
    journal: &mut Journal,
) -> Result<Attempt, Memory>
    ensures kept { IfOk result (λ attempt. (m : ℕ) → IsJournal (tracer_words tracer.now) m journal.old
        → IsJournal (tracer_words tracer.now) m journal.new) }
    ensures faulty { IfOk result (IsAttempt (tracer_words tracer.now).words.program (world_model journal.new.world)) }
{
    let program = tracer.program();
    chooser.list(program, &journal.world)?;
    for _ in 0..chooser.count() {
        let Some(event) = chooser.pick(program, &journal.world) else {
            return Ok(Attempt::Idle);
        };
        match tracer.take(journal, event) {
            Ok(()) => return Ok(Attempt::Taken),
            Err(Halt::Fault(fault, place)) => {
                return Ok(Attempt::Faulty(RunEnd::Fault(event, fault, place)));
            }
            Err(Halt::Memory) => return Err(Memory),
            Err(Halt::Waits | Halt::NoSuchProcess | Halt::NoSuchChoice) => {}
        }
    }
    Ok(Attempt::Idle)
}

/// Runs a method at random: each next event is one of those that can be taken, all alike likely, except that a condition
/// is true three times in four. The run stops if no event can be taken, at a fault, or after the most events of the plan.
fn run_with_seed(
    alloc: Global,
    tracer: &Tracer<'_>,
    plan: &Plan,
    seed: u64,
) -> Result<Simulation, Memory>
    requires there { plan.now.method.0 < length (tracer_words tracer.now).words.program.methods }
    ensures { IfOk result (IsRun (tracer_words tracer.now) plan.now.method.0) }
{
    let mut journal = tracer.begin(plan.method)?;
    let mut chooser = Chooser::new(alloc, seed);
    for _ in 0..plan.steps {
        match take_turn(tracer, &mut chooser, &mut journal)? {
            Attempt::Taken => {}
            Attempt::Faulty(end) => return Ok(Simulation { journal, end }),
            Attempt::Idle => return ended_run(alloc, tracer, journal),
        }
    }
    ended_run(alloc, tracer, journal)
}

/// Runs a method at random as often as the plan says, and returns the shortest run that ends in a deadlock or a fault, or the last one if
/// none does, and how many ended in each way. Each next event of a run is one of those that can be taken, all alike likely, except that a
/// condition is true three times in four.
///
/// # Errors
/// `Memory` if out of memory.
pub fn random_run(alloc: Global, tracer: &Tracer<'_>, plan: &Plan) -> Result<RandomRun, Memory>
    requires there { plan.now.method.0 < length (tracer_words tracer.now).words.program.methods }
    ensures run { IfOk result (λ r. IsRun (tracer_words tracer.now) plan.now.method.0 r.run) }
    ensures tallies { IfOk result (λ r. AreTallies (tracer_words tracer.now) plan.now.method.0 r.tallies) }
{
    let mut seed = plan.seed;
    let run = run_with_seed(alloc, tracer, plan, seed)?;
    let mut tallies = Tallies::new();
    tallies.count(run.end.kind(), run.journal.events.len(), seed);
    let mut all = RandomRun { run, seed, tallies };
    for _ in 1..plan.runs {
        seed = seed.wrapping_add(1);
        all.count(run_with_seed(alloc, tracer, plan, seed)?, seed);
    }
    Ok(all)
}
