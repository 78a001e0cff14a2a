//! What one worker does.

ghost use Rattle.std.specs.Prelude.{◌≡◌, ◌<◌, ◌+◌, ℕ, [], ◌∷◌, IfOk, OnOk, length};
ghost use Rattle.crossbeam_deque.specs.Handles.{worker_view};
ghost use Rattle.pool.specs.Counts.{Does};
ghost use Rattle.pool.specs.Owners.{IsOwn, Took};
ghost use Rattle.pool.specs.Rule.{copies};
ghost use Rattle.pool.specs.Stints.{IsStint, IsWork, owner_of};

use crate::bench::Bench;
use crate::deque::{DequeOwner, TakesTask};
use crate::done::Done;
use crate::gate::Gate;
use crate::held::HeldTask;
use crate::job::Job;
use crate::stealing::steal_round;
use crate::stints::{Common, Shift, Stint};
use source::Memory;
use std::alloc::Global;
use std::sync::Wait;

/// Passes the gate, runs one task and stores its result.
///
/// # Errors
/// `Memory` if the job ran out of memory, and then the task is given up, or if the result could not be stored.
pub(crate) fn run_one<J: Job, G: Gate>(
    common: &Common<'_, J, G>,
    held: HeldTask,
    bench: &mut Bench<J::Seat, J::Out>,
) -> Result<(), Memory>
    requires task { J.takes common.now.job.now held.task }
    requires seat { J.seats common.now.job.now bench.old.seat }
    ensures seat { J.seats common.now.job.now bench.new.seat }
    ensures does { OnOk result (Does (J.gives common.now.job.now) (λ n. 0) (λ n. copies n (held ∷ [])) bench.old bench.new) }
{
    let task = held.into_task();
    let method = task.method();
    common.gate.enter(method.0);
    match common.job.run(task, &mut bench.seat) {
        Ok(out) => {
            bench.done.push(Done { method, out })?;
            Ok(())
        }
        Err((task, memory)) => {
            task.give_up();
            Err(memory)
        }
    }
}

/// Takes and runs tasks of the worker's own deque until it gives none.
///
/// # Errors
/// `Memory` if out of memory; no more tasks are taken then.
fn run_own<J: Job, G: Gate, R: Wait>(
    rt: &R,
    common: &Common<'_, J, G>,
    owner: &mut DequeOwner,
    bench: &mut Bench<J::Seat, J::Out>,
) -> Result<(), Memory>
    requires own { IsOwn (J.takes common.now.job.now) owner.old }
    requires seat { J.seats common.now.job.now bench.old.seat }
    ensures took { Took owner.old owner.new }
    ensures seat { J.seats common.now.job.now bench.new.seat }
    ensures does { OnOk result (Does (J.gives common.now.job.now) (λ n. copies n (worker_view owner.old).taken)
        (λ n. copies n (worker_view owner.new).taken) bench.old bench.new) }
{
    for _ in rt.forever() {
        match owner.pop_as::<TakesTask>() {
            Some(held) => run_one(common, held, bench)?,
            None => return Ok(()),
        }
    }
    unreachable!()
}

/// Does a worker's work: the tasks of its own deque, and then those that it finds in the others.
///
/// # Errors
/// `Memory` if out of memory; the worker takes no more tasks then.
pub(crate) fn work<J: Job, G: Gate, R: Wait>(
    rt: &R,
    alloc: Global,
    common: &Common<'_, J, G>,
    stint: Stint<J::Seat>,
) -> Shift<J::Seat, J::Out>
    requires few { length common.now.thieves.now < 1000 }
    requires stint { IsStint (J.takes common.now.job.now) (J.seats common.now.job.now) common.now.thieves.now stint }
    ensures { IfOk result (IsWork (J.takes common.now.job.now) (J.seats common.now.job.now) (J.gives common.now.job.now)
        common.now.thieves.now (owner_of stint)) }
{
    let (number, mut owner, mut passes, seat) = stint;
    let mut bench = Bench {
        seat,
        done: Vec::new(alloc),
    };
    run_own(rt, common, &mut owner, &mut bench)?;
    steal_round(rt, common, number, &mut passes, &mut bench)?;
    Ok((owner, passes, bench))
}
