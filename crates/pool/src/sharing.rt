//! Sharing tasks out over workers.

ghost use Rattle.std.specs.Prelude.{◌≡◌, ℕ, ◌<◌, ◌≤◌, ◌⊎◌, ◌↔◌, All, IfOk, IsErrOf, length, map, vec_len};
ghost use Rattle.tasks.specs.Tasks.{number_of};
ghost use Rattle.pool.specs.Counts.{method_of, times, times_done};
ghost use Rattle.pool.specs.Stints.{AreGathered, IsStint, owner_of};

use crate::absorbing::{absorb_all, sweep};
use crate::cutting::cut_all;
use crate::done::Done;
use crate::fault::PoolFault;
use crate::filling::{fill_deques, stealers};
use crate::gate::Gate;
use crate::gathering::{Gathered, gather};
use crate::job::Job;
use crate::stints::{Common, Stint, stints};
use crate::threads::run_all;
use source::Memory;
use std::alloc::Global;
use std::sync::Wait;
use std::thread::Threads;
use tasks::{Task, give_up_all};

/// The greatest number of workers.
pub const MOST_WORKERS: usize = 64;

/// Runs the workers that begin with these stints, and gathers what they have done.
///
/// # Errors
/// `Memory` if an allocation or a thread was refused, or if one of the workers returns it.
fn work_all<J: Job, G: Gate, R: Threads + Wait + Sync>(
    rt: &R,
    alloc: Global,
    common: &Common<'_, J, G>,
    mut stints: Vec<Stint<J::Seat>>,
) -> Result<Gathered<J::Seat, J::Out>, Memory>
    requires few { length common.now.thieves.now < 1000 }
    requires some { 0 < vec_len stints }
    requires each { All (IsStint (J.takes common.now.job.now) (J.seats common.now.job.now) common.now.thieves.now) stints.items }
    ensures { IfOk result (AreGathered (J.takes common.now.job.now) (J.seats common.now.job.now) (J.gives common.now.job.now)
        common.now.thieves.now (map owner_of stints.items)) }
{
    let first = stints.remove(0);
    let (own, rest) = run_all(rt, alloc, common, first, stints)?;
    gather(alloc, common, own, rest)
}

/// Runs all workers and returns what they have done. No task is left.
///
/// # Errors
/// `Memory` if an allocation or a thread was refused; the tasks that were not done are given up.
fn share_all<J: Job, G: Gate, R: Threads + Wait + Sync>(
    rt: &R,
    alloc: Global,
    tasks: Vec<Task>,
    seats: Vec<J::Seat>,
    job: &J,
    gate: &G,
) -> Result<(Vec<J::Seat>, Vec<Done<J::Out>>), Memory>
    requires workers { (0 < vec_len seats) × (vec_len seats ≤ 64) }
    requires tasks { All (J.takes job.now) tasks.items }
    requires seats { All (J.seats job.now) seats.items }
    ensures seats { IfOk result (λ r. (vec_len r.0 ≡ vec_len seats) × All (J.seats job.now) r.0.items) }
    ensures each { IfOk result (λ r. (n : ℕ) → times_done n r.1.items ≡ times n (map number_of tasks.items)) }
    ensures gives { IfOk result (λ r. All (λ d. J.gives job.now (method_of d) d.out) r.1.items) }
{
    let count = seats.len();
    let mut owners = fill_deques(alloc, job, count, tasks)?;
    let thieves = stealers(alloc, &owners)?;
    let rounds = cut_all(alloc, &mut owners, count)?;
    let common = Common {
        job,
        gate,
        thieves: &thieves,
    };
    let begun = stints(alloc, &common, owners, rounds, seats)?;
    let all = work_all(rt, alloc, &common, begun)?;
    let Gathered {
        mut owners,
        rounds,
        seats,
        done,
    } = all;
    absorb_all(&mut owners, rounds);
    sweep(owners)?;
    Ok((seats, done))
}

/// Shares tasks out over a worker for each seat.
///
/// Task k is put into the deque of worker k modulo the number of workers, before the first worker begins. A worker takes the tasks of its
/// own deque, and then steals from those of the others, from the next one on, until it has found each empty. The first worker runs in the
/// calling thread, and each other one in a thread of its own. So each task is run once, whoever took it, after the gate was entered for it.
/// Returns the seats in their order, and each result with its method.
///
/// # Errors
/// `Workers` if there are not 1 to `MOST_WORKERS` seats, before anything is done. `Memory` if an allocation or a thread was refused: that
/// worker takes no more tasks, and the others go on to the end. The tasks that were not done are then given up, and seats and results are
/// dropped.
pub fn share_out<J: Job, G: Gate, R: Threads + Wait + Sync>(
    rt: &R,
    alloc: Global,
    tasks: Vec<Task>,
    seats: Vec<J::Seat>,
    job: &J,
    gate: &G,
) -> Result<(Vec<J::Seat>, Vec<Done<J::Out>>), PoolFault>
    requires tasks { All (J.takes job.now) tasks.items }
    requires seats { All (J.seats job.now) seats.items }
    ensures workers { IsErrOf result PoolFault.Workers ↔ ((vec_len seats ≡ 0) ⊎ (MOST_WORKERS < vec_len seats)) }
    ensures seats { IfOk result (λ r. (vec_len r.0 ≡ vec_len seats) × All (J.seats job.now) r.0.items) }
    ensures each { IfOk result (λ r. (n : ℕ) → times_done n r.1.items ≡ times n (map number_of tasks.items)) }
    ensures gives { IfOk result (λ r. All (λ d. J.gives job.now (method_of d) d.out) r.1.items) }
{
    if !(1..=MOST_WORKERS).contains(&seats.len()) {
        give_up_all(tasks.into_iter());
        return Err(PoolFault::Workers);
    }
    match share_all(rt, alloc, tasks, seats, job, gate) {
        Ok(all) => Ok(all),
        Err(_) => Err(PoolFault::Memory),
    }
}
