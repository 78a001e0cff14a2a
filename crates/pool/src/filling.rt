//! Deques, one for each worker, and the tasks put into them before any worker begins.

ghost use Rattle.std.specs.Prelude.{◌≡◌, ◌<◌, ◌+◌, ℕ, [], ◌∷◌, All, IfOk, OnOk, length, map, vec_len};
ghost use Rattle.crossbeam_deque.specs.Handles.{worker_flavor};
ghost use Rattle.tasks.specs.Tasks.{number_of};
ghost use Rattle.pool.specs.Counts.{all_put, times};
ghost use Rattle.pool.specs.Owners.{AreFilled, AreThieves};

use crate::deque::{DequeOwner, Puts, Thief};
use crate::held::HeldTask;
use crate::job::Job;
use source::Memory;
use std::alloc::Global;
use tasks::{Task, give_up_all};

/// Makes `count` empty deques, each with room for `room` tasks at first.
///
/// # Errors
/// `Memory` if out of memory.
fn empty_deques<J: Job>(
    alloc: Global,
    job: &J,
    count: usize,
    room: usize,
) -> Result<Vec<DequeOwner>, Memory>
    ensures count { IfOk result (λ v. vec_len v ≡ count) }
    ensures filled { IfOk result (λ v. AreFilled (J.takes job.now) v.items) }
    ensures empty { IfOk result (λ v. (n : ℕ) → all_put n v.items ≡ 0) }
{
    let _ = job;
    let mut owners = Vec::new(alloc);
    for _ in 0..count {
        owners.push(DequeOwner::fifo_as(alloc, room)?)?;
    }
    Ok(owners)
}

/// Puts a task into the deque at an index.
///
/// # Errors
/// `Memory` if out of memory; the task is given up.
fn put_at<J: Job>(
    job: &J,
    owners: &mut Vec<DequeOwner>,
    index: usize,
    task: Task,
) -> Result<(), Memory>
    requires index { index < length owners.old.items }
    requires task { J.takes job.now task }
    requires filled { AreFilled (J.takes job.now) owners.old.items }
    ensures filled { OnOk result (AreFilled (J.takes job.now) owners.new.items) }
    ensures len { OnOk result (length owners.new.items ≡ length owners.old.items) }
    ensures put { OnOk result ((n : ℕ) → all_put n owners.new.items ≡ all_put n owners.old.items + times n (number_of task ∷ [])) }
{
    let _ = job;
    let owner = &mut owners[index];
    match owner.push_as::<Puts>(HeldTask { task }) {
        Ok(()) => Ok(()),
        Err(_) => Err(Memory),
    }
}

/// Puts the tasks into the deques in turn: task k into the deque of worker k modulo the number of workers.
///
/// # Errors
/// `Memory` if out of memory; all tasks are given up.
fn put_all<J: Job>(
    job: &J,
    mut owners: Vec<DequeOwner>,
    tasks: Vec<Task>,
) -> Result<Vec<DequeOwner>, Memory>
    requires some { 0 < vec_len owners }
    requires filled { AreFilled (J.takes job.now) owners.items }
    requires empty { (n : ℕ) → all_put n owners.items ≡ 0 }
    requires tasks { All (J.takes job.now) tasks.items }
    ensures count { IfOk result (λ v. vec_len v ≡ vec_len owners) }
    ensures filled { IfOk result (λ v. AreFilled (J.takes job.now) v.items) }
    ensures put { IfOk result (λ v. (n : ℕ) → all_put n v.items ≡ times n (map number_of tasks.items)) }
{
    let count = owners.len();
    let mut rest = tasks.into_iter();
    let mut index = 0;
    while let Some(task) = rest.next() {
        if let Err(memory) = put_at(job, &mut owners, index, task) {
            give_up_all(rest);
            return Err(memory);
        }
        index = (index + 1) % count;
    }
    rest.destroy_empty();
    Ok(owners)
}

/// Makes a deque for each of `count` workers, and puts the tasks into them.
///
/// # Errors
/// `Memory` if out of memory; all tasks are given up.
pub(crate) fn fill_deques<J: Job>(
    alloc: Global,
    job: &J,
    count: usize,
    tasks: Vec<Task>,
) -> Result<Vec<DequeOwner>, Memory>
    requires some { 0 < count }
    requires tasks { All (J.takes job.now) tasks.items }
    ensures count { IfOk result (λ v. vec_len v ≡ count) }
    ensures filled { IfOk result (λ v. AreFilled (J.takes job.now) v.items) }
    ensures put { IfOk result (λ v. (n : ℕ) → all_put n v.items ≡ times n (map number_of tasks.items)) }
{
    let room = tasks.len().div_ceil(count);
    match empty_deques(alloc, job, count, room) {
        Ok(owners) => put_all(job, owners, tasks),
        Err(memory) => {
            give_up_all(tasks.into_iter());
            Err(memory)
        }
    }
}

/// Returns a stealer of each deque, in order.
///
/// # Errors
/// `Memory` if out of memory.
pub(crate) fn stealers(alloc: Global, owners: &[DequeOwner]) -> Result<Vec<Thief>, Memory>
    requires fifo { All (λ o. worker_flavor o ≡ 0) owners.now }
    ensures { IfOk result (λ v. AreThieves owners.now v.items) }
{
    let mut thieves = Vec::new(alloc);
    for owner in owners {
        thieves.push(owner.stealer()?)?;
    }
    Ok(thieves)
}
