//! A thread for each worker except the first.

ghost use Rattle.std.specs.Prelude.{◌≡◌, ℕ, ◌<◌, All, IfOk, length, slice_index_or, vec_len};
ghost use denote.Param.Send.{IsSync};
ghost use Rattle.pool.specs.Stints.{IsStint, IsWork, owner_of};

use crate::deque::DequeOwner;
use crate::gate::Gate;
use crate::job::Job;
use crate::stints::{Common, Shift, Stint};
use crate::working::work;
use std::alloc::{AllocError, Global};
use std::snapshot::Snapshot;
use std::sync::Wait;
use std::thread;
use std::thread::{Promise, PromisedHandle, Scope, Threads};

/// What a worker's thread promises: the work of the worker that began with this deque.
#[derive(Drop)]
pub(crate) struct Kept<'a, J, G> {
    common: &'a Common<'a, J, G>,
    begun: Snapshot<DequeOwner>,
}

impl<'a, J: Job, G> Promise<Shift<J::Seat, J::Out>> for Kept<'a, J, G> {
    ghost kept_by = { λ p r. IfOk r (IsWork (J.takes p.common.now.job.now) (J.seats p.common.now.job.now) (J.gives p.common.now.job.now)
        p.common.now.thieves.now p.begun.value) };
}

/// A worker's thread.
type Started<'a, J, G> = PromisedHandle<Shift<<J as Job>::Seat, <J as Job>::Out>, Kept<'a, J, G>>;

/// Starts a worker's thread.
fn start_one<'s, 'a: 's, E, J: Job, G: Gate, R: Threads + Wait + Sync>(
    scope: &Scope<'s, E>,
    rt: &'a R,
    alloc: Global,
    common: &'a Common<'a, J, G>,
    stint: Stint<J::Seat>,
) -> Result<Started<'a, J, G>, AllocError>
    requires few { length common.now.thieves.now < 1000 }
    requires stint { IsStint (J.takes common.now.job.now) (J.seats common.now.job.now) common.now.thieves.now stint }
    ensures { IfOk result (λ h. (h.promise.common.now ≡ common.now) × (h.promise.begun.value ≡ owner_of stint)) }
{
    let begun = Snapshot::of(&stint.1);
    let child = scope.spawn_with(
        Kept { common, begun },
        move || -> Shift<J::Seat, J::Out>
            requires { (length common.now.thieves.now < 1000)
                × IsStint (J.takes common.now.job.now) (J.seats common.now.job.now) common.now.thieves.now stint }
            ensures { IfOk result (IsWork (J.takes common.entry.now.job.now) (J.seats common.entry.now.job.now)
                (J.gives common.entry.now.job.now) common.entry.now.thieves.now (owner_of stint)) }
        { work(rt, alloc, common, stint) },
    )?;
    Ok(child)
}

/// Starts the threads of these workers.
///
/// # Errors
/// `AllocError` if an allocation or a thread was refused.
fn start_all<'s, 'a: 's, E, J: Job, G: Gate, R: Threads + Wait + Sync>(
    scope: &Scope<'s, E>,
    rt: &'a R,
    alloc: Global,
    common: &'a Common<'a, J, G>,
    stints: Vec<Stint<J::Seat>>,
) -> Result<Vec<Started<'a, J, G>>, AllocError>
    requires few { length common.now.thieves.now < 1000 }
    requires each { All (IsStint (J.takes common.now.job.now) (J.seats common.now.job.now) common.now.thieves.now) stints.items }
    ensures count { IfOk result (λ v. vec_len v ≡ vec_len stints) }
    ensures each { IfOk result (λ v. (k : ℕ) (d : _) (s : _) → k < vec_len v
        → ((slice_index_or v.items k d).promise.common.now ≡ common.now)
        × ((slice_index_or v.items k d).promise.begun.value ≡ owner_of (slice_index_or stints.items k s))) }
{
    let mut started = Vec::new(alloc);
    let mut rest = stints.into_iter();
    while let Some(stint) = rest.next() {
        let child = start_one(scope, rt, alloc, common, stint)?;
        started.push(child)?;
    }
    Ok(started)
}

/// Runs the first worker in this thread, and each other one in a thread of its own.
///
/// # Errors
/// `AllocError` if an allocation or a thread was refused; all threads have ended then, too.
pub(crate) fn run_all<J: Job, G: Gate, R: Threads + Wait + Sync>(
    rt: &R,
    alloc: Global,
    common: &Common<'_, J, G>,
    first: Stint<J::Seat>,
    others: Vec<Stint<J::Seat>>,
) -> Result<(Shift<J::Seat, J::Out>, Vec<Shift<J::Seat, J::Out>>), AllocError>
    requires few { length common.now.thieves.now < 1000 }
    requires first { IsStint (J.takes common.now.job.now) (J.seats common.now.job.now) common.now.thieves.now first }
    requires others { All (IsStint (J.takes common.now.job.now) (J.seats common.now.job.now) common.now.thieves.now) others.items }
    ensures first { IfOk result (λ r. IfOk r.0 (IsWork (J.takes common.now.job.now) (J.seats common.now.job.now)
        (J.gives common.now.job.now) common.now.thieves.now (owner_of first))) }
    ensures count { IfOk result (λ r. vec_len r.1 ≡ vec_len others) }
    ensures others { IfOk result (λ r. (k : ℕ) (d : _) (s : _) → k < vec_len r.1 → IfOk (slice_index_or r.1.items k d)
        (IsWork (J.takes common.now.job.now) (J.seats common.now.job.now) (J.gives common.now.job.now) common.now.thieves.now
        (owner_of (slice_index_or others.items k s)))) }
{
    thread::scope(
        thread::scope_env(),
        rt,
        |scope| -> Result<(Shift<J::Seat, J::Out>, Vec<Shift<J::Seat, J::Out>>), AllocError>
            requires { IsSync R.row × (length common.now.thieves.now < 1000)
                × IsStint (J.takes common.now.job.now) (J.seats common.now.job.now) common.now.thieves.now first
                × All (IsStint (J.takes common.now.job.now) (J.seats common.now.job.now) common.now.thieves.now) others.items }
            ensures first { IfOk result (λ r. IfOk r.0 (IsWork (J.takes common.entry.now.job.now) (J.seats common.entry.now.job.now)
                (J.gives common.entry.now.job.now) common.entry.now.thieves.now (owner_of first))) }
            ensures count { IfOk result (λ r. vec_len r.1 ≡ vec_len others) }
            ensures others { IfOk result (λ r. (k : ℕ) (d : _) (s : _) → k < vec_len r.1 → IfOk (slice_index_or r.1.items k d)
                (IsWork (J.takes common.entry.now.job.now) (J.seats common.entry.now.job.now) (J.gives common.entry.now.job.now)
                common.entry.now.thieves.now (owner_of (slice_index_or others.items k s)))) }
        {
            let started = start_all(scope, rt, alloc, common, others)?;
            let own = work(rt, alloc, common, first);
            match thread::join_promised(rt, started) {
                Ok(shifts) => Ok((own, shifts)),
                Err(_) => Err(AllocError),
            }
        },
    )
}
