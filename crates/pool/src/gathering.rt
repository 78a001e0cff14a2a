//! Gathering what all workers have done.

ghost use Rattle.std.specs.Prelude.{◌++◌, [], ◌∷◌, List, IfOk};
ghost use Rattle.pool.specs.Counts.{DequeOwner as OwnerModel};
ghost use Rattle.pool.specs.Stints.{AreGathered, AreWork, IsWork};

use crate::bench::Bench;
use crate::deque::{DequeOwner, Ticket};
use crate::done::Done;
use crate::job::Job;
use crate::stints::{Common, Shift};
use source::Memory;
use std::alloc::Global;

/// What all workers so far have done.
#[derive(Drop)]
pub struct Gathered<S, X> {
    pub(crate) owners: Vec<DequeOwner>,
    pub(crate) rounds: Vec<Vec<Ticket>>,
    pub(crate) seats: Vec<S>,
    pub(crate) done: Vec<Done<X>>,
}

/// Adds what one worker has done.
///
/// # Errors
/// `Memory` if out of memory, or if the worker returned it.
fn gather_one<J: Job, G>(
    common: &Common<'_, J, G>,
    all: Gathered<J::Seat, J::Out>,
    shift: Shift<J::Seat, J::Out>,
) -> Result<Gathered<J::Seat, J::Out>, Memory>
    ensures { (begun : List OwnerModel) (owner : OwnerModel)
        → AreGathered (J.takes common.now.job.now) (J.seats common.now.job.now) (J.gives common.now.job.now) common.now.thieves.now
        begun all
        → IfOk shift (IsWork (J.takes common.now.job.now) (J.seats common.now.job.now) (J.gives common.now.job.now) common.now.thieves.now
        owner)
        → IfOk result (AreGathered (J.takes common.now.job.now) (J.seats common.now.job.now) (J.gives common.now.job.now)
        common.now.thieves.now (begun ++ owner ∷ [])) }
{
    let _ = common;
    let Gathered {
        mut owners,
        mut rounds,
        mut seats,
        mut done,
    } = all;
    let (owner, passes, bench) = shift?;
    let Bench {
        seat,
        done: mut more,
    } = bench;
    owners.push(owner)?;
    rounds.push(passes)?;
    seats.push(seat)?;
    done.append(&mut more)?;
    Ok(Gathered {
        owners,
        rounds,
        seats,
        done,
    })
}

/// Gathers what the workers have done, the first of them and the others.
///
/// # Errors
/// `Memory` if out of memory, or if one of the workers returned it.
pub(crate) fn gather<J: Job, G>(
    alloc: Global,
    common: &Common<'_, J, G>,
    first: Shift<J::Seat, J::Out>,
    others: Vec<Shift<J::Seat, J::Out>>,
) -> Result<Gathered<J::Seat, J::Out>, Memory>
    ensures { (one : OwnerModel) (rest : List OwnerModel)
        → IfOk first (IsWork (J.takes common.now.job.now) (J.seats common.now.job.now) (J.gives common.now.job.now)
        common.now.thieves.now one)
        → AreWork (J.takes common.now.job.now) (J.seats common.now.job.now) (J.gives common.now.job.now) common.now.thieves.now
        rest others.items
        → IfOk result (AreGathered (J.takes common.now.job.now) (J.seats common.now.job.now) (J.gives common.now.job.now)
        common.now.thieves.now (one ∷ rest)) }
{
    let none = Gathered {
        owners: Vec::new(alloc),
        rounds: Vec::new(alloc),
        seats: Vec::new(alloc),
        done: Vec::new(alloc),
    };
    let mut all = gather_one(common, none, first)?;
    let mut rest = others.into_iter();
    while let Some(shift) = rest.next() {
        all = gather_one(common, all, shift)?;
    }
    Ok(all)
}
