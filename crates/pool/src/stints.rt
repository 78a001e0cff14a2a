//! What a worker begins and ends with.

ghost use Rattle.std.specs.Prelude.{◌≡◌, ℕ, [], All, IfOk, length, map, vec_len};
ghost use Rattle.pool.specs.Owners.{IsOwn, owner_taken};
ghost use Rattle.pool.specs.Rounds.{IsFresh};
ghost use Rattle.pool.specs.Stints.{IsStint, owner_of};

use crate::bench::Bench;
use crate::deque::{DequeOwner, Thief, Ticket};
use crate::job::Job;
use source::Memory;
use std::alloc::Global;

/// What all workers share.
#[derive(Drop)]
pub(crate) struct Common<'a, J, G> {
    pub(crate) job: &'a J,
    pub(crate) gate: &'a G,
    pub(crate) thieves: &'a [Thief],
}

/// What a worker begins with: its number, its own deque, a pass of each deque, and its seat. It is a tuple, since a struct that
/// contains a pass is not known to be `Send`.
pub(crate) type Stint<S> = (usize, DequeOwner, Vec<Ticket>, S);

/// What a worker ends with, as a tuple too: its own deque, its passes, and what it has done.
pub(crate) type Shift<S, X> = Result<(DequeOwner, Vec<Ticket>, Bench<S, X>), Memory>;

/// Returns what each worker begins with.
///
/// # Errors
/// `Memory` if out of memory.
pub(crate) fn stints<J: Job, G>(
    alloc: Global,
    common: &Common<'_, J, G>,
    owners: Vec<DequeOwner>,
    rounds: Vec<Vec<Ticket>>,
    seats: Vec<J::Seat>,
) -> Result<Vec<Stint<J::Seat>>, Memory>
    requires thieves { length common.now.thieves.now ≡ vec_len owners }
    requires rounds { vec_len rounds ≡ vec_len owners }
    requires seats { vec_len seats ≡ vec_len owners }
    requires own { All (λ o. IsOwn (J.takes common.now.job.now) o) owners.items }
    requires fresh { All (λ o. owner_taken o ≡ []) owners.items }
    requires passes { All (λ ps. IsFresh (J.takes common.now.job.now) common.now.thieves.now ps.items) rounds.items }
    requires each_seat { All (J.seats common.now.job.now) seats.items }
    ensures each { IfOk result (λ v. All (IsStint (J.takes common.now.job.now) (J.seats common.now.job.now) common.now.thieves.now)
        v.items) }
    ensures owners { IfOk result (λ v. map owner_of v.items ≡ owners.items) }
{
    let _ = common;
    let mut all = Vec::new(alloc);
    let mut rounds = rounds.into_iter();
    let mut seats = seats.into_iter();
    let mut rest = owners.into_iter();
    while let Some(owner) = rest.next() {
        let (Some(passes), Some(seat)) = (rounds.next(), seats.next()) else {
            unreachable!()
        };
        all.push((all.len(), owner, passes, seat))?;
    }
    Ok(all)
}
