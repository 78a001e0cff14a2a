//! Taking back the passes of the workers, and checking that all that was put was taken.

ghost use Rattle.std.specs.Prelude.{◌≡◌, ℕ, ◌+◌, ◌<◌, All, OnOk, length, slice_index_or, vec_len};
ghost use Rattle.crossbeam_deque.specs.Handles.{IsPassOf, view, worker_deque, worker_flavor};
ghost use Rattle.pool.specs.Counts.{DequeOwner as OwnerModel, all_put, all_taken, taken_by};
ghost use Rattle.pool.specs.Owners.{EachChanges, GotParts, OneChanges, TookIn, owner_parts};
ghost use Rattle.pool.specs.Rounds.{AreOf, all_by};
ghost use Rattle.pool.specs.Rule.{copies};

use crate::deque::{Cut, DequeOwner, Sweeps, Ticket};
use source::Memory;

/// Takes a pass back into the owner at an index.
fn absorb_at(owners: &mut Vec<DequeOwner>, index: usize, pass: Ticket)
    requires index { index < length owners.old.items }
    requires part { (o : OwnerModel) → 0 < owner_parts (slice_index_or owners.old.items index o) }
    requires pass { (o : OwnerModel) → IsPassOf (worker_deque (slice_index_or owners.old.items index o)) pass }
    ensures one { OneChanges index (TookIn pass) owners.old.items owners.new.items }
    ensures taken { (n : ℕ) → all_taken n owners.new.items ≡ all_taken n owners.old.items + copies n (view pass).taken }
{
    let owner = &mut owners[index];
    owner.absorb::<Cut>(pass);
}

/// Takes back a pass of each deque.
fn absorb_round(owners: &mut Vec<DequeOwner>, passes: Vec<Ticket>)
    requires parts { All (λ o. 0 < owner_parts o) owners.old.items }
    requires passes { AreOf owners.old.items passes.items }
    ensures owners { EachChanges (GotParts 1) owners.old.items owners.new.items }
    ensures taken { (n : ℕ) → all_taken n owners.new.items ≡ all_taken n owners.old.items + taken_by n passes.items }
{
    let mut rest = passes.into_iter();
    let mut index = 0;
    while let Some(pass) = rest.next() {
        absorb_at(owners, index, pass);
        index += 1;
    }
    rest.destroy_empty();
}

/// Takes back the passes of all workers.
pub(crate) fn absorb_all(owners: &mut Vec<DequeOwner>, rounds: Vec<Vec<Ticket>>)
    requires parts { All (λ o. 0 < owner_parts o) owners.old.items }
    requires rounds { All (λ passes. AreOf owners.old.items passes.items) rounds.items }
    ensures owners { EachChanges (GotParts (vec_len rounds)) owners.old.items owners.new.items }
    ensures taken { (n : ℕ) → all_taken n owners.new.items ≡ all_taken n owners.old.items + all_by n rounds.items }
{
    let mut rest = rounds.into_iter();
    while let Some(passes) = rest.next() {
        absorb_round(owners, passes);
    }
    rest.destroy_empty();
}

/// Checks that all that was put was taken. If all passes of a deque were taken back, it shows this by being empty.
///
/// # Errors
/// `Memory` if a deque is not empty. This never happens, since each worker took tasks until it found each deque empty.
pub(crate) fn sweep(owners: Vec<DequeOwner>) -> Result<(), Memory>
    requires fifo { All (λ o. worker_flavor o ≡ 0) owners.items }
    requires parts { All (λ o. owner_parts o ≡ 1024) owners.items }
    ensures { OnOk result ((n : ℕ) → all_put n owners.items ≡ all_taken n owners.items) }
{
    let mut rest = owners.into_iter();
    while let Some(mut owner) = rest.next() {
        match owner.pop_as::<Sweeps>() {
            None => {}
            Some(_) => return Err(Memory),
        }
    }
    Ok(())
}
