//! Cutting off passes for the workers, one of each deque for each of them.

ghost use Rattle.std.specs.Prelude.{◌≡◌, ◌<◌, ◌+◌, All, IfOk, OnOk, length, slice_index_or, vec_len};
ghost use Rattle.pool.specs.Counts.{DequeOwner as OwnerModel};
ghost use Rattle.pool.specs.Owners.{CutOff, EachChanges, IsWholeOwner, LostParts, OneChanges, owner_parts};
ghost use Rattle.pool.specs.Rounds.{AreCutOff, AreNew};

use crate::deque::{Cut, DequeOwner, Ticket};
use source::Memory;
use std::alloc::Global;

/// Cuts off a pass of the deque at an index.
fn cut_at(owners: &mut Vec<DequeOwner>, index: usize) -> Ticket
    requires index { index < length owners.old.items }
    requires part { (o : OwnerModel) → 1 < owner_parts (slice_index_or owners.old.items index o) }
    ensures { OneChanges index (λ old new. CutOff old new result) owners.old.items owners.new.items }
{
    let owner = &mut owners[index];
    owner.another::<Cut>()
}

/// Cuts off a pass of each deque.
///
/// # Errors
/// `Memory` if out of memory.
fn cut_round(alloc: Global, owners: &mut Vec<DequeOwner>) -> Result<Vec<Ticket>, Memory>
    requires parts { All (λ o. 1 < owner_parts o) owners.old.items }
    ensures { IfOk result (λ passes. AreCutOff owners.old.items owners.new.items passes.items) }
{
    let mut passes = Vec::new(alloc);
    for index in 0..owners.len() {
        passes.push(cut_at(owners, index))?;
    }
    Ok(passes)
}

/// Cuts off a pass of each deque for each of `count` workers.
///
/// # Errors
/// `Memory` if out of memory.
pub(crate) fn cut_all(
    alloc: Global,
    owners: &mut Vec<DequeOwner>,
    count: usize,
) -> Result<Vec<Vec<Ticket>>, Memory>
    requires whole { All IsWholeOwner owners.old.items }
    requires few { count < 1000 }
    ensures owners { OnOk result (EachChanges (LostParts count) owners.old.items owners.new.items) }
    ensures count { IfOk result (λ v. vec_len v ≡ count) }
    ensures rounds { IfOk result (λ v. All (λ passes. AreNew owners.old.items passes.items) v.items) }
{
    let mut rounds = Vec::new(alloc);
    for _ in 0..count {
        rounds.push(cut_round(alloc, owners)?)?;
    }
    Ok(rounds)
}
