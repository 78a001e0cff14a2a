//! How many messages a queue can hold.

ghost use Rattle.std.specs.Prelude.{◌≡◌, ◌<◌, ◌≤◌, ◌⊎◌, ℕ, length, IfOk, get_or, false};
ghost use Rattle.contracts.specs.Bounds.{IsBound};
ghost use Rattle.contracts.specs.Conditions.{IsSound};
ghost use Rattle.contracts.specs.Drawings.{IsSignGraph};
ghost use Rattle.contracts.specs.Graphs.{groups, InRange, OnRing, height_at};
ghost use Rattle.contracts.specs.Marking.{IsMarked};
ghost use Rattle.contracts.specs.Parts.{IsWhole, contract_parts};
ghost use Rattle.contracts.specs.Peeling.{AreHeights};
ghost use Rattle.contracts.specs.Reached.{IsLongest, counted_height};
ghost use Rattle.program.specs.declared.contract.Sign.TheVariants.{Send, Receive};

use crate::arcs::SignGraph;
use crate::keys::states_of;
use crate::marking::reached_from;
use program::Contract;
use std::alloc::{AllocError, Global};

/// The greatest number of messages in the queue to each end.
#[derive(Clone, Copy, PartialEq, Eq)]
pub struct Bounds {
    pub to_imp: u32,
    pub to_exp: u32,
}

/// Computes the bounds of a contract from the graphs of its edges. They are right if it is sound.
pub fn bounds_of(
    alloc: Global,
    contract: &Contract,
    sends: &SignGraph,
    receives: &SignGraph,
) -> Result<Bounds, AllocError>
    requires whole { IsWhole (contract_parts contract.now) }
    requires sends { IsSignGraph contract.now Send sends.now }
    requires receives { IsSignGraph contract.now Receive receives.now }
    ensures to_imp { IfOk result (λ bounds. IsSound (contract_parts contract.now)
        → IsBound contract.now.edges.items contract.now.first Send bounds.to_imp) }
    ensures to_exp { IfOk result (λ bounds. IsSound (contract_parts contract.now)
        → IsBound contract.now.edges.items contract.now.first Receive bounds.to_exp) }
{
    let first = states_of(contract).position(contract.first.0);
    let reached = reached_from(alloc, &sends.groups, &receives.groups, first)?;
    let to_imp = longest(sends, &reached);
    let to_exp = longest(receives, &reached);
    Ok(Bounds { to_imp, to_exp })
}

/// Returns the greatest length of a walk from a marked vertex, if no vertex is on a ring.
fn longest(graph: &SignGraph, reached: &[bool]) -> u32
    requires range { InRange (groups graph.now.groups) }
    requires heights { AreHeights (groups graph.now.groups) graph.now.heights.items }
    requires reached { length reached.now ≡ length (groups graph.now.groups) }
    requires start { (s : ℕ) × IsMarked reached.now s }
    ensures longest { ((v : ℕ) → OnRing (groups graph.now.groups) v → ⊥) → IsLongest (groups graph.now.groups) reached.now result }
    ensures below { result < length (groups graph.now.groups) }
{
    tallest_of(&graph.heights, reached)
}

/// Returns the greatest height of a marked vertex.
fn tallest_of(heights: &[Option<u32>], reached: &[bool]) -> u32
    requires reached { length reached.now ≡ length heights.now }
    ensures most { (v : ℕ) → v < length heights.now → counted_height (height_at heights.now v)
        (get_or reached.now v false) ≤ result }
    ensures some { (result ≡ 0) ⊎ ((v : ℕ) × (v < length heights.now) × (counted_height
        (height_at heights.now v) (get_or reached.now v false) ≡ result)) }
{
    let mut most = 0;
    for v in 0..heights.len() {
        most = most.max(marked_height(heights[v], reached[v]));
    }
    most
}

/// Returns the height if it is known and the vertex is marked, else 0.
fn marked_height(height: Option<u32>, mark: bool) -> u32
    ensures { result ≡ counted_height height mark }
{
    if mark { height.unwrap_or(0) } else { 0 }
}
