//! The edges in order of their states and messages.

ghost use Rattle.std.specs.Prelude.{◌≡◌, ◌<◌, ◌↔◌, IfOk, IsTrue, get_or, length, map};
ghost use Rattle.contracts.specs.Orders.{AreEntries, HasEarlier, IsOrder, is_below, lower};
ghost use Rattle.contracts.specs.Positions.{first_with};

use crate::keys::key_of;
use program::{Edge, MessageId, StateId};
use std::alloc::{AllocError, Global};

/// Returns the indices of all edges, sorted by state, then by message, then by order in the text.
pub fn order_of(alloc: Global, edges: &[Edge]) -> Result<Vec<usize>, AllocError>
    ensures { IfOk result (λ order. IsOrder edges.now order.items) }
{
    let mut entries = keyed_indices(alloc, edges)?;
    entries.sort_unstable();
    indices_of(alloc, &entries)
}

/// Returns the key and the index of each edge.
fn keyed_indices(alloc: Global, edges: &[Edge]) -> Result<Vec<((u32, u32), usize)>, AllocError>
    ensures { IfOk result (λ entries. AreEntries edges.now (length edges.now) entries.items) }
{
    let mut entries = Vec::with_capacity(alloc, edges.len())?;
    for i in 0..edges.len() {
        entries.push((key_of(&edges[i]), i))?;
    }
    Ok(entries)
}

/// Returns the indices without the keys.
fn indices_of(alloc: Global, entries: &[((u32, u32), usize)]) -> Result<Vec<usize>, AllocError>
    ensures { IfOk result (λ indices. indices.items ≡ map (λ e. e.1) entries.now) }
{
    entries.iter().map(|entry| entry.1).collect(alloc)
}

/// Returns whether an earlier edge has the state and the message of the edge at this index of the order.
pub fn is_second(edges: &[Edge], order: &[usize], at: usize) -> bool
    requires ordered { IsOrder edges.now order.now }
    requires at { at < length order.now }
    ensures { IsTrue result ↔ HasEarlier edges.now (get_or order.now at 0) }
{
    at > 0 && key_of(&edges[order[at - 1]]) == key_of(&edges[order[at]])
}

/// Returns the index of the first edge of a state on a message, if there is one.
pub fn first_on(
    edges: &[Edge],
    order: &[usize],
    state: StateId,
    message: MessageId,
) -> Option<usize>
    requires ordered { ∥ IsOrder edges.now order.now ∥₁ }
    ensures { result ≡ first_with edges.now (state.0, message.0) }
{
    let key = (state.0, message.0);
    let at = order.partition_point(|place| is_below(edges, *place, key));
    if at < order.len() && key_of(&edges[order[at]]) == key {
        Some(order[at])
    } else {
        None
    }
}

/// Returns whether the edge at an index has a lower key.
fn is_below(edges: &[Edge], index: usize, key: (u32, u32)) -> bool
    ensures { result ≡ is_below edges.now index key }
{
    match edges.get(index) {
        Some(edge) => lower(key_of(edge), key),
        None => false,
    }
}

/// Returns whether the first of two keys is lower.
fn lower(x: (u32, u32), y: (u32, u32)) -> bool
    ensures { result ≡ lower x y }
{
    x.0 < y.0 || (x.0 == y.0 && x.1 < y.1)
}
