//! The edges from a state.

ghost use Rattle.std.specs.Prelude.{◌≡◌, ◌<◌, All, IfOk, length, map};
ghost use Rattle.contracts.specs.Arcs.{EndsListed};
ghost use Rattle.contracts.specs.Bounds.{sign_to};
ghost use Rattle.contracts.specs.Graphs.{groups};
ghost use Rattle.contracts.specs.Leaving.{AreLeaving, AreSources, edge_at, sign_from};
ghost use Rattle.contracts.specs.Positions.{numbers_of};

use crate::arcs::Arc;
use crate::grouping::groups_of;
use crate::groups::Groups;
use crate::positions::Listing;
use program::{Edge, Side, Sign};
use std::alloc::{AllocError, Global};

/// Returns a group for the position of each state: the edges from that state, in order of the text.
pub(crate) fn edges_by_state(
    alloc: Global,
    edges: &[Edge],
    states: Listing,
) -> Result<Groups<Edge>, AllocError>
    requires listed { EndsListed (numbers_of states) edges.now }
    ensures { IfOk result (λ leaving. AreLeaving (numbers_of states) edges.now (groups leaving)) }
{
    let sources = sources_of(alloc, edges, states)?;
    let indices = groups_of(alloc, states.len(), &sources)?;
    drop(sources); // freed early, so that a large contract takes less memory
    let items = edges_at(alloc, edges, &indices.items)?;
    Ok(Groups {
        items,
        ends: indices.ends,
    })
}

/// Returns for each edge an arc from the position of its state to its own index.
fn sources_of(alloc: Global, edges: &[Edge], states: Listing) -> Result<Vec<Arc>, AllocError>
    requires listed { EndsListed (numbers_of states) edges.now }
    ensures { IfOk result (λ sources. AreSources (numbers_of states) edges.now (length edges.now) sources.items) }
{
    let mut sources = Vec::with_capacity(alloc, edges.len())?;
    for i in 0..edges.len() {
        sources.push(Arc {
            from: states.position(edges[i].from.0),
            to: i,
        })?;
    }
    Ok(sources)
}

/// Returns the edges at these indices.
fn edges_at(alloc: Global, edges: &[Edge], indices: &[usize]) -> Result<Vec<Edge>, AllocError>
    requires { All (λ i. i < length edges.now) indices.now }
    ensures { IfOk result (λ found. found.items ≡ map (edge_at edges.now) indices.now) }
{
    indices.iter().map(|i| edges[*i]).collect(alloc)
}

/// Returns the sign of the edges along which an end sends.
pub(crate) fn sign_from(side: Side) -> Sign
    ensures { result ≡ sign_from side }
{
    match side {
        Side::Imp => Sign::Receive,
        Side::Exp => Sign::Send,
    }
}

/// Returns the sign of the edges along which an end receives.
pub(crate) fn sign_to(side: Side) -> Sign
    ensures { result ≡ sign_to side }
{
    match side {
        Side::Imp => Sign::Send,
        Side::Exp => Sign::Receive,
    }
}
