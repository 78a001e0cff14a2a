//! Edges of one sign as arcs between the positions of their states.

ghost use Rattle.std.specs.Prelude.{◌≡◌, ◌==◌, ◌≤◌, length, map, not, IfOk};
ghost use Rattle.contracts.specs.Graphs.{InRange, groups};
ghost use Rattle.contracts.specs.Arcs.{AreArcs, IsDrawn, EndsListed};
ghost use Rattle.contracts.specs.Rings.{AreRings};
ghost use Rattle.contracts.specs.Peeling.{AreHeights};
ghost use Rattle.contracts.specs.Positions.{numbers_of};
ghost use Rattle.program.specs.declared.limits.TheConstants.{MOST_STATES};

use crate::grouping::groups_of;
use crate::groups::Groups;
use crate::heights::first_heights;
use crate::positions::Listing;
use crate::ringing::{nonempty_groups, rings};
use program::{Edge, Sign};
use std::alloc::{AllocError, Global};

/// An arc from one position to another.
#[derive(Clone, Copy, PartialEq, Eq)]
pub struct Arc {
    pub from: usize,
    pub to: usize,
}

/// The edges of one sign as a graph of the positions of states: for each position the ends of its edges, the greatest length of a
/// walk from there if there is one, and whether it is on a ring.
#[derive(Drop)]
pub struct SignGraph {
    pub groups: Groups<usize>,
    pub heights: Vec<Option<u32>>,
    pub rings: Vec<bool>,
}

/// For each position, whether an edge of the sign begins there and whether edges of the sign lead from there back to it.
#[derive(Drop)]
pub struct Marks {
    pub leaves: Vec<bool>,
    pub rings: Vec<bool>,
}

impl SignGraph {
    /// Builds the graph of the edges that have the sign.
    pub fn new(
        alloc: Global,
        edges: &[Edge],
        states: Listing,
        sign: Sign,
    ) -> Result<SignGraph, AllocError>
        requires few { length (numbers_of states) ≤ MOST_STATES }
        requires listed { EndsListed (numbers_of states) edges.now }
        ensures range { IfOk result (λ graph. InRange (groups graph.groups)) }
        ensures drawn { IfOk result (λ graph. IsDrawn (numbers_of states) edges.now
            (λ e. e.sign ≡ sign) (groups graph.groups)) }
        ensures heights { IfOk result (λ graph. AreHeights (groups graph.groups) graph.heights.items) }
        ensures rings { IfOk result (λ graph. AreRings (groups graph.groups) graph.rings.items) }
    {
        let arcs = arcs_of(alloc, edges, states, sign)?;
        let groups = groups_of(alloc, states.len(), &arcs)?;
        drop(arcs); // freed early, so that a large contract takes less memory
        let mut heights = first_heights(alloc, &groups)?;
        let rings = rings(alloc, &groups, &mut heights)?;
        Ok(SignGraph {
            groups,
            heights,
            rings,
        })
    }

    /// Keeps the marks, which are all that is needed once the bounds are known, and drops the rest.
    pub fn into_marks(self, alloc: Global) -> Result<Marks, AllocError>
        ensures leaves { IfOk result (λ marks. marks.leaves.items ≡ map (λ group. not (length group == 0)) (groups self.groups)) }
        ensures rings { IfOk result (λ marks. marks.rings ≡ self.rings) }
    {
        let leaves = nonempty_groups(alloc, &self.groups)?;
        Ok(Marks {
            leaves,
            rings: self.rings,
        })
    }
}

/// Returns the arcs of the edges that have the sign.
fn arcs_of(
    alloc: Global,
    edges: &[Edge],
    states: Listing,
    sign: Sign,
) -> Result<Vec<Arc>, AllocError>
    requires listed { EndsListed (numbers_of states) edges.now }
    ensures arcs { IfOk result
        (λ arcs. AreArcs (numbers_of states) edges.now sign arcs.items) }
{
    let mut arcs = Vec::with_capacity(alloc, edges.len())?; // capacity that is never written to costs nothing
    for edge in edges {
        if edge.sign == sign {
            arcs.push(Arc {
                from: states.position(edge.from.0),
                to: states.position(edge.to.0),
            })?;
        }
    }
    Ok(arcs)
}
