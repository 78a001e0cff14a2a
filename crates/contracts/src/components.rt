//! The strongly connected components of a graph: which vertices are on a ring, and an order in which each component comes after
//! those that it leads to.
//!
//! The algorithm is Gabow's, of "Path-based depth-first search for strong and biconnected components" (2000). The components that
//! are not complete yet are consecutive parts of one list of vertices. An arc from the last part to an earlier one joins all parts
//! from there on. The last part is complete once no arc from it is left to follow.

ghost use Rattle.std.specs.Prelude.{◌≡◌, ◌++◌, ◌<◌, ◌≤◌, ℕ, [], ◌∷◌, length, get_or, map, All, Contains, IfOk, IfSome, IfNone, OnOk};
ghost use Rattle.contracts.specs.Arcs.{arc};
ghost use Rattle.contracts.specs.Graphs.{groups, InRange};
ghost use Rattle.contracts.specs.Rings.{AreRings};
ghost use Rattle.contracts.specs.Searches.{AreBoundsTo, AreRising, IsFinishing, IsIdle, IsKept, IsMet, IsNextEnd};
ghost use Rattle.contracts.specs.Searches.{CanReach, StayMet, TellsComponent, status_at, steps_left, set_at_each};
ghost use Rattle.contracts.specs.declared.arcs.Arc.{Arc};

use crate::arcs::Arc;
use crate::groups::Groups;
use std::alloc::{AllocError, Global};

/// Which vertices are on a ring, and all vertices in the order in which their components were completed: each vertex comes after its
/// successors, except those that lead back to it.
#[derive(Drop)]
pub struct Components {
    pub rings: Vec<bool>,
    pub order: Vec<usize>,
}

/// How far the search has got with a vertex.
#[derive(Clone, Copy)]
enum VertexStatus {
    /// The search has not met it.
    New,
    /// Its component is not complete yet. The number is its index among the pending vertices.
    Pending(usize),
    /// Its component is complete.
    Complete,
}

/// A search for components.
#[derive(Drop)]
struct Search {
    statuses: Vec<VertexStatus>,
    /// The vertices whose components are not complete yet, in the order in which the search met them.
    pending: Vec<usize>,
    /// The indices at which these components begin.
    bounds: Vec<usize>,
    /// The arcs that are left to follow, each from the index of a pending vertex to a vertex.
    arcs: Vec<Arc>,
    /// Whether each vertex is on a ring, once its component is complete.
    rings: Vec<bool>,
    /// The vertices of the complete components, in the order of their completion.
    order: Vec<usize>,
}

/// Finds the components of a graph, in time linear in its vertices and arcs.
pub fn components_of(alloc: Global, graph: &Groups<usize>) -> Result<Components, AllocError>
    requires range { InRange (groups graph.now) }
    ensures rings { IfOk result (λ found. AreRings (groups graph.now) found.rings.items) }
    ensures order { IfOk result (λ found. IsFinishing (groups graph.now) found.order.items) }
{
    let mut search = Search::new(alloc, graph)?;
    for start in 0..graph.len() {
        if let VertexStatus::New = search.statuses[start] {
            search.enter(graph, start)?;
        }
        search.complete(graph)?;
    }
    Ok(Components {
        rings: search.rings,
        order: search.order,
    })
}

impl Search {
    ghost use Rattle.std.specs.Prelude.{List};

    /// Returns a search that has met no vertex. No list grows beyond its initial capacity, and capacity that is never written to costs
    /// nothing.
    fn new(alloc: Global, graph: &Groups<usize>) -> Result<Search, AllocError>
        ensures kept { IfOk result (IsKept (groups graph.now)) }
        ensures idle { IfOk result IsIdle }
    {
        let count = graph.len();
        Ok(Search {
            statuses: vec![in alloc; VertexStatus::New; count]?,
            pending: Vec::with_capacity(alloc, count)?,
            bounds: Vec::with_capacity(alloc, count)?,
            arcs: Vec::with_capacity(alloc, graph.items.len())?,
            rings: vec![in alloc; false; count]?,
            order: Vec::with_capacity(alloc, count)?,
        })
    }

    /// Follows the remaining arcs until every component that was begun is complete.
    fn complete(&mut self, graph: &Groups<usize>) -> Result<(), AllocError>
        requires range { InRange (groups graph.now) }
        requires kept { IsKept (groups graph.now) self.old }
        ensures kept { OnOk result (IsKept (groups graph.now) self.new) }
        ensures idle { OnOk result (IsIdle self.new) }
        ensures met { OnOk result (StayMet self.old self.new) }
    {
        'components: while let Some(bound) = self.bounds.last().copied() {
            match self.next_end(bound) {
                Some(end) => self.follow(graph, end)?,
                None => self.complete_last(graph, bound)?,
            }
        }
        Ok(())
    }

    /// Returns the end of the next arc to follow from the last component, which begins at this index. `None` if no such arc is left.
    fn next_end(&self, bound: usize) -> Option<usize>
        requires last { (b : ℕ) → Contains self.now.bounds.items b → b ≤ bound }
        requires rise { AreRising (map (λ a. a.from) self.now.arcs.items) }
        ensures some { IfSome result (λ end. IsNextEnd self.now.arcs.items self.now.bounds.items end) }
        ensures none { IfNone result ((a : Arc) → Contains self.now.arcs.items a → a.from < bound) }
    {
        match self.arcs.last() {
            Some(arc) if arc.from >= bound => Some(arc.to),
            _ => None,
        }
    }

    /// Follows the last arc. If its end is new, the arc stays until the search comes back to it.
    fn follow(&mut self, graph: &Groups<usize>, end: usize) -> Result<(), AllocError>
        requires range { InRange (groups graph.now) }
        requires kept { IsKept (groups graph.now) self.old }
        requires end { IsNextEnd self.old.arcs.items self.old.bounds.items end }
        ensures kept { OnOk result (IsKept (groups graph.now) self.new) }
        ensures met { OnOk result (StayMet self.old self.new) }
        ensures fewer { OnOk result (steps_left graph.now self.new < steps_left graph.now self.old) }
    {
        match self.statuses[end] {
            VertexStatus::New => self.enter(graph, end)?,
            VertexStatus::Pending(index) => {
                join(&mut self.bounds, index);
                self.arcs.pop();
            }
            VertexStatus::Complete => {
                self.arcs.pop();
            }
        }
        Ok(())
    }

    /// Begins a component with a new vertex to which all pending vertices lead.
    fn enter(&mut self, graph: &Groups<usize>, v: usize) -> Result<(), AllocError>
        requires v { v < length (groups graph.now) }
        requires new { status_at self.old.statuses.items v ≡ VertexStatus.New }
        requires kept { IsKept (groups graph.now) self.old }
        requires leads { (i : ℕ) → i < length self.old.pending.items
            → CanReach (groups graph.now) (get_or self.old.pending.items i 0) v }
        ensures kept { OnOk result (IsKept (groups graph.now) self.new) }
        ensures met { OnOk result (StayMet self.old self.new) }
        ensures this { OnOk result (IsMet self.new v) }
        ensures fewer { OnOk result (steps_left graph.now self.new < steps_left graph.now self.old) }
    {
        let index = self.pending.len();
        self.statuses[v] = VertexStatus::Pending(index);
        self.pending.push(v)?;
        self.bounds.push(index)?;
        add_arcs(&mut self.arcs, index, graph.group(v))?;
        Ok(())
    }

    /// Completes the last component, which begins at this index and has no arc left to follow.
    fn complete_last(&mut self, graph: &Groups<usize>, bound: usize) -> Result<(), AllocError>
        requires range { InRange (groups graph.now) }
        requires kept { IsKept (groups graph.now) self.old }
        requires within { bound ≤ length self.old.pending.items }
        requires last { (rest : List ℕ) × (self.old.bounds.items ≡ rest ++ bound ∷ []) }
        requires none { (a : Arc) → Contains self.old.arcs.items a → a.from < bound }
        ensures kept { OnOk result (IsKept (groups graph.now) self.new) }
        ensures met { OnOk result (StayMet self.old self.new) }
        ensures fewer { OnOk result (steps_left graph.now self.new < steps_left graph.now self.old) }
    {
        let component = &self.pending[bound..];
        let on_ring = are_on_ring(graph, component);
        write_each(&mut self.statuses, component, VertexStatus::Complete);
        write_each(&mut self.rings, component, on_ring);
        self.order.extend_from_slice(component)?;
        self.pending.truncate(bound);
        self.bounds.pop();
        Ok(())
    }
}

/// Adds an arc from an index to each of the vertices.
fn add_arcs(arcs: &mut Vec<Arc>, from: usize, ends: &[usize]) -> Result<(), AllocError>
    ensures { OnOk result (arcs.new.items ≡ arcs.old.items ++ map (arc from) ends.now) }
{
    for end in ends {
        arcs.push(Arc { from, to: *end })?;
    }
    Ok(())
}

/// Removes the bounds after an index.
fn join(bounds: &mut Vec<usize>, index: usize)
    requires { AreRising bounds.old.items }
    ensures { AreBoundsTo index bounds.old.items bounds.new.items }
{
    'bounds: while let Some(bound) = bounds.last().copied() {
        if bound <= index {
            return;
        }
        bounds.pop();
    }
}

/// Returns whether the vertices of a component are on a ring. Several always are. A single one is if an arc leads from it to itself.
fn are_on_ring(graph: &Groups<usize>, component: &[usize]) -> bool
    requires within { All (λ v. v < length (groups graph.now)) component.now }
    ensures { TellsComponent (groups graph.now) component.now result }
{
    match component {
        [v] => graph.group(*v).contains(v),
        _ => true,
    }
}

/// Writes an item to each of the indices.
fn write_each<T: Copy>(items: &mut [T], indices: &[usize], item: T)
    requires { All (λ p. p < length items.old) indices.now }
    ensures { items.new ≡ set_at_each items.old indices.now item }
{
    for index in indices {
        items[*index] = item;
    }
}
