//! Arcs grouped by the vertices at which they begin.

ghost use Rattle.std.specs.Prelude.{◌≡◌, ◌++◌, ◌<◌, ℕ, [], All, Contains, get_or, length, IfOk};
ghost use Rattle.contracts.specs.Arcs.{AllWithin, AreGroups, ends_from};
ghost use Rattle.contracts.specs.Chains.{AreChained, AreEnds, IsFirstArc};
ghost use Rattle.contracts.specs.Graphs.{groups};
ghost use Rattle.contracts.specs.declared.arcs.Arc.{Arc};

use crate::arcs::Arc;
use crate::groups::Groups;
use std::alloc::{AllocError, Global};

/// The arcs of each vertex, linked by index: the first arc that begins at each vertex, and for each arc the next one that begins at
/// the same vertex. The number of all arcs means that there is none.
#[derive(Drop)]
struct Chains {
    firsts: Vec<usize>,
    nexts: Vec<usize>,
}

/// Links the arcs of each of `count` vertices.
fn chains_of(alloc: Global, count: usize, arcs: &[Arc]) -> Result<Chains, AllocError>
    requires starts { All (λ a. a.from < count) arcs.now }
    ensures count { IfOk result (λ chains. length chains.firsts.items ≡ count) }
    ensures chained { IfOk result (λ chains. AreChained arcs.now 0 chains.firsts.items chains.nexts.items) }
{
    let none = arcs.len();
    let mut firsts = vec![in alloc; none; count]?;
    let mut nexts = vec![in alloc; none; none]?;
    for i in 0..none {
        let index = none - 1 - i;
        let from = arcs[index].from;
        nexts[index] = firsts[from];
        firsts[from] = index;
    }
    Ok(Chains { firsts, nexts })
}

/// Appends the ends of the arcs that begin at a vertex.
fn follow(
    firsts: &[usize],
    nexts: &[usize],
    arcs: &[Arc],
    vertex: usize,
    ends: &mut Vec<usize>,
) -> Result<(), AllocError>
    requires vertex { vertex < length firsts.now }
    requires first { IsFirstArc arcs.now vertex 0 (get_or firsts.now vertex 0) }
    requires linked { AreChained arcs.now 0 [] nexts.now }
    ensures { IfOk result (λ _. ends.new.items ≡ ends.old.items ++ ends_from arcs.now vertex) }
{
    let mut at = firsts[vertex];
    'chain: while at < arcs.len() {
        ends.push(arcs[at].to)?;
        at = nexts[at];
    }
    Ok(())
}

/// Returns for each vertex the ends of the arcs that begin there, in the order of the arcs.
///
/// The first arc of a vertex is read once. The end of its group then takes its place, so the ends need no list of their own.
pub fn groups_of(alloc: Global, count: usize, arcs: &[Arc]) -> Result<Groups<usize>, AllocError>
    requires starts { All (λ a. a.from < count) arcs.now }
    ensures exact { IfOk result (λ graph. AreEnds arcs.now count (groups graph)) }
    ensures ends { IfOk result (λ graph. (w : ℕ) → Contains graph.items.items w → (a : Arc) × Contains arcs.now a × (a.to ≡ w)) }
    ensures groups { IfOk result (λ graph. AllWithin count arcs.now → AreGroups count arcs.now (groups graph)) }
{
    let chains = chains_of(alloc, count, arcs)?;
    let nexts = chains.nexts;
    let mut ends = chains.firsts;
    let mut items = Vec::with_capacity(alloc, arcs.len())?;
    for vertex in 0..count {
        follow(&ends, &nexts, arcs, vertex, &mut items)?;
        ends[vertex] = items.len();
    }
    Ok(Groups { items, ends })
}
