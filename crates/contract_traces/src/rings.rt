//! Rings of one sign in a contract. What a search finds is only a proposal: each of its edges is checked before it is shown.

use program::{Edge, Sign, StateId};
use source::Memory;
use std::alloc::Global;
use std::collections::BTreeMap;

/// The number of edges that all searches in a contract may look at: `LOOKS` for each edge, and `MORE_LOOKS` more. So their time is
/// proportional to the contract. In one with very many rings those of its later states are not found.
const LOOKS: usize = 8;

const MORE_LOOKS: usize = 100_000;

/// The edges of a contract from each state, as the latest one and, for each edge, the previous one from its state.
#[derive(Drop)]
pub(crate) struct Rings<'a> {
    alloc: Global,
    edges: &'a [Edge],
    latest: BTreeMap<u32, usize>,
    earlier: Vec<Option<usize>>,
    /// The number of edges that searches may still look at.
    left: usize,
}

/// A breadth-first search: the states reached, in order, and the edge by which each was reached first.
#[derive(Drop)]
struct BreadthSearch {
    reached: Vec<StateId>,
    by: BTreeMap<u32, usize>,
}

impl<'a> Rings<'a> {
    /// Links the edges of a contract by state.
    pub(crate) fn of(alloc: Global, edges: &'a [Edge]) -> Result<Rings<'a>, Memory> {
        let mut latest = BTreeMap::new(alloc);
        let mut earlier = Vec::new(alloc);
        for at in 0..edges.len() {
            earlier.push(latest.insert(edges[at].from.0, at)?)?;
        }
        Ok(Rings {
            alloc,
            edges,
            latest,
            earlier,
            left: edges.len().saturating_mul(LOOKS).saturating_add(MORE_LOOKS),
        })
    }

    /// Returns the indices of the edges of a shortest ring of the sign around a state; none if no ring is found.
    pub(crate) fn around(&mut self, state: StateId, sign: Sign) -> Result<Vec<usize>, Memory> {
        let mut search = BreadthSearch {
            reached: Vec::new(self.alloc),
            by: BTreeMap::new(self.alloc),
        };
        search.reached.push(state)?;
        for done in 0..self.edges.len() {
            let Some(from) = search.reached.get(done).copied() else {
                break;
            };
            self.leave(from, sign, &mut search)?;
            if search.by.contains_key(&state.0) {
                return self.way_round(state, &search);
            }
        }
        Ok(Vec::new(self.alloc))
    }

    /// Notes the new states to which edges of the sign lead from a state.
    fn leave(
        &mut self,
        from: StateId,
        sign: Sign,
        search: &mut BreadthSearch,
    ) -> Result<(), Memory> {
        let mut next = self.latest.get(&from.0).copied();
        while self.left > 0 {
            let Some(at) = next else {
                return Ok(());
            };
            self.left -= 1;
            next = self.earlier.get(at).copied().flatten();
            let Some(edge) = self.edges.get(at).copied() else {
                return Ok(());
            };
            if edge.sign == sign && !search.by.contains_key(&edge.to.0) {
                search.by.insert(edge.to.0, at)?;
                search.reached.push(edge.to)?;
            }
        }
        Ok(())
    }

    /// Returns the indices of the edges by which a search came back to where it began.
    fn way_round(&self, state: StateId, search: &BreadthSearch) -> Result<Vec<usize>, Memory> {
        let mut way = Vec::new(self.alloc);
        let mut to = state;
        for _ in 0..self.edges.len() {
            let Some(at) = search.by.get(&to.0).copied() else {
                break;
            };
            way.push(at)?;
            let Some(edge) = self.edges.get(at) else {
                break;
            };
            to = edge.from;
            if to == state {
                break;
            }
        }
        way.reverse();
        Ok(way)
    }
}
