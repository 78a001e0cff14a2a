//! The first edges of the states of a contract: by message, and by sign.

ghost use Rattle.std.specs.Prelude.{◌≡◌, ◌≢◌, ◌∷◌, [], IfOk, OnOk, take};
ghost use Rattle.std.specs.BTreeMap.{get};
ghost use Rattle.std.specs.Ordering.{nat_cmp};
ghost use Rattle.contracts.specs.Positions.{key_of, pair_cmp};
ghost use Rattle.contract_traces.specs.Tables.{AddsEntry, IsEarlierIn, IsFirstBy, IsTableOf, NotesEdge, key_of_place};

use crate::reasons::place_key;
use program::{Edge, Sign};
use source::Memory;
use std::alloc::Global;
use std::collections::BTreeMap;

/// Returns an edge of this sign from each state that has one, by the number of the state: the first of them.
pub(crate) fn first_edges(
    alloc: Global,
    edges: &[Edge],
    sign: Sign,
) -> Result<BTreeMap<u32, Edge>, Memory>
    ensures { IfOk result (IsTableOf nat_cmp (IsFirstBy edges.now sign)) }
{
    let mut firsts = BTreeMap::new(alloc);
    for edge in edges {
        note_sign(&mut firsts, *edge, sign)?;
    }
    Ok(firsts)
}

/// Notes the edge if it has this sign and its state has none yet.
fn note_sign(firsts: &mut BTreeMap<u32, Edge>, edge: Edge, sign: Sign) -> Result<(), Memory>
    ensures noted { OnOk result (edge.sign ≡ sign → AddsEntry nat_cmp firsts.old firsts.new edge.from.0 edge) }
    ensures other { OnOk result (edge.sign ≢ sign → firsts.new ≡ firsts.old) }
{
    if edge.sign == sign {
        firsts.entry(edge.from.0)?.or_insert(edge);
    }
    Ok(())
}

/// Returns, for the place of each edge with the message of an earlier one of its state, the first such edge.
pub(crate) fn earlier_edges(
    alloc: Global,
    edges: &[Edge],
) -> Result<BTreeMap<(u32, u32), Edge>, Memory>
    ensures { IfOk result (IsTableOf pair_cmp (IsEarlierIn edges.now)) }
{
    let mut noted = EdgesSoFar {
        firsts: BTreeMap::new(alloc),
        earlier: BTreeMap::new(alloc),
    };
    for edge in edges {
        noted.note(*edge)?;
    }
    let EdgesSoFar { earlier, .. } = noted;
    Ok(earlier)
}

/// The edges so far: the first one of each state and message, and those that a later edge repeats, by the place of that one.
#[derive(Drop)]
pub(crate) struct EdgesSoFar {
    pub(crate) firsts: BTreeMap<(u32, u32), Edge>,
    pub(crate) earlier: BTreeMap<(u32, u32), Edge>,
}

impl EdgesSoFar {
    /// Notes the next edge.
    fn note(&mut self, edge: Edge) -> Result<(), Memory>
        ensures { OnOk result (NotesEdge edge self.old self.new) }
    {
        let key = (edge.from.0, edge.message.0);
        match self.firsts.get(&key).copied() {
            Some(first) => {
                self.earlier.insert(place_key(edge.place), first)?;
            }
            None => {
                self.firsts.insert(key, edge)?;
            }
        }
        Ok(())
    }
}
