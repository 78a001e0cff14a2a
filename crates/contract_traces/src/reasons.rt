//! What shows the findings of a contract, by their places.

ghost use Rattle.std.specs.Prelude.{◌≡◌, ◌⊎◌, IfNone, IfOk, IfSome, MatchOption, None, OnOk, Some, map};
ghost use Rattle.std.specs.BTreeMap.{get};
ghost use Rattle.std.specs.Ordering.{nat_cmp};
ghost use Rattle.contracts.specs.Positions.{pair_cmp};
ghost use Rattle.program.specs.Parts.{contract_parts, message_model};
ghost use Rattle.contract_traces.specs.Tables.{AddsEntry, AreReasonsFor, HasBothAt, HasDirectionAt, HasMessage, HasStateAt};
ghost use Rattle.contract_traces.specs.Tables.{IsFirstBy, IsTableOf};
ghost use Rattle.contract_traces.specs.Tables.{key_of_place};

use crate::firsts::{earlier_edges, first_edges};
use program::{Contract, Direction, Edge, Message, Sign, State};
use source::{Memory, Place};
use std::alloc::Global;
use std::collections::BTreeMap;

/// What shows the findings of a contract, by line and column of each, and where its states are.
#[derive(Drop)]
pub(crate) struct Reasons {
    /// The direction of the message of the edge at a place.
    pub(crate) directions: BTreeMap<(u32, u32), Direction>,
    /// The first edge with the state and the message of the edge at a place, if that is a later one.
    pub(crate) earlier: BTreeMap<(u32, u32), Edge>,
    /// The first edges with the signs `!` and `?` of the state at a place, if it has both.
    pub(crate) both: BTreeMap<(u32, u32), (Edge, Edge)>,
    /// The state at a place.
    pub(crate) states: BTreeMap<(u32, u32), State>,
}

impl Reasons {
    /// Collects those of a contract.
    pub(crate) fn of(alloc: Global, contract: &Contract) -> Result<Reasons, Memory>
        ensures { IfOk result (AreReasonsFor contract.now) }
    {
        let directions = directions_of(alloc, contract)?;
        let earlier = earlier_edges(alloc, &contract.edges)?;
        let both = both_signs(alloc, contract)?;
        let states = states_of(alloc, &contract.states)?;
        Ok(Reasons {
            directions,
            earlier,
            both,
            states,
        })
    }
}

/// Returns a place as a key: its line and its column.
pub(crate) fn place_key(place: Place) -> (u32, u32)
    ensures { result ≡ key_of_place place }
{
    (place.line, place.col)
}

/// Returns the direction of the message of each edge, by the place of the edge.
fn directions_of(
    alloc: Global,
    contract: &Contract,
) -> Result<BTreeMap<(u32, u32), Direction>, Memory>
    ensures { IfOk result (IsTableOf pair_cmp (HasDirectionAt (contract_parts contract.now))) }
{
    let messages = messages_of(alloc, &contract.messages)?;
    let mut directions = BTreeMap::new(alloc);
    for edge in &contract.edges {
        note_direction(&mut directions, &messages, *edge)?;
    }
    Ok(directions)
}

/// Returns the direction of each message, by its number.
fn messages_of(alloc: Global, messages: &[Message]) -> Result<BTreeMap<u32, Direction>, Memory>
    ensures { IfOk result (IsTableOf nat_cmp (HasMessage (map message_model messages.now))) }
{
    let mut directions = BTreeMap::new(alloc);
    for message in messages {
        directions.insert(message.id.0, message.direction)?;
    }
    Ok(directions)
}

/// Notes the direction of the message of an edge at the edge's place, if there is such a message.
fn note_direction(
    directions: &mut BTreeMap<(u32, u32), Direction>,
    messages: &BTreeMap<u32, Direction>,
    edge: Edge,
) -> Result<(), Memory>
    ensures { OnOk result (MatchOption (get nat_cmp messages.now edge.message.0) (directions.new ≡ directions.old)
        (λ d. AddsEntry pair_cmp directions.old directions.new (key_of_place edge.place) d)) }
{
    if let Some(direction) = messages.get(&edge.message.0).copied() {
        directions.insert(place_key(edge.place), direction)?;
    }
    Ok(())
}

/// Returns the first edges of both signs of each state that has both, by the place of the state.
fn both_signs(
    alloc: Global,
    contract: &Contract,
) -> Result<BTreeMap<(u32, u32), (Edge, Edge)>, Memory>
    ensures { IfOk result (IsTableOf pair_cmp (HasBothAt (contract_parts contract.now))) }
{
    let sends = first_edges(alloc, &contract.edges, Sign::Send)?;
    let receives = first_edges(alloc, &contract.edges, Sign::Receive)?;
    let mut both = BTreeMap::new(alloc);
    for state in &contract.states {
        if let Some(edges) = both_edges(&sends, &receives, *state) {
            both.insert(place_key(state.place), edges)?;
        }
    }
    Ok(both)
}

/// Returns an edge of each sign from a state, if it has both.
fn both_edges(
    sends: &BTreeMap<u32, Edge>,
    receives: &BTreeMap<u32, Edge>,
    state: State,
) -> Option<(Edge, Edge)>
    ensures sends { IfSome result (λ both. get nat_cmp sends.now state.id.0 ≡ Some both.0) }
    ensures receives { IfSome result (λ both. get nat_cmp receives.now state.id.0 ≡ Some both.1) }
    ensures none { IfNone result ((get nat_cmp sends.now state.id.0 ≡ None) ⊎ (get nat_cmp receives.now state.id.0 ≡ None)) }
{
    let sends = sends.get(&state.id.0).copied()?;
    let receives = receives.get(&state.id.0).copied()?;
    Some((sends, receives))
}

/// Returns each state, by its place.
fn states_of(alloc: Global, states: &[State]) -> Result<BTreeMap<(u32, u32), State>, Memory>
    ensures { IfOk result (IsTableOf pair_cmp (HasStateAt states.now)) }
{
    let mut by_place = BTreeMap::new(alloc);
    for state in states {
        by_place.insert(place_key(state.place), *state)?;
    }
    Ok(by_place)
}
