//! The four conditions of a contract.

ghost use Rattle.std.specs.Prelude.{◌≡◌, ◌<◌, ◌++◌, IfOk, OnOk, length, map, Contains, string_bytes};
ghost use Rattle.contracts.specs.Conditions.{AreExactly, IsAgainst, IsTwice, IsBoth, IsRound};
ghost use Rattle.contracts.specs.Conditions.{IsFlaw, finding_model, sign_of as sign_of_direction};
ghost use Rattle.contracts.specs.Drawings.{IsDrawing};
ghost use Rattle.contracts.specs.Found.{FoundBelow};
ghost use Rattle.contracts.specs.Orders.{IsOrder};
ghost use Rattle.contracts.specs.Positions.{numbers_of};
ghost use Rattle.contracts.specs.Parts.{IsWhole, contract_parts, message_ids, state_model, message_model};

use crate::drawing::{Drawing, drawing_of};
use crate::keys::messages_of;
use crate::order::{is_second, order_of};
use crate::positions::Listing;
use program::{Contract, Direction, Message, MessageId, Sign};
use source::texts::{
    against_its_direction, both_directions_in, one_direction_round, twice_in_a_state,
};
use source::{Finding, Memory};
use std::alloc::{AllocError, Global};

/// Returns all findings of a contract, each at its place:
/// - an edge whose sign does not fit its message, since `in` takes `?` and `out` takes `!`; at the edge;
/// - an edge with the message of an earlier edge of its state; at the later one;
/// - a state with edges of both signs; at the state;
/// - a state from which edges of one sign lead back to it; at each such state.
///
/// Signs count as they are written. Villard, Lozes and Calcagno (APLAS 2009) require contracts to be deterministic and to have
/// one direction in a state; the Singularity team (EuroSys 2006) requires each cycle to have both directions.
pub fn faults(alloc: Global, contract: &Contract) -> Result<Vec<Finding>, Memory>
    requires whole { IsWhole (contract_parts contract.now) }
    ensures exactly { IfOk result (λ found. AreExactly (IsFlaw (contract_parts contract.now))
        (map finding_model found.items)) }
{
    let drawing = drawing_of(alloc, contract)?;
    let order = order_of(alloc, &contract.edges)?;
    findings_in(alloc, contract, &order, &drawing)
}

/// Returns the same findings, from the order and the drawing of the edges.
pub(crate) fn findings_in(
    alloc: Global,
    contract: &Contract,
    order: &[usize],
    drawing: &Drawing,
) -> Result<Vec<Finding>, Memory>
    requires whole { IsWhole (contract_parts contract.now) }
    requires ordered { IsOrder contract.now.edges.items order.now }
    requires drawing { IsDrawing contract.now drawing.now }
    ensures exactly { IfOk result (λ found. AreExactly (IsFlaw (contract_parts contract.now))
        (map finding_model found.items)) }
{
    let messages = messages_of(contract);
    let mut found = against_directions(alloc, contract, messages)?;
    let twice = twice_in_states(alloc, contract, messages, order)?;
    let both = both_directions(alloc, contract, drawing)?;
    let round = one_direction(alloc, contract, drawing)?;
    add(&mut found, twice)?;
    add(&mut found, both)?;
    add(&mut found, round)?;
    Ok(found)
}

/// Appends findings. If there are none yet, the new list replaces the old one and nothing is moved, so many findings of one kind
/// never take their memory twice.
fn add(found: &mut Vec<Finding>, mut more: Vec<Finding>) -> Result<(), AllocError>
    ensures { OnOk result (found.new.items ≡ found.old.items ++ more.items) }
{
    if found.is_empty() {
        *found = more;
        Ok(())
    } else {
        found.append(&mut more)
    }
}

/// Returns the sign of the edges of a message that has this direction.
fn sign_of(direction: Direction) -> Sign
    ensures { result ≡ sign_of_direction direction }
{
    match direction {
        Direction::In => Sign::Receive,
        Direction::Out => Sign::Send,
    }
}

/// Returns the message that has the number.
fn message_of(contract: &Contract, messages: Listing, id: MessageId) -> &Message
    requires numbers { numbers_of messages ≡ map (λ m. m.id.0) contract.now.messages.items }
    requires listed { Contains (message_ids (contract_parts contract.now)) id }
    ensures its { result.now.id ≡ id }
    ensures listed { Contains contract.now.messages.items result.now }
{
    &contract.messages[messages.position(id.0)]
}

/// Finds the edges whose sign does not fit their message.
fn against_directions(
    alloc: Global,
    contract: &Contract,
    messages: Listing,
) -> Result<Vec<Finding>, Memory>
    requires whole { IsWhole (contract_parts contract.now) }
    requires numbers { numbers_of messages ≡ map (λ m. m.id.0) contract.now.messages.items }
    ensures found { IfOk result (λ found. FoundBelow (IsAgainst
        (map message_model contract.now.messages.items) contract.now.edges.items)
        (length contract.now.edges.items) (map finding_model found.items)) }
{
    let mut found = Vec::new(alloc);
    for edge in &contract.edges {
        let message = message_of(contract, messages, edge.message);
        if edge.sign != sign_of(message.direction) {
            let finding = against_its_direction(alloc, edge.place, message.name.as_bytes())?;
            found.push(finding)?;
        }
    }
    Ok(found)
}

/// Finds the edges with the message of an earlier edge of their state.
fn twice_in_states(
    alloc: Global,
    contract: &Contract,
    messages: Listing,
    order: &[usize],
) -> Result<Vec<Finding>, Memory>
    requires whole { IsWhole (contract_parts contract.now) }
    requires numbers { numbers_of messages ≡ map (λ m. m.id.0) contract.now.messages.items }
    requires ordered { IsOrder contract.now.edges.items order.now }
    ensures found { IfOk result (λ found. FoundBelow (IsTwice
        (map message_model contract.now.messages.items) contract.now.edges.items)
        (length contract.now.edges.items) (map finding_model found.items)) }
{
    let mut found = Vec::new(alloc);
    for at in 0..order.len() {
        if is_second(&contract.edges, order, at) {
            let edge = contract.edges[order[at]];
            let message = message_of(contract, messages, edge.message);
            let finding = twice_in_a_state(alloc, edge.place, message.name.as_bytes())?;
            found.push(finding)?;
        }
    }
    Ok(found)
}

/// Finds the states with edges of both signs.
fn both_directions(
    alloc: Global,
    contract: &Contract,
    drawing: &Drawing,
) -> Result<Vec<Finding>, Memory>
    requires whole { IsWhole (contract_parts contract.now) }
    requires drawing { IsDrawing contract.now drawing.now }
    ensures found { IfOk result (λ found. FoundBelow (IsBoth
        (map (state_model (string_bytes contract.now.state_names)) contract.now.states.items) contract.now.edges.items)
        (length contract.now.states.items) (map finding_model found.items)) }
{
    let mut found = Vec::new(alloc);
    for i in 0..contract.states.len() {
        if drawing.sends.leaves[i] & drawing.receives.leaves[i] {
            let state = contract.states[i];
            let finding = both_directions_in(alloc, state.place, contract.state_name(state))?;
            found.push(finding)?;
        }
    }
    Ok(found)
}

/// Finds the states from which edges of one sign lead back to them.
fn one_direction(
    alloc: Global,
    contract: &Contract,
    drawing: &Drawing,
) -> Result<Vec<Finding>, Memory>
    requires whole { IsWhole (contract_parts contract.now) }
    requires drawing { IsDrawing contract.now drawing.now }
    ensures found { IfOk result (λ found. FoundBelow (IsRound
        (map (state_model (string_bytes contract.now.state_names)) contract.now.states.items) contract.now.edges.items)
        (length contract.now.states.items) (map finding_model found.items)) }
{
    let mut found = Vec::new(alloc);
    for i in 0..contract.states.len() {
        if drawing.sends.rings[i] | drawing.receives.rings[i] {
            let state = contract.states[i];
            let finding = one_direction_round(alloc, state.place, contract.state_name(state))?;
            found.push(finding)?;
        }
    }
    Ok(found)
}
