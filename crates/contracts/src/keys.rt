//! The numbers of states and messages, and the keys of edges.

ghost use Rattle.std.specs.Prelude.{◌≡◌, IfOk, map};
ghost use Rattle.contracts.specs.Parts.{IsWhole, contract_parts};
ghost use Rattle.contracts.specs.Positions.{numbers_of};

use crate::positions::Listing;
use program::{Contract, Edge, Message, State};
use std::alloc::{AllocError, Global};

/// Returns the numbers of the states of a contract.
pub fn states_of(contract: &Contract) -> Listing
    requires whole { IsWhole (contract_parts contract.now) }
    ensures { numbers_of result ≡ map (λ s. s.id.0) contract.now.states.items }
{
    Listing::new(contract.first.0, contract.states.len())
}

/// Returns the numbers of the messages of a contract.
pub fn messages_of(contract: &Contract) -> Listing
    requires whole { IsWhole (contract_parts contract.now) }
    ensures { numbers_of result ≡ map (λ m. m.id.0) contract.now.messages.items }
{
    match contract.messages.first() {
        Some(message) => Listing::new(message.id.0, contract.messages.len()),
        None => Listing::new(0, 0),
    }
}

/// Returns the number of each state.
pub fn state_numbers(alloc: Global, states: &[State]) -> Result<Vec<u32>, AllocError>
    ensures { IfOk result (λ numbers. numbers.items ≡ map (λ s. s.id.0) states.now) }
{
    states.iter().map(|state| state.id.0).collect(alloc)
}

/// Returns the number of each message.
pub fn message_numbers(alloc: Global, messages: &[Message]) -> Result<Vec<u32>, AllocError>
    ensures { IfOk result (λ numbers. numbers.items ≡ map (λ m. m.id.0) messages.now) }
{
    messages.iter().map(|message| message.id.0).collect(alloc)
}

/// Returns the state and the message of an edge.
pub fn key_of(edge: &Edge) -> (u32, u32)
    ensures { result ≡ (edge.now.from.0, edge.now.message.0) }
{
    (edge.from.0, edge.message.0)
}
