//! Whether the lists of a contract contain what its edges name.

ghost use Rattle.std.specs.Prelude.{◌≡◌, ◌<◌, ◌↔◌, IfOk, IsTrue, All, get_or};
ghost use Rattle.contracts.specs.Parts.{AreConsecutive, IsWhole, contract_parts};
ghost use Rattle.contracts.specs.Positions.{EndsHave, numbers_of};
ghost use Rattle.program.specs.declared.limits.TheConstants.{MOST_STATES};

use crate::keys::{message_numbers, state_numbers};
use crate::positions::Listing;
use program::{Contract, Edge, MOST_STATES};
use source::Memory;
use std::alloc::Global;

/// Returns whether a contract is whole: its lists contain its first state and the states and messages of its edges, their numbers
/// go up by one from those of the first state and of the first message, and each number of a state is less than `MOST_STATES`.
/// `faults` and `Sound::new` require this.
pub fn is_whole(alloc: Global, contract: &Contract) -> Result<bool, Memory>
    ensures { IfOk result (λ whole. IsTrue whole ↔ IsWhole (contract_parts contract.now)) }
{
    let states = state_numbers(alloc, &contract.states)?;
    let messages = message_numbers(alloc, &contract.messages)?;
    let first_message = first_or_0(&messages);
    let in_row = are_consecutive(&states, contract.first.0)
        & are_consecutive(&messages, first_message);
    let state_list = Listing::new(contract.first.0, states.len());
    let message_list = Listing::new(first_message, messages.len());
    let listed = are_listed(&contract.edges, state_list, message_list);
    Ok(in_row & listed & state_list.has(contract.first.0) & are_numbered(&states))
}

/// Returns the first of these, or 0 if there is none.
fn first_or_0(numbers: &[u32]) -> u32
    ensures { result ≡ get_or numbers.now 0 0 }
{
    numbers.first().copied().unwrap_or(0)
}

/// Returns whether each of these is a number that a state may have.
fn are_numbered(numbers: &[u32]) -> bool
    ensures { IsTrue result ↔ All (λ q. q < MOST_STATES) numbers.now }
{
    numbers
        .iter()
        .all(|number| (*number as usize) < MOST_STATES)
}

/// Returns whether the numbers go up by one, beginning with `first`.
fn are_consecutive(numbers: &[u32], first: u32) -> bool
    ensures { IsTrue result ↔ AreConsecutive first numbers.now }
{
    for i in 0..numbers.len() {
        if numbers[i] as usize != first as usize + i {
            return false;
        }
    }
    true
}

/// Returns whether the states and the messages of the edges are listed.
fn are_listed(edges: &[Edge], states: Listing, messages: Listing) -> bool
    ensures { IsTrue result ↔ All (EndsHave (numbers_of states) (numbers_of messages)) edges.now }
{
    for edge in edges {
        let ends = states.has(edge.from.0) & states.has(edge.to.0);
        if !(ends & messages.has(edge.message.0)) {
            return false;
        }
    }
    true
}
