//! Edges of a contract, as walks and as lines.

ghost use Rattle.std.specs.Prelude.{◌≡◌, ◌≢◌, [], Contains, IfOk, IfSome, map};
ghost use Rattle.contracts.specs.Walks.{HasSign, IsWalk};
ghost use Rattle.program.specs.Parts.{contract_parts};
ghost use Rattle.explanations.specs.Lines.{line_model};
ghost use Rattle.contract_traces.specs.Shown.{edge_line, name_of_message, sign_text};

use explanations::{Line, line_of, state_name};
use program::{Contract, Edge, MessageId, Sign, StateId};
use source::Memory;
use std::alloc::Global;

/// Returns the edges with these indices if they are a walk of one sign from a state back to it, otherwise none.
pub(crate) fn round_of(
    alloc: Global,
    edges: &[Edge],
    indices: &[usize],
    state: StateId,
    sign: Sign,
) -> Result<Vec<Edge>, Memory>
    ensures { IfOk result (λ walk. walk.items ≢ [] → IsWalk edges.now state walk.items state × HasSign sign walk.items) }
{
    let mut walk = Vec::new(alloc);
    let mut at = state;
    for index in indices {
        let Some(edge) = edge_index_from(edges, *index, at, sign) else {
            return Ok(Vec::new(alloc));
        };
        walk.push(edge)?;
        at = edge.to;
    }
    if at == state {
        Ok(walk)
    } else {
        Ok(Vec::new(alloc))
    }
}

/// Returns the edge with this index, if it has the sign and begins in the state.
pub(crate) fn edge_index_from(
    edges: &[Edge],
    index: usize,
    state: StateId,
    sign: Sign,
) -> Option<Edge>
    ensures { IfSome result (λ edge. Contains edges.now edge × (edge.from ≡ state) × (edge.sign ≡ sign)) }
{
    let edge = edges.get(index).copied()?;
    if edge.from == state && edge.sign == sign {
        Some(edge)
    } else {
        None
    }
}

/// Returns a line for each of these edges.
pub(crate) fn edge_lines(
    alloc: Global,
    contract: &Contract,
    edges: &[Edge],
) -> Result<Vec<Line>, Memory>
    ensures { IfOk result (λ lines. map line_model lines.items ≡ map (edge_line (contract_parts contract.now)) edges.now) }
{
    let mut lines = Vec::new(alloc);
    for edge in edges {
        lines.push(edge_line(alloc, contract, *edge)?)?;
    }
    Ok(lines)
}

/// Returns the line `M! -> S`, at the message of the edge.
fn edge_line(alloc: Global, contract: &Contract, edge: Edge) -> Result<Line, Memory>
    ensures { IfOk result (λ line. line_model line ≡ edge_line (contract_parts contract.now) edge) }
{
    let arrow = match edge.sign {
        Sign::Send => b"! -> ".as_slice(),
        Sign::Receive => b"? -> ".as_slice(),
    };
    line_of(
        alloc,
        edge.place,
        message_name(contract, edge.message),
        arrow,
        state_name(contract, edge.to.0),
    )
}

/// Returns the name of a message of the contract; empty if there is no such message.
fn message_name(contract: &Contract, message: MessageId) -> &[u8]
    ensures { result.now ≡ name_of_message (contract_parts contract.now) message.0 }
{
    let first = match contract.messages.first() {
        Some(first) => first.id.0,
        None => 0,
    };
    let position = message.0.saturating_sub(first);
    match contract.messages.get(position as usize) {
        Some(message) => message.name.as_bytes(),
        None => &[],
    }
}
