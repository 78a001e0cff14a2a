//! What the contract of an endpoint allows: the state after a message, and room in a queue.

ghost use Rattle.std.specs.Prelude.{◌≡◌, ◌<◌, IfErr, IfOk, IsTrue, MatchOption, Some, false};
ghost use Rattle.std.specs.Prelude.{length, true, ℕ};
ghost use Rattle.program.specs.Programs.{ProgramModel};
ghost use Rattle.contracts.specs.Bounds.{sign_to};
ghost use Rattle.contracts.specs.Leaving.{sign_from};
ghost use Rattle.rules.specs.Endpoints.{edges_in, edges_out};
ghost use Rattle.rules.specs.Programs.{model_of};
ghost use Rattle.machine.specs.Answers.{IsRefusal, Pass};
ghost use Rattle.machine.specs.Blocks as told;
ghost use Rattle.machine.specs.Blocks.{has_room, may_send, send_tests, state_after_receive, state_after_send};
ghost use Rattle.machine.specs.Outcomes.{QueueBounds};
ghost use Rattle.machine.specs.Runs.{AreBounds};
ghost use Rattle.machine.specs.Views.{blocks_model};
ghost use Rattle.machine.specs.World.{block_at, is_freed_at, no_type};

use crate::halts::{Fault, Refusal};
use crate::reading::{is_cut_off, is_freed, peer_of, queue_length, state_of, type_of};
use crate::worlds::Block;
use program::{ContractId, HeapType, MessageId, Side, StateId};
use rules::Program;

/// What a send needs to know: the address of the endpoint, its peer and whether that is freed, and the state after
/// the send.
#[derive(Clone, Copy)]
pub(crate) struct Way {
    pub(crate) at: usize,
    pub(crate) peer: usize,
    pub(crate) gone: bool,
    pub(crate) state: StateId,
}

/// Returns how many messages the queue to an end of a contract may hold, 0 if there is no such contract.
fn bound_at(program: &Program, contract: ContractId, side: Side) -> u32
    ensures { (bound : QueueBounds) → AreBounds (model_of program.now) bound
        → result ≡ bound contract.0 side }
{
    match program.sounds().get(contract.0 as usize) {
        Some(sound) => sound.bound(side),
        None => 0,
    }
}

/// Returns how many messages the queue to an endpoint of this type may hold, 0 for other types.
fn bound_of(program: &Program, ty: HeapType) -> u32
    ensures bound { (bound : QueueBounds) → AreBounds (model_of program.now) bound
        → result ≡ told.bound_of bound ty }
    ensures none { ty ≡ no_type → result ≡ 0 }
{
    match ty {
        HeapType::Endpoint { contract, side, .. } => bound_at(program, contract, side),
        HeapType::Struct(_) | HeapType::Array(_) => 0,
    }
}

/// Whether the queue of an endpoint has room for one more message. If the endpoint is freed, there always is room.
fn has_room(program: &Program, blocks: &[Block], to: usize) -> bool
    ensures room { (bound : QueueBounds) → AreBounds (model_of program.now) bound
        → result ≡ has_room bound (blocks_model blocks.now) to }
    ensures there { IsTrue result → is_freed_at (blocks_model blocks.now) to ≡ false
        → to < length (blocks_model blocks.now) }
{
    is_freed(blocks, to)
        || queue_length(blocks, to) < bound_of(program, type_of(blocks, to)) as usize
}

/// Returns the state of an endpoint after it sends a message. `None` if its state sends no such message. If the
/// endpoint is cut off, it may send any message and its state stays.
fn state_behind(
    program: &Program,
    blocks: &[Block],
    at: usize,
    message: MessageId,
) -> Option<StateId>
    ensures { MatchOption result
        (may_send (model_of program.now) (blocks_model blocks.now) at message.0 ≡ false)
        (λ q. (may_send (model_of program.now) (blocks_model blocks.now) at message.0 ≡ true)
        × (q.0 ≡ state_after_send (model_of program.now) (blocks_model blocks.now) at message.0)) }
{
    let state = state_of(blocks, at);
    if is_cut_off(blocks, at) {
        return Some(state);
    }
    program.state_after_send(Some(type_of(blocks, at)), state.0, message)
}

/// Returns what a send needs. `F4` if the state of the endpoint does not send the message, `F6` if the queue of its
/// peer is full.
pub(crate) fn way_out(
    program: &Program,
    blocks: &[Block],
    at: usize,
    message: MessageId,
) -> Result<Way, Refusal>
    ensures pass { IfOk result (λ way. (bound : QueueBounds)
        → AreBounds (model_of program.now) bound
        → Pass (send_tests (model_of program.now) bound (blocks_model blocks.now) at message.0)) }
    ensures at { IfOk result (λ way. way.at ≡ at) }
    ensures peer { IfOk result (λ way. way.peer ≡ (block_at (blocks_model blocks.now) at).peer) }
    ensures gone { IfOk result (λ way. way.gone
        ≡ is_freed_at (blocks_model blocks.now) (block_at (blocks_model blocks.now) at).peer) }
    ensures state { IfOk result (λ way. way.state.0
        ≡ state_after_send (model_of program.now) (blocks_model blocks.now) at message.0) }
    ensures there { IfOk result (λ way. way.gone ≡ false
        → way.peer < length (blocks_model blocks.now)) }
    ensures refusal { IfErr result
        (λ refusal. (bound : QueueBounds) → AreBounds (model_of program.now) bound
        → IsRefusal refusal (send_tests (model_of program.now) bound
        (blocks_model blocks.now) at message.0)) }
{
    let Some(state) = state_behind(program, blocks, at, message) else {
        return Err(Refusal::Fault(Fault::F4));
    };
    let peer = peer_of(blocks, at);
    if !has_room(program, blocks, peer) {
        return Err(Refusal::Fault(Fault::F6));
    }
    Ok(Way {
        at,
        peer,
        gone: is_freed(blocks, peer),
        state,
    })
}

/// Returns the other side of a contract.
fn other(side: Side) -> Side
    ensures { sign_from result ≡ sign_to side }
{
    match side {
        Side::Imp => Side::Exp,
        Side::Exp => Side::Imp,
    }
}

/// Returns the type of the other end of a channel. Other types stay as they are.
fn other_end(ty: HeapType) -> HeapType
    ensures { (p : ProgramModel) (q : ℕ) → edges_out p (Some result) q ≡ edges_in p (Some ty) q }
{
    match ty {
        HeapType::Endpoint {
            contract,
            side,
            state,
        } => HeapType::Endpoint {
            contract,
            side: other(side),
            state,
        },
        HeapType::Struct(_) | HeapType::Array(_) => ty,
    }
}

/// Returns the state of an endpoint after it receives a message. If its state has no such edge, it stays.
pub(crate) fn state_received(
    program: &Program,
    blocks: &[Block],
    at: usize,
    message: MessageId,
) -> StateId
    ensures { result.0 ≡ state_after_receive (model_of program.now)
        (blocks_model blocks.now) at message.0 }
{
    let state = state_of(blocks, at);
    match program.state_after_send(Some(other_end(type_of(blocks, at))), state.0, message) {
        Some(next) => next,
        None => state,
    }
}
