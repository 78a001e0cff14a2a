//! Switches.

ghost use Rattle.std.specs.Prelude.{◌≡◌, ◌<◌, ◌∷◌, [], IfErr, List, OnErr, OnOk, Some, length, true, ℕ};
ghost use Rattle.flow.specs.Cases.{entrance_model, first_mentions};
ghost use Rattle.flow.specs.Graphs as graphs;
ghost use Rattle.flow.specs.Graphs.{cases_model};
ghost use Rattle.source.specs.declared.place.Place.{Place};
ghost use Rattle.program.specs.Programs.{ProgramModel};
ghost use Rattle.rules.specs.Programs.{model_of};
ghost use Rattle.machine.specs.Answers.{IsRefusal, Pass, Tells, TellsFrame, on_top, own_tests};
ghost use Rattle.machine.specs.Bindings.{AllMayTake};
ghost use Rattle.machine.specs.Machine.{receives, receives_at};
ghost use Rattle.machine.specs.Outcomes.{QueueBounds, Moved};
ghost use Rattle.machine.specs.Views.{blocks_model, frame_model, heap_model};
ghost use Rattle.machine.specs.World as seen;
ghost use Rattle.machine.specs.World.{MessageHeld, block_at, owns};

use crate::edges::state_received;
use crate::halts::{Fault, Refusal};
use crate::heaps::BlockHeap;
use crate::instructing::Turn;
use crate::mentions::{bind, list_bound};
use crate::reading::{front, is_freed, own, peer_of};
use crate::worlds::{Block, Frame};
use flow::{Cases, Entrance};
use program::{Mention, MessageId, VarId};
use rules::Program;

/// Tests that the process owns the block in each of these variables. `F1` if it does not.
fn are_own(
    frame: &Frame,
    blocks: &[Block],
    process: usize,
    endpoints: &[Mention],
) -> Result<(), Refusal>
    ensures pass { OnOk result (Pass
        (own_tests (blocks_model blocks.now) process
        (frame_model frame.now).variables endpoints.now)) }
    ensures refusal { IfErr result
        (λ refusal. IsRefusal refusal
        (own_tests (blocks_model blocks.now) process
        (frame_model frame.now).variables endpoints.now)) }
{
    for endpoint in endpoints {
        if own(blocks, process, frame.has(*endpoint)).is_none() {
            return Err(Refusal::Fault(Fault::F1));
        }
    }
    Ok(())
}

/// An endpoint of a switch: the variable that names it, and its address.
#[derive(Clone, Copy)]
struct Listener {
    variable: VarId,
    at: usize,
}

/// Takes the case for the close of an endpoint whose queue is empty.
///
/// `Waits` if its peer is not freed, `F5` if there is no such case. An error changes nothing.
fn close(
    frame: &mut Frame,
    blocks: &[Block],
    cases: &Cases,
    listener: Listener,
) -> Result<(), Refusal>
    ensures tells { (p : ProgramModel) (bound : QueueBounds) (w : seen.World) (process : ℕ)
        (rest : List seen.Frame) → w.blocks ≡ blocks_model blocks.now
        → Tells result (receives p bound w process (frame_model frame.old) rest
        (cases_model cases.now) listener.variable.0 listener.at [])
        (on_top w.processes process rest (frame_model frame.new) (blocks_model blocks.now)) }
    ensures same { OnErr result (frame_model frame.new ≡ frame_model frame.old) }
{
    if !is_freed(blocks, peer_of(blocks, listener.at)) {
        return Err(Refusal::Waits);
    }
    let Some(case) = cases.find(listener.variable, None) else {
        return Err(Refusal::Fault(Fault::F5));
    };
    frame.point = case.next;
    Ok(())
}

/// A message at the front of the queue of an endpoint.
#[derive(Clone, Copy)]
struct Arrival {
    at: usize,
    message: MessageId,
}

/// Receives the message at the front of a queue and takes its case.
fn receive_at(
    program: &Program,
    frame: &mut Frame,
    heap: &mut BlockHeap,
    process: usize,
    case: &Entrance,
    arrival: Arrival,
)
    requires owned { owns (heap_model heap.old) process arrival.at ≡ true }
    requires some { 0 < length (block_at (heap_model heap.old) arrival.at).queue }
    requires takes { AllMayTake frame.old.variables.count frame.old.variables.bindings.items
        case.now.targets.items }
    ensures { (bound : QueueBounds) (w : seen.World) (rest : List seen.Frame) (m : MessageHeld)
        (ms : List MessageHeld) → w.blocks ≡ heap_model heap.old
        → (block_at (heap_model heap.old) arrival.at).queue ≡ m ∷ ms → arrival.message.0 ≡ m.message
        → receives_at (model_of program.now) bound w process (frame_model frame.old) rest
        (Some (entrance_model case.now)) arrival.at m ms
        ≡ Moved (on_top w.processes process rest (frame_model frame.new) (heap_model heap.new)) }
{
    let state = state_received(program, heap.blocks(), arrival.at, arrival.message);
    let payload = heap.receive(arrival.at, state, process);
    bind(&mut frame.variables, &case.targets, &payload);
    frame.point = case.next;
}

/// Takes the case for the message at the front of the queue of an endpoint, or for its close if the queue is empty.
///
/// `Waits` if the queue is empty and the peer is not freed, `F5` if there is no such case. An error changes nothing.
fn deliver(
    program: &Program,
    frame: &mut Frame,
    heap: &mut BlockHeap,
    process: usize,
    cases: &Cases,
    listener: Listener,
) -> Result<(), Refusal>
    requires owned { owns (heap_model heap.old) process listener.at ≡ true }
    ensures tells { (bound : QueueBounds) (w : seen.World) (rest : List seen.Frame)
        → w.blocks ≡ heap_model heap.old
        → Tells result (receives (model_of program.now) bound w process (frame_model frame.old) rest
        (cases_model cases.now) listener.variable.0 listener.at
        (block_at (heap_model heap.old) listener.at).queue)
        (on_top w.processes process rest (frame_model frame.new) (heap_model heap.new)) }
    ensures same { OnErr result (frame_model frame.new ≡ frame_model frame.old) }
    ensures same_blocks { OnErr result (heap_model heap.new ≡ heap_model heap.old) }
{
    let Some(message) = front(heap.blocks(), listener.at) else {
        return close(frame, heap.blocks(), cases, listener);
    };
    let Some(case) = cases.find(listener.variable, Some(message)) else {
        return Err(Refusal::Fault(Fault::F5));
    };
    list_bound(&mut frame.variables, &case.targets)?;
    let arrival = Arrival {
        at: listener.at,
        message,
    };
    receive_at(program, frame, heap, process, case, arrival);
    Ok(())
}

/// Receives at the endpoint of this index among those that a switch names.
///
/// `F1` if the process does not own each of these endpoints, then the errors of `deliver`. An error changes nothing.
pub(crate) fn switch(
    turn: &Turn<'_>,
    frame: &mut Frame,
    heap: &mut BlockHeap,
    cases: &Cases,
    choice: usize,
) -> Result<(), Refusal>
    requires there { choice < length (first_mentions [] (cases_model cases.now)) }
    ensures tells { (bound : QueueBounds) (place : Place)
        → TellsFrame (model_of turn.now.program.now) bound turn.now.process
        (graphs.Switch place (cases_model cases.now)) choice result
        (frame_model frame.old, heap_model heap.old) (frame_model frame.new, heap_model heap.new) }
    ensures same { OnErr result (frame_model frame.new ≡ frame_model frame.old) }
    ensures same_blocks { OnErr result (heap_model heap.new ≡ heap_model heap.old) }
{
    let endpoints = cases.endpoints();
    are_own(frame, heap.blocks(), turn.process, endpoints)?;
    let endpoint = endpoints[choice];
    let at = frame.address(endpoint);
    let listener = Listener {
        variable: endpoint.variable,
        at,
    };
    deliver(turn.program, frame, heap, turn.process, cases, listener)
}
