//! Sends.

ghost use Rattle.std.specs.Prelude.{◌≡◌, OnErr};
ghost use Rattle.flow.specs.Graphs.{instruction_model};
ghost use Rattle.flow.specs.declared.graph.Instr.{Instr};
ghost use Rattle.rules.specs.Programs.{model_of};
ghost use Rattle.machine.specs.Outcomes.{QueueBounds};
ghost use Rattle.machine.specs.Runs.{AreBounds};
ghost use Rattle.machine.specs.Views.{frame_model, heap_model};
ghost use Rattle.machine.specs.Answers.{TellsFrame};

use crate::edges::way_out;
use crate::halts::{Fault, Refusal};
use crate::heaps::BlockHeap;
use crate::instructing::Turn;
use crate::payloads::{are_unsent, lets_payloads_go, payload_addresses};
use crate::reading::own;
use crate::worlds::Frame;
use flow::Sending;

/// Sends a message with its payload through an endpoint. All tests come before the first allocation.
///
/// `F1` if the process does not own the endpoint, `F3` if it does not own each payload or two are the same, `F4` if
/// the state sends no such message, `F6` if the queue is full. An error changes nothing.
pub(crate) fn send(
    turn: &Turn<'_>,
    frame: &mut Frame,
    heap: &mut BlockHeap,
    sending: &Sending,
) -> Result<(), Refusal>
    ensures tells { (bound : QueueBounds) → AreBounds (model_of turn.now.program.now) bound
        → TellsFrame (model_of turn.now.program.now) bound turn.now.process
        (instruction_model (Instr.Send sending.now)) 0 result
        (frame_model frame.old, heap_model heap.old) (frame_model frame.new, heap_model heap.new) }
    ensures same { OnErr result (frame_model frame.new ≡ frame_model frame.old) }
    ensures same_blocks { OnErr result (heap_model heap.new ≡ heap_model heap.old) }
{
    let Some(at) = own(heap.blocks(), turn.process, frame.has(sending.endpoint)) else {
        return Err(Refusal::Fault(Fault::F1));
    };
    if !are_unsent(frame, heap.blocks(), turn.process, &sending.payloads) {
        return Err(Refusal::Fault(Fault::F3));
    }
    let way = way_out(turn.program, heap.blocks(), at, sending.message)?;
    let payload = payload_addresses(turn.alloc, frame, &sending.payloads)?;
    if !heap.send(turn.alloc, way, sending.message, &payload) {
        return Err(Refusal::Memory);
    }
    lets_payloads_go(&mut frame.variables, &sending.payloads);
    frame.point = sending.next;
    Ok(())
}
