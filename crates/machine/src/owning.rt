//! Instructions that make blocks.

ghost use Rattle.std.specs.Prelude.{◌≡◌, ◌+◌, ◌++◌, ◌∷◌, [], IfErr, OnErr, OnOk, length};
ghost use Rattle.program.specs.declared.statement.Action.TheVariants as does;
ghost use Rattle.flow.specs.Graphs.{Act, New};
ghost use Rattle.program.specs.declared.types.Side.TheVariants.{Imp, Exp};
ghost use Rattle.rules.specs.Programs.{model_of};
ghost use Rattle.machine.specs.Blocks.{end_type, is_imp, new_block};
ghost use Rattle.machine.specs.Outcomes.{QueueBounds};
ghost use Rattle.machine.specs.Views.{block_model, frame_model, heap_model};
ghost use Rattle.machine.specs.Answers.{TellsFrame};

use crate::halts::{Fault, Refusal};
use crate::heaps::BlockHeap;
use crate::instructing::Turn;
use crate::mentions::type_at;
use crate::payloads::{are_unsent, lets_payloads_go, payload_addresses};
use crate::worlds::{Block, Frame, Owner};
use program::{Channel, HeapType, Mention, Side, StateId};
use std::alloc::Global;
use std::collections::VecDeque;

/// Gives the target a new block, whose fields hold the arguments. All tests come before the first allocation.
///
/// `F3` if the process does not own each argument or two are the same. An error changes nothing.
pub(crate) fn new(
    turn: &Turn<'_>,
    frame: &mut Frame,
    heap: &mut BlockHeap,
    target: Mention,
    arguments: &[Mention],
    next: usize,
) -> Result<(), Refusal>
    ensures tells { (bound : QueueBounds)
        → TellsFrame (model_of turn.now.program.now) bound turn.now.process
        (New target arguments.now next) 0 result (frame_model frame.old, heap_model heap.old)
        (frame_model frame.new, heap_model heap.new) }
    ensures same { OnErr result (frame_model frame.new ≡ frame_model frame.old) }
    ensures same_blocks { OnErr result (heap_model heap.new ≡ heap_model heap.old) }
{
    if arguments.is_empty() {
        return new_alone(turn, frame, heap, target, next);
    }
    if !are_unsent(frame, heap.blocks(), turn.process, arguments) {
        return Err(Refusal::Fault(Fault::F3));
    }
    let given = payload_addresses(turn.alloc, frame, arguments)?;
    let address = heap.blocks().len();
    let ty = type_at(turn.program, frame.method, target.variable);
    frame.list(target)?;
    heap.add(turn.alloc, turn.process, ty, &given)?;
    lets_payloads_go(&mut frame.variables, arguments);
    frame.put(target, Some(address));
    frame.point = next;
    Ok(())
}

/// Gives the variable a new block without owning fields. Nothing is given for it, so nothing is tested.
fn new_alone(
    turn: &Turn<'_>,
    frame: &mut Frame,
    heap: &mut BlockHeap,
    at: Mention,
    next: usize,
) -> Result<(), Refusal>
    ensures tells { (bound : QueueBounds)
        → TellsFrame (model_of turn.now.program.now) bound turn.now.process
        (New at [] next) 0 result (frame_model frame.old, heap_model heap.old)
        (frame_model frame.new, heap_model heap.new) }
    ensures same { OnErr result (frame_model frame.new ≡ frame_model frame.old) }
    ensures same_blocks { OnErr result (heap_model heap.new ≡ heap_model heap.old) }
{
    let address = heap.blocks().len();
    let ty = type_at(turn.program, frame.method, at.variable);
    frame.list(at)?;
    let made = new_block(turn.alloc, turn.process, ty, 0, StateId(0));
    heap.add_alone(turn.process, made)?;
    frame.put(at, Some(address));
    frame.point = next;
    Ok(())
}

/// Returns whether a type is an importing end.
pub fn is_imp(ty: HeapType) -> bool
    ensures { result ≡ is_imp ty }
{
    match ty {
        HeapType::Endpoint { side, .. } => match side {
            Side::Imp => true,
            Side::Exp => false,
        },
        HeapType::Struct(_) | HeapType::Array(_) => false,
    }
}

/// Returns a new block of a process, with an empty queue and without owning fields.
fn new_block(alloc: Global, process: usize, ty: HeapType, peer: usize, state: StateId) -> Block
    ensures { block_model result ≡ new_block ty process peer state.0 [] }
{
    Block {
        ty,
        owner: Owner::Process(process),
        peer,
        state,
        queue: VecDeque::new(alloc),
        fields: Vec::new(alloc),
    }
}

/// Returns the type of an end of a channel.
fn end_type(channel: Channel, side: Side) -> HeapType
    ensures { result ≡ end_type channel side }
{
    HeapType::Endpoint {
        contract: channel.contract,
        side,
        state: StateId(0),
    }
}

/// Adds two ends in a state, the importing one first. An error adds none.
fn open(
    alloc: Global,
    heap: &mut BlockHeap,
    process: usize,
    channel: Channel,
    state: StateId,
) -> Result<(), Refusal>
    ensures opened { OnOk result (heap_model heap.new
        ≡ heap_model heap.old ++ new_block (end_type channel Imp) process
        (length (heap_model heap.old) + 1) state.0 []
        ∷ new_block (end_type channel Exp) process (length (heap_model heap.old)) state.0 [] ∷ []) }
    ensures same { OnErr result (heap_model heap.new ≡ heap_model heap.old) }
    ensures memory { IfErr result (λ refusal. refusal ≡ Refusal.Memory) }
{
    let address = heap.blocks().len();
    let imp = new_block(
        alloc,
        process,
        end_type(channel, Side::Imp),
        address + 1,
        state,
    );
    let exp = new_block(alloc, process, end_type(channel, Side::Exp), address, state);
    heap.add_two(process, imp, exp)
}

/// Gives two variables the two ends of a new channel, both in the first state of the contract. An error changes nothing.
pub(crate) fn new_channel(
    turn: &Turn<'_>,
    frame: &mut Frame,
    heap: &mut BlockHeap,
    channel: Channel,
    next: usize,
) -> Result<(), Refusal>
    ensures tells { (bound : QueueBounds)
        → TellsFrame (model_of turn.now.program.now) bound turn.now.process
        (Act (does.NewChannel channel) next) 0 result (frame_model frame.old, heap_model heap.old)
        (frame_model frame.new, heap_model heap.new) }
    ensures same { OnErr result (frame_model frame.new ≡ frame_model frame.old) }
    ensures same_blocks { OnErr result (heap_model heap.new ≡ heap_model heap.old) }
{
    let address = heap.blocks().len();
    let state = turn.program.first_state(channel.contract);
    let first_is_imp = is_imp(type_at(turn.program, frame.method, channel.first.variable));
    frame.list(channel.first)?;
    frame.list(channel.second)?;
    open(turn.alloc, heap, turn.process, channel, state)?;
    let (first, second) = if first_is_imp {
        (address, address + 1)
    } else {
        (address + 1, address)
    };
    frame.put(channel.first, Some(first));
    frame.put(channel.second, Some(second));
    frame.point = next;
    Ok(())
}
