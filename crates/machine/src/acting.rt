//! Actions: the function for each of them, and the one that frees a block.

ghost use Rattle.std.specs.Prelude.{◌≡◌, ℕ, OnErr};
ghost use Rattle.program.specs.Programs.{ProgramModel};
ghost use Rattle.program.specs.declared.statement.Action.TheVariants as does;
ghost use Rattle.flow.specs.Graphs.{Act};
ghost use Rattle.rules.specs.Programs.{model_of};
ghost use Rattle.machine.specs.Answers.{TellsFrame};
ghost use Rattle.machine.specs.Outcomes.{QueueBounds};
ghost use Rattle.machine.specs.Views.{frame_model, heap_model};

use crate::exchanging::exchange;
use crate::halts::{Fault, Refusal};
use crate::heaps::BlockHeap;
use crate::instructing::Turn;
use crate::owning::new_channel;
use crate::quiet::{move_, use_};
use crate::reading::own;
use crate::worlds::Frame;
use program::{Action, Mention};
use std::alloc::Global;

/// Performs an action. An error changes nothing.
pub(crate) fn act(
    turn: &Turn<'_>,
    frame: &mut Frame,
    heap: &mut BlockHeap,
    action: Action,
    next: usize,
) -> Result<(), Refusal>
    ensures tells { (bound : QueueBounds) (choice : ℕ)
        → TellsFrame (model_of turn.now.program.now) bound turn.now.process
        (Act action next) choice result (frame_model frame.old, heap_model heap.old)
        (frame_model frame.new, heap_model heap.new) }
    ensures same { OnErr result (frame_model frame.new ≡ frame_model frame.old) }
    ensures same_blocks { OnErr result (heap_model heap.new ≡ heap_model heap.old) }
{
    let process = turn.process;
    match action {
        Action::Use(at) => use_(frame, heap.blocks(), process, at, next),
        Action::Move { target, source } => {
            move_(frame, heap.blocks(), process, target, source, next)
        }
        Action::Delete(at) => delete(turn.alloc, frame, heap, process, at, next),
        Action::Exchange(exchanged) => exchange(frame, heap, process, exchanged, next),
        Action::NewChannel(channel) => new_channel(turn, frame, heap, channel, next),
    }
}

/// Frees the block that a variable has. `F2` if the process does not own it.
fn delete(
    alloc: Global,
    frame: &mut Frame,
    heap: &mut BlockHeap,
    process: usize,
    at: Mention,
    next: usize,
) -> Result<(), Refusal>
    ensures tells { (p : ProgramModel) (bound : QueueBounds)
        → TellsFrame p bound process (Act (does.Delete at) next) 0 result
        (frame_model frame.old, heap_model heap.old) (frame_model frame.new, heap_model heap.new) }
    ensures same { OnErr result (frame_model frame.new ≡ frame_model frame.old) }
    ensures same_blocks { OnErr result (heap_model heap.new ≡ heap_model heap.old) }
{
    let Some(a) = own(heap.blocks(), process, frame.has(at)) else {
        return Err(Refusal::Fault(Fault::F2));
    };
    heap.free(alloc, a);
    frame.put(at, None);
    frame.point = next;
    Ok(())
}
