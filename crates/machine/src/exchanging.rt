//! Exchanges of a variable with a field of a block.

ghost use Rattle.std.specs.Prelude.{◌≡◌, ◌∷◌, [], IfSome, MatchOption, OnErr, Some, false, true};
ghost use Rattle.program.specs.Programs.{ProgramModel};
ghost use Rattle.program.specs.declared.statement.Action.TheVariants as does;
ghost use Rattle.flow.specs.Graphs.{Act};
ghost use Rattle.machine.specs.Blocks.{is_own_still};
ghost use Rattle.machine.specs.Outcomes.{QueueBounds};
ghost use Rattle.machine.specs.Views.{blocks_model, frame_model, heap_model};
ghost use Rattle.machine.specs.Answers.{TellsFrame};

use crate::halts::{Fault, Refusal};
use crate::heaps::BlockHeap;
use crate::reading::own;
use crate::worlds::{Block, Frame};
use program::Exchange;

/// Returns `address` if the process owns the block there and it is not the block at `at`.
fn own_apart(blocks: &[Block], process: usize, at: usize, address: Option<usize>) -> Option<usize>
    ensures some { IfSome result (λ a. address ≡ Some a) }
    ensures own { MatchOption result
        (is_own_still (blocks_model blocks.now) process (at ∷ []) address ≡ false)
        (λ a. is_own_still (blocks_model blocks.now) process (at ∷ []) address ≡ true) }
{
    let a = own(blocks, process, address)?;
    if a == at {
        return None;
    }
    Some(a)
}

/// Exchanges what a variable has with what a field of a block holds. If the block has no such field, only the point
/// moves on. It never allocates.
///
/// `F1` if the process does not own the block with the field, `F3` if it does not own the block in the variable or
/// both are the same. An error changes nothing.
pub(crate) fn exchange(
    frame: &mut Frame,
    heap: &mut BlockHeap,
    process: usize,
    e: Exchange,
    next: usize,
) -> Result<(), Refusal>
    ensures tells { (p : ProgramModel) (bound : QueueBounds)
        → TellsFrame p bound process (Act (does.Exchange e) next) 0 result
        (frame_model frame.old, heap_model heap.old) (frame_model frame.new, heap_model heap.new) }
    ensures same { OnErr result (frame_model frame.new ≡ frame_model frame.old) }
    ensures same_blocks { OnErr result (heap_model heap.new ≡ heap_model heap.old) }
{
    let Some(at) = own(heap.blocks(), process, frame.has(e.holder)) else {
        return Err(Refusal::Fault(Fault::F1));
    };
    let Some(given) = own_apart(heap.blocks(), process, at, frame.has(e.given)) else {
        return Err(Refusal::Fault(Fault::F3));
    };
    if let Some(held) = heap.exchange(process, at, e.field, given) {
        frame.put(e.given, Some(held));
    }
    frame.point = next;
    Ok(())
}
