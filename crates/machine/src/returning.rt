//! Ends of frames.

ghost use Rattle.std.specs.Prelude.{◌≡◌, [], IfErr, IsFalse, IsSome, IsTrue, OnErr, OnOk, Option};
ghost use Rattle.program.specs.Programs.{ProgramModel};
ghost use Rattle.program.specs.declared.number.VarId.{VarId};
ghost use Rattle.source.specs.declared.place.Place.{Place};
ghost use Rattle.flow.specs.Graphs.{Return};
ghost use Rattle.rules.specs.Programs.{model_of};
ghost use Rattle.machine.specs.Answers.{Tells, TellsStack, given_back, on_stack, outcome_of_end, with_stack, with_variables};
ghost use Rattle.machine.specs.Outcomes.{QueueBounds, Faulty};
ghost use Rattle.machine.specs.Views.{blocks_model, frame_model, heap_model, stack_model, stack_of};
ghost use Rattle.machine.specs.World as seen;
ghost use Rattle.machine.specs.declared.halts.Fault.TheVariants.{F3};

use crate::halts::{Fault, Refusal};
use crate::heaps::BlockHeap;
use crate::instructing::Turn;
use crate::reading::own;
use crate::standing::behind_call;
use crate::worlds::{Block, Frame, Process};
use program::Mention;

/// Whether the innermost frame may return what a variable has. True if there is no frame or no variable.
fn can_give(stack: &Process, blocks: &[Block], process: usize, value: Option<Mention>) -> bool
    ensures may { IsTrue result
        → (p : ProgramModel) (bound : QueueBounds) (w : seen.World) (place : Place)
        (scope : Option VarId) → w.blocks ≡ blocks_model blocks.now
        → on_stack p bound w process (Return place value scope) 0 (stack_model stack.now)
        ≡ outcome_of_end p bound w process value (stack_model stack.now) }
    ensures fault { IsFalse result
        → (p : ProgramModel) (bound : QueueBounds) (w : seen.World) (place : Place)
        (scope : Option VarId) → w.blocks ≡ blocks_model blocks.now
        → on_stack p bound w process (Return place value scope) 0 (stack_model stack.now)
        ≡ Faulty F3 }
{
    match (&stack.top, value) {
        (Some(frame), Some(value)) => own(blocks, process, frame.has(value)).is_some(),
        _ => true,
    }
}

/// Gives the caller's target what the innermost frame returns, if it returns something. An error changes nothing.
fn give_back(
    top: &Option<Frame>,
    value: Option<Mention>,
    target: Option<Mention>,
    caller: &mut Frame,
) -> Result<(), Refusal>
    ensures given { OnOk result (frame_model caller.new
        ≡ with_variables (frame_model caller.old)
        (given_back value target (stack_of top.now []) (frame_model caller.old).variables)) }
    ensures same { OnErr result (frame_model caller.new ≡ frame_model caller.old) }
    ensures memory { IfErr result (λ refusal. refusal ≡ Refusal.Memory) }
{
    if let (Some(frame), Some(value)) = (top, value) {
        caller.take(target, frame.has(value))?;
    }
    Ok(())
}

/// Ends the innermost frame, which returns what this variable has, if there is one. The frame that waits for it
/// continues. If none waits, the process ends.
///
/// `F7` if the process would end and still owns a block. An error changes nothing.
pub(crate) fn end(
    turn: &Turn<'_>,
    stack: &mut Process,
    heap: &BlockHeap,
    value: Option<Mention>,
) -> Result<(), Refusal>
    requires top { IsSome stack.old.top }
    ensures tells { (bound : QueueBounds) (w : seen.World) → w.blocks ≡ heap_model heap.now
        → Tells result (outcome_of_end
        (model_of turn.now.program.now) bound w turn.now.process value (stack_model stack.old))
        (with_stack w turn.now.process (stack_model stack.new) (heap_model heap.now)) }
    ensures same { OnErr result (stack_model stack.new ≡ stack_model stack.old) }
{
    let Some(last) = stack.waiting.len().checked_sub(1) else {
        if !heap.owns_none(turn.process) {
            return Err(Refusal::Fault(Fault::F7));
        }
        stack.top = None;
        return Ok(());
    };
    let caller = &mut stack.waiting[last];
    let behind = behind_call(turn.program, caller);
    give_back(&stack.top, value, behind.target, caller)?;
    caller.point = behind.next;
    stack.top = stack.waiting.pop();
    Ok(())
}

/// Returns from a method. `F3` if the process does not own the returned value, `F7` if it would end and still owns a
/// block. An error changes nothing.
pub(crate) fn return_(
    turn: &Turn<'_>,
    stack: &mut Process,
    heap: &BlockHeap,
    value: Option<Mention>,
) -> Result<(), Refusal>
    requires top { IsSome stack.old.top }
    ensures tells { (bound : QueueBounds) (place : Place) (scope : Option VarId)
        → TellsStack (model_of turn.now.program.now) bound turn.now.process
        (Return place value scope) result (stack_model stack.old) (stack_model stack.new)
        (heap_model heap.now) }
    ensures same { OnErr result (stack_model stack.new ≡ stack_model stack.old) }
{
    if !can_give(stack, heap.blocks(), turn.process, value) {
        return Err(Refusal::Fault(Fault::F3));
    }
    end(turn, stack, heap, value)
}
