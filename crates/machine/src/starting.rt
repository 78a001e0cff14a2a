//! Starts of processes.

ghost use Rattle.std.specs.Prelude.{◌≡◌, ◌<◌, OnErr, length};
ghost use Rattle.flow.specs.Graphs.{instruction_model};
ghost use Rattle.flow.specs.declared.graph.Instr.{Instr};
ghost use Rattle.rules.specs.Programs.{model_of};
ghost use Rattle.machine.specs.Answers.{TellsWorld, went_on};
ghost use Rattle.machine.specs.Outcomes.{QueueBounds};
ghost use Rattle.machine.specs.Views.{stack_model, world_model};

use crate::calling::enter;
use crate::giving::{addresses, first_fault};
use crate::halts::Refusal;
use crate::instructing::Turn;
use crate::mentions::lets_go;
use crate::worlds::{Process, World};
use flow::Starting;
use program::Argument;

/// Empties the variables of the claimed arguments in the innermost frame, and moves it on to a point.
fn go_on(stack: &mut Process, arguments: &[Argument], next: usize)
    ensures { stack_model stack.new ≡ went_on arguments.now next (stack_model stack.old) }
{
    if let Some(frame) = &mut stack.top {
        lets_go(&mut frame.variables, arguments);
        frame.point = next;
    }
}

/// Starts a method as a new process, which owns the blocks of the arguments. An error changes nothing.
pub(crate) fn start(turn: &Turn<'_>, world: &mut World, starting: &Starting) -> Result<(), Refusal>
    requires there { turn.now.process < length world.old.processes.items }
    ensures tells { (bound : QueueBounds)
        → TellsWorld (model_of turn.now.program.now) bound turn.now.process
        (instruction_model (Instr.Start starting.now)) 0 result (world_model world.old)
        (world_model world.new) }
    ensures same { OnErr result (world_model world.new ≡ world_model world.old) }
{
    let Some(frame) = &world.processes[turn.process].top else {
        return Err(Refusal::Ended);
    };
    if let Some(fault) = first_fault(
        turn.alloc,
        frame,
        world.heap.blocks(),
        turn.process,
        &starting.arguments,
    ) {
        return Err(Refusal::Fault(fault));
    }
    let owned = addresses(turn.alloc, frame, &starting.arguments)?;
    let begun = enter(
        turn.alloc,
        turn.program,
        frame,
        starting.method,
        &starting.arguments,
    )?;
    let number = world.processes.len();
    world.heap.list(number)?;
    world.processes.push(Process {
        top: Some(begun),
        waiting: Vec::new(turn.alloc),
    })?;
    world.heap.hand_over(&owned, number);
    go_on(
        &mut world.processes[turn.process],
        &starting.arguments,
        starting.next,
    );
    Ok(())
}
