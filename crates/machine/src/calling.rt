//! Calls.

ghost use Rattle.std.specs.Prelude.{◌≡◌, IfErr, IfOk, OnErr, OnOk, map};
ghost use Rattle.flow.specs.Graphs.{instruction_model};
ghost use Rattle.flow.specs.declared.graph.Instr.{Instr};
ghost use Rattle.program.specs.Methods.{variable_model};
ghost use Rattle.program.specs.WellFormed as formed;
ghost use Rattle.rules.specs.Programs.{model_of};
ghost use Rattle.machine.specs.Answers.{TellsStack, entered_on};
ghost use Rattle.machine.specs.Frames.{frame_at_entry, variables_at_entry};
ghost use Rattle.machine.specs.Outcomes.{QueueBounds};
ghost use Rattle.machine.specs.Views.{blocks_model, frame_model, stack_model, variables_model};
ghost use Rattle.machine.specs.World.{read};

use crate::giving::first_fault;
use crate::halts::Refusal;
use crate::instructing::Turn;
use crate::mentions::lets_go;
use crate::variables::Variables;
use crate::worlds::{Block, Frame, Process};
use flow::Calling;
use program::{Argument, MethodId, Role, Variable};
use rules::Program;
use std::alloc::Global;

/// Whether a variable of this role is a parameter.
fn is_parameter(role: Role) -> bool
    ensures { result ≡ formed.is_parameter role }
{
    match role {
        Role::Lent | Role::Claimed => true,
        Role::Local => false,
    }
}

/// Returns the variables of a method at its first point: its parameters have the arguments, in order, and the others
/// nothing.
fn fill(
    alloc: Global,
    frame: &Frame,
    variables: &[Variable],
    arguments: &[Argument],
) -> Result<Variables, Refusal>
    ensures filled { IfOk result (λ has. variables_model has
        ≡ variables_at_entry (map variable_model variables.now)
        (map (λ a. read (frame_model frame.now).variables a.mention.variable.0) arguments.now)) }
    ensures memory { IfErr result (λ refusal. refusal ≡ Refusal.Memory) }
{
    let mut has = Variables::with_capacity(alloc, arguments.len())?;
    let mut given = 0;
    for variable in variables {
        if is_parameter(variable.role) && given < arguments.len() {
            has.push(frame.has(arguments[given].mention))?;
            given += 1;
        } else {
            has.push(None)?;
        }
    }
    Ok(has)
}

/// Returns the first frame of a method, with arguments from variables of the caller.
pub(crate) fn enter(
    alloc: Global,
    program: &Program,
    frame: &Frame,
    method: MethodId,
    arguments: &[Argument],
) -> Result<Frame, Refusal>
    ensures entered { IfOk result (λ begun. frame_model begun
        ≡ frame_at_entry (model_of program.now) method.0
        (map (λ a. read (frame_model frame.now).variables a.mention.variable.0) arguments.now)) }
    ensures memory { IfErr result (λ refusal. refusal ≡ Refusal.Memory) }
{
    let Some(called) = program.methods().get(method.0 as usize) else {
        return Ok(Frame {
            method,
            point: 0,
            variables: Variables::new(alloc),
        });
    };
    let variables = fill(alloc, frame, &called.variables, arguments)?;
    Ok(Frame {
        method,
        point: program.graph(method).first,
        variables,
    })
}

/// Pushes a frame on top of its caller, and empties the caller's variables of the claimed arguments. An error changes
/// nothing.
fn push_frame(stack: &mut Process, begun: Frame, arguments: &[Argument]) -> Result<(), Refusal>
    ensures pushed { OnOk result (stack_model stack.new
        ≡ entered_on (frame_model begun) arguments.now (stack_model stack.old)) }
    ensures same { OnErr result (stack_model stack.new ≡ stack_model stack.old) }
    ensures memory { IfErr result (λ refusal. refusal ≡ Refusal.Memory) }
{
    stack.waiting.reserve(1)?;
    let Some(mut caller) = stack.top.take() else {
        return Ok(());
    };
    lets_go(&mut caller.variables, arguments);
    stack.waiting.push(caller)?;
    stack.top = Some(begun);
    Ok(())
}

/// Calls a method. The arguments are tested before the new frame is allocated. An error changes nothing.
pub(crate) fn call(
    turn: &Turn<'_>,
    stack: &mut Process,
    blocks: &[Block],
    calling: &Calling,
) -> Result<(), Refusal>
    ensures tells { (bound : QueueBounds)
        → TellsStack (model_of turn.now.program.now) bound turn.now.process
        (instruction_model (Instr.Call calling.now)) result (stack_model stack.old)
        (stack_model stack.new) (blocks_model blocks.now) }
    ensures same { OnErr result (stack_model stack.new ≡ stack_model stack.old) }
{
    let Some(frame) = &stack.top else {
        return Err(Refusal::Ended);
    };
    if let Some(fault) = first_fault(turn.alloc, frame, blocks, turn.process, &calling.arguments) {
        return Err(Refusal::Fault(fault));
    }
    let begun = enter(
        turn.alloc,
        turn.program,
        frame,
        calling.method,
        &calling.arguments,
    )?;
    push_frame(stack, begun, &calling.arguments)
}
