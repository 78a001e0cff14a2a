//! Instructions and simple statements, laid on top of what is laid already.

ghost use Rattle.std.specs.Prelude.{◌≡◌, IfOk, [], ◌∷◌, ◌++◌, length};
ghost use Rattle.program.specs.Statements.{call_model, new_model, send_model, simple_model};
ghost use Rattle.flow.specs.Cases.{entrance_model};
ghost use Rattle.flow.specs.Growths.{Grew};
ghost use Rattle.flow.specs.Lowering as laid;

use crate::graph::{Branches, Calling, Entrance, Instr, Returning, Sending, Starting};
use program::{Action, Call, Case, Effect, Forget, Mention, New, Send, Simple, Ways};
use source::{Memory, Place};
use std::alloc::Global;

/// Where a method continues after a `break` and after a `continue`.
#[derive(Clone, Copy)]
pub(crate) struct Exits {
    pub(crate) end: usize,
    pub(crate) again: usize,
}

/// Returns where a method continues after a condition, by the ways that the condition can go.
pub(crate) fn branches(ways: Ways, inside: usize, past: usize) -> Branches
    ensures { result ≡ laid.branches ways inside past }
{
    match ways {
        Ways::Either => Branches::Either { inside, past },
        Ways::Body => Branches::Only(inside),
        Ways::Past => Branches::Only(past),
    }
}

/// Lays one more instruction and returns its point.
pub(crate) fn lay(instructions: &mut Vec<Instr>, instruction: Instr) -> Result<usize, Memory>
    ensures { IfOk result (λ at. (instructions.new.items ≡ instructions.old.items ++ instruction ∷ [])
        × (at ≡ length instructions.old.items)) }
{
    let at = instructions.len();
    instructions.push(instruction)?;
    Ok(at)
}

/// Lays the Branch of a condition and returns its point.
pub(crate) fn lay_branches(
    instructions: &mut Vec<Instr>,
    place: Place,
    ways: Ways,
    inside: usize,
    past: usize,
) -> Result<usize, Memory>
    ensures { IfOk result (λ at. (instructions.new.items
        ≡ instructions.old.items ++ Instr.Branch place (laid.branches ways inside past) ∷ []) × (at ≡ length instructions.old.items)) }
{
    let branches = branches(ways, inside, past);
    lay(instructions, Instr::Branch { place, branches })
}

/// Lays a `Use` for each of these mentions.
pub(crate) fn lay_reads(
    instructions: &mut Vec<Instr>,
    mentions: &[Mention],
    next: usize,
) -> Result<usize, Memory>
    ensures { IfOk result (λ entry.
        Grew instructions.old.items instructions.new.items entry (laid.reads mentions.now (length instructions.old.items) next)) }
{
    let mut entry = next;
    for mention in mentions.iter().rev() {
        let read = Instr::Act {
            action: Action::Use(*mention),
            next: entry,
        };
        entry = lay(instructions, read)?;
    }
    Ok(entry)
}

/// Lays a Forget for the variables that go out of scope, if there are any.
pub(crate) fn lay_forget(
    instructions: &mut Vec<Instr>,
    forget: Option<Forget>,
    next: usize,
) -> Result<usize, Memory>
    ensures { IfOk result
        (λ entry. Grew instructions.old.items instructions.new.items entry (laid.forgets forget (length instructions.old.items) next)) }
{
    match forget {
        Some(forget) => lay(instructions, Instr::Forget { forget, next }),
        None => Ok(next),
    }
}

/// Lays the effect of a simple statement, which comes after its reads.
fn lay_effect(
    instructions: &mut Vec<Instr>,
    effect: Effect,
    exits: Exits,
    next: usize,
) -> Result<usize, Memory>
    ensures { IfOk result (λ entry. Grew instructions.old.items instructions.new.items entry
        (laid.lay_effect effect exits.end exits.again (length instructions.old.items) next)) }
{
    match effect {
        Effect::Nothing => Ok(next),
        Effect::Act(action) => lay(instructions, Instr::Act { action, next }),
        Effect::Break(forget) => lay_forget(instructions, forget, exits.end),
        Effect::Continue(forget) => lay_forget(instructions, forget, exits.again),
        Effect::Return {
            place,
            value,
            scope,
        } => {
            let returning = Returning {
                place,
                value,
                scope,
            };
            lay(instructions, Instr::Return(returning))
        }
    }
}

/// Lays a simple statement: its effect, and on top of it its reads.
pub(crate) fn lay_simple(
    instructions: &mut Vec<Instr>,
    simple: &Simple,
    exits: Exits,
    next: usize,
) -> Result<usize, Memory>
    ensures { IfOk result (λ entry. Grew instructions.old.items instructions.new.items entry
        (laid.statement (simple_model simple.now) exits.end exits.again (length instructions.old.items) next)) }
{
    let behind = lay_effect(instructions, simple.effect, exits, next)?;
    lay_reads(instructions, &simple.reads, behind)
}

/// Lays a New, and on top of it the reads of the length of an array.
pub(crate) fn lay_new(
    alloc: Global,
    instructions: &mut Vec<Instr>,
    new: &New,
    next: usize,
) -> Result<usize, Memory>
    ensures { IfOk result (λ entry. Grew instructions.old.items instructions.new.items entry
        (laid.made_new (new_model new.now) (length instructions.old.items) next)) }
{
    let instruction = Instr::New {
        target: new.target,
        arguments: Vec::from_slice(alloc, &new.arguments)?,
        next,
    };
    let at = lay(instructions, instruction)?;
    lay_reads(instructions, &new.reads, at)
}

/// Lays a call: the uses after it, the call, and on top of it the reads of its arguments.
pub(crate) fn lay_call(
    alloc: Global,
    instructions: &mut Vec<Instr>,
    call: &Call,
    next: usize,
) -> Result<usize, Memory>
    ensures { IfOk result (λ entry. Grew instructions.old.items instructions.new.items entry
        (laid.lay_call (call_model call.now) (length instructions.old.items) next)) }
{
    let next = lay_reads(instructions, &call.behind, next)?;
    let instruction = Instr::Call(Calling {
        place: call.place,
        method: call.method,
        arguments: Vec::from_slice(alloc, &call.arguments)?,
        target: call.target,
        next,
    });
    let at = lay(instructions, instruction)?;
    lay_reads(instructions, &call.reads, at)
}

/// Lays a start, and on top of it the reads of its arguments.
pub(crate) fn lay_start(
    alloc: Global,
    instructions: &mut Vec<Instr>,
    call: &Call,
    next: usize,
) -> Result<usize, Memory>
    ensures { IfOk result (λ entry. Grew instructions.old.items instructions.new.items entry
        (laid.lay_start (call_model call.now) (length instructions.old.items) next)) }
{
    let instruction = Instr::Start(Starting {
        place: call.place,
        method: call.method,
        arguments: Vec::from_slice(alloc, &call.arguments)?,
        next,
    });
    let at = lay(instructions, instruction)?;
    lay_reads(instructions, &call.reads, at)
}

/// Lays a send, and on top of it the reads of its arguments.
pub(crate) fn lay_send(
    alloc: Global,
    instructions: &mut Vec<Instr>,
    send: &Send,
    next: usize,
) -> Result<usize, Memory>
    ensures { IfOk result (λ entry. Grew instructions.old.items instructions.new.items entry
        (laid.lay_send (send_model send.now) (length instructions.old.items) next)) }
{
    let instruction = Instr::Send(Sending {
        place: send.place,
        endpoint: send.endpoint,
        message: send.message,
        payloads: Vec::from_slice(alloc, &send.payloads)?,
        next,
    });
    let at = lay(instructions, instruction)?;
    lay_reads(instructions, &send.reads, at)
}

/// Returns the entrance of a case that begins at `next`.
pub(crate) fn entrance_of(alloc: Global, case: &Case, next: usize) -> Result<Entrance, Memory>
    ensures { IfOk result (λ e. entrance_model e
        ≡ record { endpoint = case.now.endpoint; awaited = case.now.awaited; targets = case.now.targets.items; next = next }) }
{
    let targets = Vec::from_slice(alloc, &case.targets)?;
    Ok(Entrance {
        endpoint: case.endpoint,
        awaited: case.awaited,
        targets,
        next,
    })
}
