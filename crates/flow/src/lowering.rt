//! Lowering of statements to instructions, laid from the end of a method on.

ghost use Rattle.std.specs.Prelude.{◌≡◌, ℕ, List, IfOk, [], length, map, option_map};
ghost use Rattle.program.specs.Methods.{method_model};
ghost use Rattle.program.specs.Statements as stated;
ghost use Rattle.program.specs.Statements.{statement_model, statement_sequence, block_model, test_model};
ghost use Rattle.program.specs.Statements.{if_model, other_sequence, case_model, case_sequence};
ghost use Rattle.flow.specs.declared.graph.Instr.{Instr};
ghost use Rattle.flow.specs.Graphs.{graph_model, instruction_model};
ghost use Rattle.flow.specs.Growths.{Grew};
ghost use Rattle.flow.specs.Lowering as laid;
ghost use Rattle.flow.specs.Lowering.{Lays, graph_of};
ghost use Rattle.flow.specs.Within.{IsClosed};

use crate::cases::Cases;
use crate::graph::{Graph, Instr, Returning};
use crate::laying::{
    Exits, branches, entrance_of, lay, lay_branches, lay_call, lay_forget, lay_new, lay_reads,
    lay_send, lay_simple, lay_start,
};
use program::{Block, Case, If, Method, Statement, Test};
use source::{Memory, Place};
use std::alloc::Global;

/// Returns the graph of a method.
///
/// A statement first reads, with a `Use` for each mention of a variable of the exchange heap before `.` or `[` in order of the text.
/// Then it takes effect; a statement that only changes scalars is its reads alone. A condition reads, and then continues at its block
/// or after it. Variables that go out of scope are forgotten after a block, at a `break` and at a `continue`. A call reads, calls, and
/// then uses what it is written into. A switch comes before its cases. After each case the method continues where the switch ends, as
/// it does after a `break` in a case. A method ends with a `Return`, which checks all its variables in scope, or with a `Stop` if it
/// returns something. Instructions that cannot be reached are laid all the same.
///
/// The method begins at a point of the graph, and each instruction continues only at such points.
///
/// # Errors
/// `Memory` if out of memory.
pub fn lower(alloc: Global, method: &Method) -> Result<Graph, Memory>
    ensures graph { IfOk result (λ g. graph_model g ≡ graph_of (method_model method.now)) }
    ensures closed { IfOk result (λ g. IsClosed (graph_model g)) }
{
    let mut instructions = Vec::new(alloc);
    let last = lay(&mut instructions, ending(method))?;
    let nowhere = Exits { end: 0, again: 0 };
    let first = lay_statements(alloc, &mut instructions, &method.statements, nowhere, last)?;
    Ok(Graph {
        instructions,
        first,
    })
}

/// Returns the last instruction of a method.
fn ending(method: &Method) -> Instr
    ensures { instruction_model result ≡ laid.ending (method_model method.now) }
{
    let place = method.close;
    if method.gives {
        return Instr::Stop { place };
    }
    Instr::Return(Returning {
        place,
        value: None,
        scope: method.scope,
    })
}

/// Lays statements, after which the method continues at `next`. Returns the point at which they begin.
#[cycle(statements)]
fn lay_statements(
    alloc: Global,
    instructions: &mut Vec<Instr>,
    statements: &[Statement],
    exits: Exits,
    next: usize,
) -> Result<usize, Memory>
    ensures { IfOk result (λ entry. Grew instructions.old.items instructions.new.items entry
        (laid.statements (statement_sequence (map statement_model statements.now)) exits.end exits.again
        (length instructions.old.items) next)) }
{
    let mut entry = next;
    for statement in statements.iter().rev() {
        entry = lay_statement(alloc, instructions, statement, exits, entry)?;
    }
    Ok(entry)
}

/// Lays a statement.
#[cycle(statements)]
fn lay_statement(
    alloc: Global,
    instructions: &mut Vec<Instr>,
    statement: &Statement,
    exits: Exits,
    next: usize,
) -> Result<usize, Memory>
    ensures { IfOk result (λ entry. Grew instructions.old.items instructions.new.items entry
        (laid.statement (statement_model statement.now) exits.end exits.again (length instructions.old.items) next)) }
{
    match statement {
        Statement::Simple(simple) => lay_simple(instructions, simple, exits, next),
        Statement::New(new) => lay_new(alloc, instructions, new, next),
        Statement::Call(call) => lay_call(alloc, instructions, call, next),
        Statement::Start(call) => lay_start(alloc, instructions, call, next),
        Statement::Send(send) => lay_send(alloc, instructions, send, next),
        Statement::Block(block) => lay_block(alloc, instructions, block, exits, next),
        Statement::If(branches) => lay_if(alloc, instructions, branches, exits, next),
        Statement::While(test) => lay_while(alloc, instructions, test, next),
        Statement::Switch { place, cases } => {
            lay_switch(alloc, instructions, *place, cases, exits.again, next)
        }
    }
}

/// Lays a block, and after it a Forget for the variables that go out of scope.
#[cycle(statements)]
fn lay_block(
    alloc: Global,
    instructions: &mut Vec<Instr>,
    block: &Block,
    exits: Exits,
    next: usize,
) -> Result<usize, Memory>
    ensures { IfOk result (λ entry. Grew instructions.old.items instructions.new.items entry
        (laid.block (block_model block.now) exits.end exits.again (length instructions.old.items) next)) }
{
    let behind = lay_forget(instructions, block.forget, next)?;
    lay_statements(alloc, instructions, &block.statements, exits, behind)
}

/// Lays what runs if all conditions of an `if` are false.
#[cycle(statements)]
fn lay_otherwise(
    alloc: Global,
    instructions: &mut Vec<Instr>,
    otherwise: &Option<Block>,
    exits: Exits,
    next: usize,
) -> Result<usize, Memory>
    ensures { IfOk result (λ entry. Grew instructions.old.items instructions.new.items entry
        (laid.others (other_sequence [] (option_map block_model otherwise.now)) exits.end exits.again
        (length instructions.old.items) next)) }
{
    match otherwise {
        Some(block) => lay_block(alloc, instructions, block, exits, next),
        None => Ok(next),
    }
}

/// Lays an `if`: what runs otherwise, and on top of it the conditions from the last on.
#[cycle(statements)]
fn lay_if(
    alloc: Global,
    instructions: &mut Vec<Instr>,
    branches: &If,
    exits: Exits,
    next: usize,
) -> Result<usize, Memory>
    ensures { IfOk result (λ entry. Grew instructions.old.items instructions.new.items entry
        (laid.condition (if_model branches.now).first (laid.others (if_model branches.now).others exits.end exits.again)
        exits.end exits.again (length instructions.old.items) next)) }
{
    let mut other = lay_otherwise(alloc, instructions, &branches.otherwise, exits, next)?;
    for test in branches.others.iter().rev() {
        other = lay_condition(alloc, instructions, test, exits, other, next)?;
    }
    lay_condition(alloc, instructions, &branches.first, exits, other, next)
}

/// Lays a condition and its block on top of what runs if the condition is false, which begins at `other`. After both the method
/// continues at `next`.
#[cycle(statements)]
fn lay_condition(
    alloc: Global,
    instructions: &mut Vec<Instr>,
    test: &Test,
    exits: Exits,
    other: usize,
    next: usize,
) -> Result<usize, Memory>
    ensures { IfOk result (λ entry. (below : List Instr) (otherwise : Lays)
        → Grew below instructions.old.items other (otherwise (length below) next)
        → Grew below instructions.new.items entry
        (laid.condition (test_model test.now) otherwise exits.end exits.again (length below) next)) }
{
    let body = lay_block(alloc, instructions, &test.body, exits, next)?;
    let branch = lay_branches(instructions, test.place, test.ways, body, other)?;
    lay_reads(instructions, &test.reads, branch)
}

/// Lays a loop: its Branch, the reads of its condition and its body. Then it sets where the Branch continues.
#[cycle(statements)]
fn lay_while(
    alloc: Global,
    instructions: &mut Vec<Instr>,
    test: &Test,
    next: usize,
) -> Result<usize, Memory>
    ensures { IfOk result (λ entry. (exit again : ℕ) → Grew instructions.old.items instructions.new.items entry
        (laid.statement (stated.While (test_model test.now)) exit again (length instructions.old.items) next)) }
{
    let branch = lay_branches(instructions, test.place, test.ways, next, next)?;
    let head = lay_reads(instructions, &test.reads, branch)?;
    let exits = Exits {
        end: next,
        again: head,
    };
    let body = lay_block(alloc, instructions, &test.body, exits, head)?;
    instructions[branch] = Instr::Branch {
        place: test.place,
        branches: branches(test.ways, body, next),
    };
    Ok(head)
}

/// Lays the cases of a switch, the last one first, and on top of them the switch.
#[cycle(statements)]
fn lay_switch(
    alloc: Global,
    instructions: &mut Vec<Instr>,
    place: Place,
    cases: &[Case],
    again: usize,
    next: usize,
) -> Result<usize, Memory>
    ensures { IfOk result (λ entry. (exit : ℕ) → Grew instructions.old.items instructions.new.items entry
        (laid.statement (stated.Switch place (case_sequence (map case_model cases.now))) exit again (length instructions.old.items) next)) }
{
    let exits = Exits { end: next, again };
    let mut entrances = Vec::new(alloc);
    for case in cases.iter().rev() {
        let entry = lay_block(alloc, instructions, &case.body, exits, next)?;
        entrances.push(entrance_of(alloc, case, entry)?)?;
    }
    entrances.reverse();
    let cases = Cases::new(alloc, entrances)?;
    lay(instructions, Instr::Switch { place, cases })
}
