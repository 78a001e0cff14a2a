//! A program in numbers whose struct has an owning field, made by hand and proved to be well formed. In a loop a new
//! block goes into the field, and the one that comes out of it is deleted.

ghost use Rattle.std.specs.Prelude.{◌≡◌, [], ◌∷◌, IfOk, length, map};
ghost use Rattle.program.specs.Methods.{method_model, variable_model};
ghost use Rattle.program.specs.Programs.{contracts_model, methods_model, type_lists, structs_model};
ghost use Rattle.program.specs.Statements.{statement_model};
ghost use Rattle.rules.specs.Programs.{model_of};
ghost use Rattle.acceptance_methods.specs.Exchanges as told;

use crate::steps::{acts, frees};
use crate::verdicts::verdict_of;
use analyse::Worker;
use intern::Rows;
use machine::{Event, Owner, Replayed, replay};
use program::{
    Action, Block, Effect, Exchange, HeapType, Mention, Method, MethodId, Methods, New, Resolved,
    Role, Simple, Statement, StructId, Test, VarId, Variable, Ways,
};
use rules::{Breach, Program, Reason};
use source::{Code, Memory, Place};
use std::alloc::Global;
use std::test::Fail;

/// One place for everything.
const AT: Place = Place { line: 1, col: 1 };

/// Returns a mention of a variable.
fn mention(variable: usize) -> Mention
    ensures { result ≡ told.mention variable }
{
    Mention {
        variable: VarId(variable),
        place: AT,
    }
}

/// Returns what each struct holds in its owning fields.
fn structs(alloc: Global) -> Result<Vec<Vec<HeapType>>, Memory>
    ensures { IfOk result (λ structs. type_lists structs.items ≡ told.structs) }
{
    let mut fields = Vec::new(alloc);
    fields.push(HeapType::Struct(StructId(0)))?;
    let mut structs = Vec::new(alloc);
    structs.push(Vec::new(alloc))?;
    structs.push(fields)?;
    Ok(structs)
}

/// Returns the two variables.
fn variables(alloc: Global) -> Result<Vec<Variable>, Memory>
    ensures { IfOk result (λ variables. map variable_model variables.items ≡ told.method.variables) }
{
    let mut variables = Vec::new(alloc);
    variables.push(variable(alloc, 0, None))?;
    variables.push(variable(alloc, 1, Some(VarId(0))))?;
    Ok(variables)
}

/// Returns a variable for a struct.
fn variable(alloc: Global, number: usize, outer: Option<VarId>) -> Variable
    ensures { variable_model result ≡ told.variable number outer }
{
    Variable {
        name: Vec::new(alloc),
        ty: HeapType::Struct(StructId(number)),
        role: Role::Local,
        outer,
    }
}

/// Returns a statement that makes a new block, without arguments.
fn new(alloc: Global, target: usize) -> Statement
    ensures { statement_model result ≡ told.new target [] }
{
    Statement::New(New {
        reads: Vec::new(alloc),
        target: mention(target),
        arguments: Vec::new(alloc),
    })
}

/// Returns a statement that makes a new block, which holds what the first variable has.
fn new_with_first(alloc: Global, target: usize) -> Result<Statement, Memory>
    ensures { IfOk result (λ made. statement_model made ≡ told.new target (told.mention 0 ∷ [])) }
{
    let mut arguments = Vec::new(alloc);
    arguments.push(mention(0))?;
    Ok(Statement::New(New {
        reads: Vec::new(alloc),
        target: mention(target),
        arguments,
    }))
}

/// Returns the loop.
fn turns(alloc: Global) -> Result<Statement, Memory>
    ensures { IfOk result (λ made. statement_model made ≡ told.turns) }
{
    let exchange = Exchange {
        place: AT,
        holder: mention(1),
        field: 0,
        given: mention(0),
    };
    let mut statements = Vec::new(alloc);
    statements.push(new(alloc, 0))?;
    statements.push(acts(alloc, Action::Exchange(exchange)))?;
    statements.push(frees(alloc, mention(0)))?;
    let body = Block {
        statements,
        forget: None,
    };
    let test = Test {
        place: AT,
        reads: Vec::new(alloc),
        ways: Ways::Either,
        body,
    };
    Ok(Statement::While(Box::new(alloc, test)?))
}

/// Returns the method.
fn method(alloc: Global) -> Result<Method, Memory>
    ensures { IfOk result (λ made. method_model made ≡ told.method) }
{
    let mut statements = Vec::new(alloc);
    statements.push(new(alloc, 0))?;
    statements.push(new_with_first(alloc, 1)?)?;
    statements.push(turns(alloc)?)?;
    statements.push(frees(alloc, mention(1)))?;
    Ok(Method {
        name: AT,
        takes: false,
        gives: false,
        result: None,
        variables: variables(alloc)?,
        statements,
        scope: Some(VarId(1)),
        close: AT,
    })
}

/// Returns the methods of the program.
fn methods_of_exchange(alloc: Global) -> Result<Methods, Memory>
    ensures contracts { IfOk result (λ made. contracts_model made ≡ []) }
    ensures structs { IfOk result (λ made. structs_model made ≡ told.structs) }
    ensures methods { IfOk result (λ made. methods_model made ≡ told.method ∷ []) }
{
    let mut methods = Vec::new(alloc);
    methods.push(method(alloc)?)?;
    let contracts = Resolved {
        contracts: Vec::new(alloc),
    };
    Ok(Methods::new(contracts, Vec::new(alloc), structs(alloc)?, methods))
}

/// Returns the program of these methods.
fn program(alloc: Global) -> Result<Program, Fail>
    ensures { IfOk result (λ p. length (model_of p).methods ≡ 1) }
{
    let methods = methods_of_exchange(alloc)?;
    let program = Program::new(alloc, methods, Vec::new(alloc))?;
    Ok(program)
}

/// Adds events of the one process, with these choices.
fn add(events: &mut Vec<Event>, choices: &[u64]) -> Result<(), Memory> {
    for choice in choices {
        events.push(Event {
            process: 0,
            choice: *choice,
        })?;
    }
    Ok(())
}

/// Replays `turns` turns of the loop, after the two blocks that are made first, and then events with these choices.
fn after(alloc: Global, program: &Program, turns: usize, choices: &[u64]) -> Result<Replayed, Fail>
    requires { length (model_of program.now).methods ≡ 1 }
{
    let mut events = Vec::new(alloc);
    add(&mut events, &[0, 0])?;
    for _ in 0..turns {
        add(&mut events, &[0, 0, 0, 0])?;
    }
    add(&mut events, choices)?;
    let run = replay(alloc, program, MethodId(0), &events)?;
    Ok(run)
}

#[test]
fn nothing_is_found(rt: HostRuntime) -> Result<(), Fail> {
    let alloc = rt.alloc();
    let program = program(alloc)?;
    let Ok((rows, seat)) = Rows::new(alloc, 64) else {
        return Err(Fail::from("no table"));
    };
    let mut worker = Worker::new(alloc, seat);
    let verdict = verdict_of(alloc, &program, &rows, &mut worker)?;
    assert!(rt; verdict.findings().is_empty());
    Ok(())
}

/// No text puts an endpoint into a field, so the finding is made from its numbers.
#[test]
fn a_wrong_state_for_a_field_is_told(rt: HostRuntime) -> Result<(), Fail> {
    let alloc = rt.alloc();
    let program = program(alloc)?;
    let place = Place { line: 2, col: 7 };
    let reason = Reason::WrongForField(VarId(0));
    let finding = program.finding(alloc, MethodId(0), Breach { place, reason })?;
    assert!(rt; finding.place == place && finding.code == Code::A15);
    assert!(rt; finding.text.as_str() == " in a wrong state for the field");
    Ok(())
}

#[test]
fn what_is_exchanged_is_inside(rt: HostRuntime) -> Result<(), Fail> {
    let alloc = rt.alloc();
    let program = program(alloc)?;
    let run = after(alloc, &program, 0, &[0, 0, 0])?;
    assert_eq!(rt; run.halt, None);
    let blocks = run.world.blocks();
    assert!(rt; blocks.len() == 3);
    assert!(rt; blocks[0].owner == Owner::Process(0) && blocks[0].fields.is_empty());
    assert!(rt; blocks[1].owner == Owner::Process(0));
    assert!(rt; blocks[1].fields.as_slice() == [2].as_slice());
    assert!(rt; blocks[2].owner == Owner::Inside(1));
    Ok(())
}

#[test]
fn all_is_freed_after_a_hundred_thousand_exchanges(rt: HostRuntime) -> Result<(), Fail> {
    let alloc = rt.alloc();
    let program = program(alloc)?;
    let run = after(alloc, &program, 100_000, &[1, 0, 0])?;
    assert!(rt; run.steps == 400_005);
    assert_eq!(rt; run.halt, None);
    assert!(rt; run.world.blocks().len() == 100_002);
    assert!(rt;
        run.world
            .blocks()
            .iter()
            .all(|block| block.owner == Owner::Freed)
    );
    Ok(())
}
