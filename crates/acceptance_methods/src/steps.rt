//! The graph and the steps of a method.

ghost use Rattle.std.specs.Prelude.{◌≡◌};
ghost use Rattle.program.specs.Statements.{statement_model};
ghost use Rattle.program.specs.declared.statement.Action.TheVariants as does;
ghost use Rattle.acceptance_methods.specs.Exchanges as told;

use crate::texts::{FREED_AND_READ, only};
use analyse::{give_up_all, tasks};
use flow::{Instr, lower};
use program::{
    Action, Effect, HeapType, MOST_STATES, MOST_VARIABLES, Mention, Method, MethodId, Role, Simple,
    Statement, StructId, VarId, Variable,
};
use rules::{Leaf, Outcome, Row, entry_pair, step};
use source::{Memory, Place};
use std::alloc::Global;
use std::test::Fail;

fn mention(variable: usize, col: u32) -> Mention {
    Mention {
        variable: VarId(variable),
        place: Place { line: 1, col },
    }
}

fn variable(
    alloc: Global,
    name: &str,
    role: Role,
    outer: Option<VarId>,
) -> Result<Variable, Memory> {
    Ok(Variable {
        name: Vec::from_slice(alloc, name.as_bytes())?,
        ty: HeapType::Struct(StructId(0)),
        role,
        outer,
    })
}

/// Returns the method of `FREED_AND_READ`, made by hand.
fn freed_and_read(alloc: Global) -> Result<Method, Memory> {
    let mut variables = Vec::new(alloc);
    variables.push(variable(alloc, "p", Role::Claimed, None)?)?;
    variables.push(variable(alloc, "q", Role::Local, Some(VarId(0)))?)?;
    let mut reads = Vec::new(alloc);
    reads.push(mention(1, 30))?;
    let mut statements = Vec::new(alloc);
    let moved = Action::Move {
        target: mention(1, 10),
        source: mention(0, 12),
    };
    statements.push(acts(alloc, moved))?;
    statements.push(frees(alloc, mention(1, 20)))?;
    let effect = Effect::Nothing;
    statements.push(Statement::Simple(Simple { reads, effect }))?;
    Ok(Method {
        name: Place { line: 1, col: 1 },
        takes: true,
        gives: false,
        result: None,
        variables,
        statements,
        scope: Some(VarId(1)),
        close: Place { line: 1, col: 40 },
    })
}

/// Returns an action without reads.
pub(crate) fn acts(alloc: Global, action: Action) -> Statement
    ensures { statement_model result ≡ told.acts action }
{
    Statement::Simple(Simple {
        reads: Vec::new(alloc),
        effect: Effect::Act(action),
    })
}

/// Returns a statement that frees what a variable has.
pub(crate) fn frees(alloc: Global, at: Mention) -> Statement
    ensures { statement_model result ≡ told.acts (does.Delete at) }
{
    acts(alloc, Action::Delete(at))
}

/// Returns the action of an instruction and where the method goes on after it, if it is one.
fn action_of(instruction: Option<&Instr>) -> Option<(Action, usize)> {
    match instruction {
        Some(Instr::Act { action, next }) => Some((*action, *next)),
        _ => None,
    }
}

/// Returns whether it reads what this variable has, and goes on at this point.
fn is_use(instruction: Option<&Instr>, variable: usize, point: usize) -> bool {
    match action_of(instruction) {
        Some((Action::Use(at), next)) => at.variable == VarId(variable) && next == point,
        _ => false,
    }
}

/// Returns whether it frees what this variable has, and goes on at this point.
fn is_delete(instruction: Option<&Instr>, variable: usize, point: usize) -> bool {
    match action_of(instruction) {
        Some((Action::Delete(at), next)) => at.variable == VarId(variable) && next == point,
        _ => false,
    }
}

/// Returns whether it takes what this variable has, and goes on at this point.
fn is_move(instruction: Option<&Instr>, variable: usize, point: usize) -> bool {
    match action_of(instruction) {
        Some((Action::Move { source, .. }, next)) => {
            source.variable == VarId(variable) && next == point
        }
        _ => false,
    }
}

/// Returns whether it ends the method at this column, with this variable the last in scope.
fn is_return(instruction: Option<&Instr>, col: u32, last: usize) -> bool {
    match instruction {
        Some(Instr::Return(end)) => {
            end.place.col == col && end.value.is_none() && end.scope == Some(VarId(last))
        }
        _ => false,
    }
}

#[test]
fn lays_a_method_from_its_end(rt: HostRuntime) -> Result<(), Fail> {
    let graph = lower(rt.alloc(), &freed_and_read(rt.alloc())?)?;
    assert!(rt; graph.first == 3);
    let laid = &graph.instructions;
    assert!(rt; laid.len() == 4);
    assert!(rt; is_return(laid.get(0), 40, 1));
    assert!(rt; is_use(laid.get(1), 1, 0));
    assert!(rt; is_delete(laid.get(2), 1, 1));
    assert!(rt; is_move(laid.get(3), 0, 2));
    Ok(())
}

#[test]
fn steps_by_the_rule_table(rt: HostRuntime) -> Result<(), Fail> {
    let program = only(rt.alloc(), FREED_AND_READ)?;
    assert!(rt; program.methods().len() == 1);
    assert!(rt; program.graph(MethodId(0)).first == 3);
    let (point, row) = entry_pair(rt.alloc(), &program, MethodId(0))?;
    assert!(rt; point == 3);
    assert!(rt; row.leaves() == [Leaf::Block, Leaf::Nothing].as_slice());
    match step(rt.alloc(), &program, MethodId(0), point, &row)? {
        Outcome::Next(pairs) => match pairs.get(0) {
            Some((point, row)) => {
                assert!(rt; *point == 2);
                assert!(rt; row.leaves() == [Leaf::Nothing, Leaf::Block].as_slice());
            }
            None => assert!(rt; false),
        },
        Outcome::Found(_) => assert!(rt; false),
    }
    Ok(())
}

#[test]
fn has_a_task_for_each_method(rt: HostRuntime) -> Result<(), Fail> {
    let program = only(rt.alloc(), FREED_AND_READ)?;
    let mut left = tasks(rt.alloc(), &program)?.into_iter();
    match left.next() {
        Some(task) => {
            assert!(rt; task.method() == MethodId(0));
            let (method, _) = task.spend();
            assert!(rt; method == MethodId(0));
        }
        None => assert!(rt; false),
    }
    assert!(rt; left.len() == 0);
    give_up_all(left);
    Ok(())
}

#[test]
fn rows_are_within_the_limits(rt: HostRuntime) -> Result<(), Fail> {
    let mut leaves = Vec::new(rt.alloc());
    for _ in 0..MOST_VARIABLES {
        leaves.push(Leaf::CutOff)?;
    }
    assert!(rt; Row::of(leaves).is_some());
    let mut more = Vec::new(rt.alloc());
    for _ in 0..MOST_VARIABLES + 1 {
        more.push(Leaf::Nothing)?;
    }
    assert!(rt; Row::of(more).is_none());
    let mut last = Vec::new(rt.alloc());
    last.push(Leaf::State(MOST_STATES as u32 - 1))?;
    assert!(rt; Row::of(last).is_some());
    let mut past = Vec::new(rt.alloc());
    past.push(Leaf::State(MOST_STATES as u32))?;
    assert!(rt; Row::of(past).is_none());
    Ok(())
}
