//! Mistakes in the names and types of statements.

ghost use Rattle.std.specs.Prelude.{map, take};
ghost use Rattle.tree.specs.StatementTrees.{plain_tree, statement_tree, statement_sequence, block_tree, test_tree};
ghost use Rattle.tree.specs.StatementTrees.{if_tree, switch_tree, case_tree};
ghost use Rattle.names.specs.Bodies as bodies;
ghost use Rattle.names.specs.Bodies.{in_loop, in_switch, plain_turn, statement_turn, statements_turn, block_turn};
ghost use Rattle.names.specs.Bodies.{test_turn, others_turn, case_turn, head_of};
ghost use Rattle.names.specs.Frames.{AreSurroundings, Turns};
ghost use Rattle.names.specs.Heads.{TurnsAmong, switch_turn};
ghost use Rattle.names.specs.Variables.{follow};

use crate::calls::{Purpose, judge_call};
use crate::cases::{judge_binds, judge_head};
use crate::exchanges::judge_exchange;
use crate::heads::Heads;
use crate::plain::{judge_assign, judge_channel, judge_declare, judge_delete, judge_return};
use crate::surroundings::Surroundings;
use crate::told::{judge_break, judge_continue};
use crate::variables::ScopeVariables;
use crate::wholes::judge_truth;
use declarations::Mistake;
use source::Memory;
use tree::{Block, Case, If, Plain, Statement, Switch, Test};

/// Returns the same surroundings within a loop.
fn within_loop<'s, 'a>(around: &Surroundings<'s, 'a>) -> Surroundings<'s, 'a>
    ensures { (m : bodies.Surroundings) → AreSurroundings m around.now → AreSurroundings (in_loop m) result }
{
    Surroundings {
        breaks: true,
        continues: true,
        ..*around
    }
}

/// Returns the same surroundings within a switch.
fn within_switch<'s, 'a>(around: &Surroundings<'s, 'a>) -> Surroundings<'s, 'a>
    ensures { (m : bodies.Surroundings) → AreSurroundings m around.now → AreSurroundings (in_switch m) result }
{
    Surroundings {
        breaks: true,
        ..*around
    }
}

/// Adds the mistakes in a statement that holds no others.
fn judge_plain<'a>(
    around: &Surroundings<'_, 'a>,
    variables: &mut ScopeVariables<'a>,
    plain: &Plain,
    found: &mut Vec<Mistake>,
) -> Result<(), Memory>
    ensures { Turns around.now variables.old variables.new found.old.items found.new.items result
        (λ m. plain_turn m (plain_tree plain.now)) }
{
    let scope = around.scope;
    match plain {
        Plain::Declare(declare) => judge_declare(around, variables, declare, found),
        Plain::Assign(assign) => judge_assign(around, variables, assign, found),
        Plain::Call(call) => judge_call(around, variables, Purpose::Alone, call, found),
        Plain::Start { call, .. } => judge_call(around, variables, Purpose::Started, call, found),
        Plain::Delete(name) => judge_delete(scope, variables, *name, found),
        Plain::Exchange(exchange) => judge_exchange(scope, variables, **exchange, found),
        Plain::NewChannel(channel) => judge_channel(scope, variables, **channel, found),
        Plain::Break(word) => judge_break(around.breaks, *word, found),
        Plain::Continue(word) => judge_continue(around.continues, *word, found),
        Plain::Return { word, value } => {
            let context = around.context(variables);
            judge_return(&context, around.result, *word, value, found)
        }
    }
}

/// Adds the mistakes in a block. What it declares is in scope only there.
#[cycle(bodies)]
pub(crate) fn judge_block<'a>(
    around: &Surroundings<'_, 'a>,
    variables: &mut ScopeVariables<'a>,
    block: &Block,
    found: &mut Vec<Mistake>,
) -> Result<(), Memory>
    ensures { Turns around.now variables.old variables.new found.old.items found.new.items result
        (λ m. block_turn m (block_tree block.now)) }
{
    let outer = variables.len();
    judge_statements(around, variables, &block.statements, found)?;
    variables.leave(outer);
    Ok(())
}

/// Adds the mistakes in these statements.
#[cycle(bodies)]
fn judge_statements<'a>(
    around: &Surroundings<'_, 'a>,
    variables: &mut ScopeVariables<'a>,
    statements: &[Statement],
    found: &mut Vec<Mistake>,
) -> Result<(), Memory>
    ensures { Turns around.now variables.old variables.new found.old.items found.new.items result
        (λ m. statements_turn m (statement_sequence (map statement_tree statements.now))) }
{
    for statement in statements {
        judge_statement(around, variables, statement, found)?;
    }
    Ok(())
}

/// Adds the mistakes in a statement.
#[cycle(bodies)]
fn judge_statement<'a>(
    around: &Surroundings<'_, 'a>,
    variables: &mut ScopeVariables<'a>,
    statement: &Statement,
    found: &mut Vec<Mistake>,
) -> Result<(), Memory>
    ensures { Turns around.now variables.old variables.new found.old.items found.new.items result
        (λ m. statement_turn m (statement_tree statement.now)) }
{
    match statement {
        Statement::Block(block) => judge_block(around, variables, block, found),
        Statement::Plain(plain) => judge_plain(around, variables, plain, found),
        Statement::If(branches) => judge_if(around, variables, branches, found),
        Statement::While(test) => {
            let inner = within_loop(around);
            judge_test(&inner, variables, test, found)
        }
        Statement::Switch(switch) => {
            let inner = within_switch(around);
            judge_switch(&inner, variables, switch, found)
        }
    }
}

/// Adds the mistakes in a condition and its block.
#[cycle(bodies)]
fn judge_test<'a>(
    around: &Surroundings<'_, 'a>,
    variables: &mut ScopeVariables<'a>,
    test: &Test,
    found: &mut Vec<Mistake>,
) -> Result<(), Memory>
    ensures { Turns around.now variables.old variables.new found.old.items found.new.items result
        (λ m. test_turn m (test_tree test.now)) }
{
    judge_truth(around.scope, variables, &test.test, found)?;
    judge_block(around, variables, &test.body, found)
}

/// Adds the mistakes in an `if`.
#[cycle(bodies)]
fn judge_if<'a>(
    around: &Surroundings<'_, 'a>,
    variables: &mut ScopeVariables<'a>,
    branches: &If,
    found: &mut Vec<Mistake>,
) -> Result<(), Memory>
    ensures { Turns around.now variables.old variables.new found.old.items found.new.items result
        (λ m f. follow (test_turn m (if_tree branches.now).first f)
        (others_turn m (if_tree branches.now).others)) }
{
    judge_test(around, variables, &branches.first, found)?;
    for test in &branches.others {
        judge_test(around, variables, test, found)?;
    }
    match &branches.otherwise {
        Some(block) => judge_block(around, variables, block, found),
        None => Ok(()),
    }
}

/// Adds the mistakes in a switch. The surroundings are those within it.
#[cycle(bodies)]
fn judge_switch<'a>(
    around: &Surroundings<'_, 'a>,
    variables: &mut ScopeVariables<'a>,
    switch: &Switch,
    found: &mut Vec<Mistake>,
) -> Result<(), Memory>
    ensures { Turns around.now variables.old variables.new found.old.items found.new.items result
        (λ m. switch_turn m (switch_tree switch.now)) }
{
    let heads = Heads::of(around.alloc, around.scope.seed, around.scope.text, switch)?;
    judge_case(around, variables, &heads, 0, &switch.first, found)?;
    for (index, case) in switch.others.iter().enumerate() {
        judge_case(around, variables, &heads, index + 1, case, found)?;
    }
    Ok(())
}

/// Adds the mistakes in the case at this index in its switch. What it binds and declares is in scope only there.
#[cycle(bodies)]
fn judge_case<'a>(
    around: &Surroundings<'_, 'a>,
    variables: &mut ScopeVariables<'a>,
    heads: &Heads<'a>,
    index: usize,
    case: &Case,
    found: &mut Vec<Mistake>,
) -> Result<(), Memory>
    ensures { TurnsAmong around.now heads.now index (head_of (case_tree case.now)) variables.old variables.new
        found.old.items found.new.items result (λ m all. case_turn m all (take index all) (case_tree case.now)) }
{
    let scope = around.scope;
    judge_head(&around.context(variables), heads, index, case, found)?;
    let kept = variables.len();
    judge_binds(scope, variables, case, found)?;
    judge_statements(around, variables, &case.statements, found)?;
    variables.leave(kept);
    Ok(())
}
