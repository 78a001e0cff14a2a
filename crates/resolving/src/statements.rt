//! What statements yield.

ghost use Rattle.std.specs.Prelude.{◌≡◌, map, IfOk, option_map};
ghost use Rattle.program.specs.Statements as seen;
ghost use Rattle.program.specs.Statements.{statement_model, block_model, test_model, if_model, case_model};
ghost use Rattle.resolving.specs.Frames.{staying_model};
ghost use Rattle.resolving.specs.Steps.{TellsPiece, pieces_in_order};
ghost use Rattle.resolving.specs.Plain.{plain_told, frame_behind};
ghost use Rattle.resolving.specs.Told.{follow, statement_told, statements_told, block_told, test_told, others_told, case_told, cases_told};
ghost use Rattle.tree.specs.StatementTrees.{MoreCases, plain_tree, statement_tree, statement_sequence, block_tree};
ghost use Rattle.tree.specs.StatementTrees.{test_tree};
ghost use Rattle.tree.specs.StatementTrees.{if_tree, last_other, case_tree, case_sequence, switch_tree};

use crate::around::Around;
use crate::cases::{awaited_as, awaited_message, awaited_params, case_endpoint, declare_binds};
use crate::locals::Locals;
use crate::plain::{declare_in, tell_plain};
use crate::reads::add_reads;
use crate::staying::{Staying, forget_past};
use crate::ways::ways_of;
use program::{Block, Case, If, Statement, Test};
use source::Place;
use std::alloc::{AllocError, Global};
use tree::{Plain, Switch};

/// Returns what a statement that holds no others yields, and declares its variable.
fn tell_alone<'a>(
    text: &'a [u8],
    around: &Around<'_, '_>,
    locals: &mut Locals<'a>,
    stays: Staying,
    plain: &Plain,
) -> Result<Statement, AllocError>
    ensures { TellsPiece text.now around.now locals.old locals.new statement_model result
        (λ p own f. record {
          what = plain_told p own f (staying_model stays) (plain_tree plain.now);
          frame = frame_behind p own f (plain_tree plain.now);
        }) }
{
    let told = tell_plain(text, around, locals, stays, plain)?;
    declare_in(text, around, locals, plain)?;
    Ok(told)
}

/// Returns what a statement yields.
#[cycle(statements)]
fn tell_statement<'a>(
    text: &'a [u8],
    around: &Around<'_, '_>,
    locals: &mut Locals<'a>,
    stays: Staying,
    statement: &tree::Statement,
) -> Result<Statement, AllocError>
    ensures { TellsPiece text.now around.now locals.old locals.new statement_model result
        (λ p own. statement_told p own (staying_model stays) (statement_tree statement.now)) }
{
    match statement {
        tree::Statement::Block(block) => {
            Ok(Statement::Block(tell_block(text, around, locals, stays, block)?))
        }
        tree::Statement::Plain(plain) => tell_alone(text, around, locals, stays, plain),
        tree::Statement::If(branches) => {
            let told = tell_if(text, around, locals, stays, branches)?;
            if_of(around.alloc, told)
        }
        tree::Statement::While(test) => {
            let inside = Staying::here(locals.last());
            let told = tell_test(text, around, locals, inside, test)?;
            while_of(around.alloc, told)
        }
        tree::Statement::Switch(switch) => {
            let inside = stays.in_switch(locals.last());
            let cases = tell_cases(text, around, locals, inside, switch)?;
            let place = switch.word.place;
            Ok(Statement::Switch { place, cases })
        }
    }
}

/// Returns an `if` as a statement.
fn if_of(alloc: Global, branches: If) -> Result<Statement, AllocError>
    ensures { IfOk result (λ s. statement_model s ≡ seen.If (if_model branches).first (if_model branches).others) }
{
    Ok(Statement::If(Box::new(alloc, branches)?))
}

/// Returns a `while` as a statement.
fn while_of(alloc: Global, test: Test) -> Result<Statement, AllocError>
    ensures { IfOk result (λ s. statement_model s ≡ seen.While (test_model test)) }
{
    Ok(Statement::While(Box::new(alloc, test)?))
}

/// Returns what these statements yield, in order. A variable is in scope after its declaration.
#[cycle(statements)]
pub(crate) fn tell_statements<'a>(
    text: &'a [u8],
    around: &Around<'_, '_>,
    locals: &mut Locals<'a>,
    stays: Staying,
    statements: &[tree::Statement],
) -> Result<Vec<Statement>, AllocError>
    ensures { TellsPiece text.now around.now locals.old locals.new
        (λ list. seen.statement_sequence (map statement_model list.items)) result
        (λ p own. statements_told p own (staying_model stays)
        (statement_sequence (map statement_tree statements.now))) }
{
    let mut told = Vec::with_capacity(around.alloc, statements.len())?;
    for statement in statements {
        told.push(tell_statement(text, around, locals, stays, statement)?)?;
    }
    Ok(told)
}

/// Returns what a block yields. What it declares is in scope only there.
#[cycle(statements)]
fn tell_block<'a>(
    text: &'a [u8],
    around: &Around<'_, '_>,
    locals: &mut Locals<'a>,
    stays: Staying,
    block: &tree::Block,
) -> Result<Block, AllocError>
    ensures { TellsPiece text.now around.now locals.old locals.new block_model result
        (λ p own. block_told p own (staying_model stays) (block_tree block.now)) }
{
    let outer = locals.len();
    let last = locals.last();
    let statements = tell_statements(text, around, locals, stays, &block.statements)?;
    let forget = forget_past(block.close.place, last, locals.last());
    locals.leave(outer, last);
    Ok(Block { statements, forget })
}

/// Returns what a condition with its block yields.
#[cycle(statements)]
fn tell_test<'a>(
    text: &'a [u8],
    around: &Around<'_, '_>,
    locals: &mut Locals<'a>,
    stays: Staying,
    test: &tree::Test,
) -> Result<Test, AllocError>
    ensures { TellsPiece text.now around.now locals.old locals.new test_model result
        (λ p own. test_told p own (staying_model stays) (test_tree test.now)) }
{
    let mut reads = Vec::new(around.alloc);
    add_reads(text, locals, &test.test, &mut reads)?;
    let body = tell_block(text, around, locals, stays, &test.body)?;
    Ok(Test {
        place: test.word.place,
        reads,
        ways: ways_of(&test.test),
        body,
    })
}

/// Returns what these conditions yield, each with its block.
#[cycle(statements)]
fn tell_tests<'a>(
    text: &'a [u8],
    around: &Around<'_, '_>,
    locals: &mut Locals<'a>,
    stays: Staying,
    tests: &[tree::Test],
) -> Result<Vec<Test>, AllocError>
    ensures { TellsPiece text.now around.now locals.old locals.new
        (λ list. map test_model list.items) result
        (λ p own. pieces_in_order (test_told p own (staying_model stays))
        (map test_tree tests.now)) }
{
    let mut told = Vec::with_capacity(around.alloc, tests.len())?;
    for test in tests {
        told.push(tell_test(text, around, locals, stays, test)?)?;
    }
    Ok(told)
}

/// Returns what a last block yields, if there is one.
#[cycle(statements)]
fn tell_otherwise<'a>(
    text: &'a [u8],
    around: &Around<'_, '_>,
    locals: &mut Locals<'a>,
    stays: Staying,
    otherwise: &Option<tree::Block>,
) -> Result<Option<Block>, AllocError>
    ensures { TellsPiece text.now around.now locals.old locals.new
        (λ b. seen.last_other (option_map block_model b)) result
        (λ p own. others_told p own (staying_model stays)
        (last_other (option_map block_tree otherwise.now))) }
{
    match otherwise {
        Some(block) => {
            let block = tell_block(text, around, locals, stays, block)?;
            Ok(Some(block))
        }
        None => Ok(None),
    }
}

/// Returns what an `if` yields.
#[cycle(statements)]
fn tell_if<'a>(
    text: &'a [u8],
    around: &Around<'_, '_>,
    locals: &mut Locals<'a>,
    stays: Staying,
    branches: &tree::If,
) -> Result<If, AllocError>
    ensures { TellsPiece text.now around.now locals.old locals.new
        (λ i. seen.If (if_model i).first (if_model i).others) result
        (λ p own f. follow seen.If
        (test_told p own (staying_model stays) (if_tree branches.now).first f)
        (others_told p own (staying_model stays) (if_tree branches.now).others)) }
{
    let first = tell_test(text, around, locals, stays, &branches.first)?;
    let others = tell_tests(text, around, locals, stays, &branches.others)?;
    let otherwise = tell_otherwise(text, around, locals, stays, &branches.otherwise)?;
    Ok(If {
        first,
        others,
        otherwise,
    })
}

/// Returns what the cases of a switch yield.
#[cycle(statements)]
fn tell_cases<'a>(
    text: &'a [u8],
    around: &Around<'_, '_>,
    locals: &mut Locals<'a>,
    stays: Staying,
    switch: &Switch,
) -> Result<Vec<Case>, AllocError>
    ensures { TellsPiece text.now around.now locals.old locals.new
        (λ list. seen.case_sequence (map case_model list.items)) result
        (λ p own. cases_told p own (staying_model stays)
        (MoreCases (switch_tree switch.now).first (case_sequence (switch_tree switch.now).others))
        (switch_tree switch.now).close.place) }
{
    let mut told = Vec::new(around.alloc);
    let mut case = &switch.first;
    for next in &switch.others {
        told.push(tell_case(text, around, locals, stays, next.word.place, case)?)?;
        case = next;
    }
    let last = tell_case(text, around, locals, stays, switch.close.place, case)?;
    told.push(last)?;
    Ok(told)
}

/// Returns what a case yields. `behind` is the place of the token after it. What it binds and declares is in scope only there.
#[cycle(statements)]
fn tell_case<'a>(
    text: &'a [u8],
    around: &Around<'_, '_>,
    locals: &mut Locals<'a>,
    stays: Staying,
    behind: Place,
    case: &tree::Case,
) -> Result<Case, AllocError>
    ensures { TellsPiece text.now around.now locals.old locals.new case_model result
        (λ p own. case_told p own (staying_model stays) behind (case_tree case.now)) }
{
    let kept = locals.len();
    let last = locals.last();
    let endpoint = case_endpoint(text, locals, case.endpoint);
    let meant = awaited_message(text, around, locals, case.endpoint, case.message);
    let params = awaited_params(meant);
    let targets = declare_binds(text, around, locals, params, &case.binds)?;
    let statements = tell_statements(text, around, locals, stays, &case.statements)?;
    let forget = forget_past(behind, last, locals.last());
    locals.leave(kept, last);
    Ok(Case {
        endpoint,
        awaited: awaited_as(case.message, meant),
        targets,
        body: Block { statements, forget },
    })
}
