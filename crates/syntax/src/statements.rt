//! Reads statements.

ghost use Rattle.std.specs.Prelude.{◌≡◌, true, map};
ghost use Rattle.std.specs.List.{flat_map};
ghost use Rattle.tree.specs.Symbols.{is_placed, kind_at};
ghost use Rattle.syntax.specs.Reading.{Reads, ReadsEnded};
ghost use Rattle.tree.specs.StatementTrees.{statement_tree, block_tree, case_tree, if_tree, switch_tree, test_tree};
ghost use Rattle.tree.specs.StatementGrammar.{statement, block, test, case};
ghost use Rattle.syntax.specs.StatementFirsts.{lead_of, statement_on, statement_at, statements_on};
ghost use Rattle.syntax.specs.StatementFirsts.{statements_at, case_at, cases_on, cases_at};
ghost use Rattle.syntax.specs.StatementParts.{if_parts, if_at, switch_parts};

use crate::cases::case_front;
use crate::cursor::{Cursor, Stuck};
use crate::expressions::read_parens;
use crate::fitted::{push, shrink};
use crate::leads::{Lead, lead_of};
use crate::plain::plain;
use source::Kind;
use std::alloc::Global;
use tree::{Block, Case, If, Statement, Switch, Test};

/// { statement }
#[cycle(statement)]
fn statements(alloc: Global, cursor: &mut Cursor<'_>) -> Result<Vec<Statement>, Stuck>
    ensures { Reads (λ v. map statement_tree v.items) (flat_map statement) statements_on statements_at
        cursor.old cursor.new result }
{
    let mut all = Vec::new(alloc);
    'each: while let Some(lead) = lead_of(cursor.peek()) {
        push(&mut all, statement(alloc, cursor, lead)?)?;
    }
    Ok(shrink(all))
}

/// statement = block | plain | if | "while" test | switch .
#[cycle(statement)]
fn statement(alloc: Global, cursor: &mut Cursor<'_>, lead: Lead) -> Result<Statement, Stuck>
    requires { lead_of (kind_at cursor.old) ≡ Some lead }
    ensures { Reads statement_tree statement statement_on statement_at cursor.old cursor.new result }
{
    match lead {
        Lead::Block => Ok(Statement::Block(block(alloc, cursor)?)),
        Lead::If => Ok(Statement::If(Box::new(alloc, if_statement(alloc, cursor)?)?)),
        Lead::While => {
            let test = test(alloc, cursor, Kind::While)?;
            Ok(Statement::While(Box::new(alloc, test)?))
        }
        Lead::Switch => Ok(Statement::Switch(Box::new(alloc, switch(alloc, cursor)?)?)),
        Lead::Plain(lead) => Ok(Statement::Plain(plain(alloc, cursor, lead)?)),
    }
}

/// block = "{" { statement } "}" .
#[cycle(statement)]
pub fn block(alloc: Global, cursor: &mut Cursor<'_>) -> Result<Block, Stuck>
    ensures { ReadsEnded block_tree block cursor.old cursor.new result }
{
    cursor.expect(Kind::OpenBrace)?;
    let statements = statements(alloc, cursor)?;
    let close = cursor.expect_span(Kind::CloseBrace)?;
    Ok(Block { statements, close })
}

/// test = word "(" expression ")" block .
#[cycle(statement)]
fn test(alloc: Global, cursor: &mut Cursor<'_>, kind: Kind) -> Result<Test, Stuck>
    requires { is_placed kind ≡ true }
    ensures { ReadsEnded test_tree (test kind) cursor.old cursor.new result }
{
    let word = cursor.expect_span(kind)?;
    let (open, test) = read_parens(alloc, cursor)?;
    let body = block(alloc, cursor)?;
    Ok(Test {
        word,
        open,
        test,
        body,
    })
}

/// if = "if" test { "else" "if" test } [ "else" block ] .
#[cycle(statement)]
fn if_statement(alloc: Global, cursor: &mut Cursor<'_>) -> Result<If, Stuck>
    ensures { Reads if_tree if_parts statement_on if_at cursor.old cursor.new result }
{
    let first = test(alloc, cursor, Kind::If)?;
    let mut others = Vec::new(alloc);
    'more: while cursor.take_if(Kind::Else) {
        if !cursor.is_next(Kind::If) {
            let otherwise = Some(block(alloc, cursor)?);
            return Ok(If {
                first,
                others,
                otherwise,
            });
        }
        push(&mut others, test(alloc, cursor, Kind::If)?)?;
    }
    Ok(If {
        first,
        others,
        otherwise: None,
    })
}

/// switch = "switch" "receive" "{" case { case } "}" .
#[cycle(statement)]
fn switch(alloc: Global, cursor: &mut Cursor<'_>) -> Result<Switch, Stuck>
    ensures { ReadsEnded switch_tree switch_parts cursor.old cursor.new result }
{
    let word = cursor.expect_span(Kind::Switch)?;
    cursor.expect(Kind::Receive)?;
    cursor.expect(Kind::OpenBrace)?;
    let first = case(alloc, cursor)?;
    let others = cases(alloc, cursor)?;
    let close = cursor.expect_span(Kind::CloseBrace)?;
    Ok(Switch {
        word,
        first,
        others,
        close,
    })
}

/// { case }
#[cycle(statement)]
fn cases(alloc: Global, cursor: &mut Cursor<'_>) -> Result<Vec<Case>, Stuck>
    ensures { Reads (λ v. map case_tree v.items) (flat_map case) cases_on cases_at cursor.old cursor.new result }
{
    let mut all = Vec::new(alloc);
    'each: while cursor.is_next(Kind::Case) {
        push(&mut all, case(alloc, cursor)?)?;
    }
    Ok(shrink(all))
}

/// case = case_front { statement } .
#[cycle(statement)]
fn case(alloc: Global, cursor: &mut Cursor<'_>) -> Result<Case, Stuck>
    ensures { Reads case_tree case statements_on case_at cursor.old cursor.new result }
{
    let front = case_front(alloc, cursor)?;
    let statements = statements(alloc, cursor)?;
    Ok(Case {
        word: front.word,
        endpoint: front.endpoint,
        message: front.message,
        open: front.open,
        binds: front.binds,
        statements,
    })
}
