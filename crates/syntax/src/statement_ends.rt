//! Reads parts of statements that contain no other.

ghost use Rattle.std.specs.Prelude.{◌≡◌, true};
ghost use Rattle.std.specs.Option.{option_map};
ghost use Rattle.tree.specs.Symbols.{is_placed, kind_is, is_kind, by_kind};
ghost use Rattle.tree.specs.Spelling.{optional};
ghost use Rattle.syntax.specs.Reading.{Reads, ReadsEnded, ReadsOption, optional_at};
ghost use Rattle.tree.specs.Expressions.{expression, dot_name};
ghost use Rattle.syntax.specs.ExpressionReads.{opens_expression, expression_at};
ghost use Rattle.tree.specs.ExpressionTrees.{expression_tree};
ghost use Rattle.tree.specs.Values.{value_tree, call_tree, call};
ghost use Rattle.syntax.specs.ValueReads.{value_on, value_at};
ghost use Rattle.tree.specs.StatementGrammar.{init, exchange};
ghost use Rattle.syntax.specs.StatementParts.{init_on, result_on, declared, assigned, called, called_tree};
ghost use Rattle.syntax.specs.StatementParts.{channel_ends, jump, start, return_parts};

use crate::cursor::{Cursor, Stuck};
use crate::expressions::{dot_name, is_expression, read_expression};
use crate::values::{read_arguments, read_value};
use source::{Kind, Span};
use std::alloc::Global;
use tree::{Call, Exchange, Expression, Value};

/// declared = ID [ init ] ";" .
pub fn declared(alloc: Global, cursor: &mut Cursor<'_>) -> Result<(Span, Option<Value>), Stuck>
    ensures { ReadsEnded (λ p. (p.0, option_map value_tree p.1)) declared cursor.old cursor.new result }
{
    let name = cursor.name()?;
    let value = maybe_init(alloc, cursor)?;
    cursor.expect(Kind::Semicolon)?;
    Ok((name, value))
}

/// [ init ]
fn maybe_init(alloc: Global, cursor: &mut Cursor<'_>) -> Result<Option<Value>, Stuck>
    ensures { Reads (option_map value_tree) (optional init) init_on (optional_at (is_kind Kind.Equal) value_at)
        cursor.old cursor.new result }
{
    if cursor.is_next(Kind::Equal) {
        Ok(Some(init(alloc, cursor)?))
    } else {
        Ok(None)
    }
}

/// init = "=" value .
fn init(alloc: Global, cursor: &mut Cursor<'_>) -> Result<Value, Stuck>
    ensures { Reads value_tree init value_on value_at cursor.old cursor.new result }
{
    cursor.expect(Kind::Equal)?;
    Ok(read_value(alloc, cursor)?)
}

/// assigned = "=" value ";" .
pub fn assigned(alloc: Global, cursor: &mut Cursor<'_>) -> Result<Value, Stuck>
    ensures { ReadsEnded value_tree assigned cursor.old cursor.new result }
{
    cursor.expect(Kind::Equal)?;
    let value = read_value(alloc, cursor)?;
    cursor.expect(Kind::Semicolon)?;
    Ok(value)
}

/// called = "(" [ expression { "," expression } ] ")" ";" .
pub fn called(alloc: Global, cursor: &mut Cursor<'_>) -> Result<(Span, Vec<Expression>), Stuck>
    ensures { ReadsEnded called_tree called cursor.old cursor.new result }
{
    let arguments = read_arguments(alloc, cursor)?;
    cursor.expect(Kind::Semicolon)?;
    Ok(arguments)
}

/// The part of a `NewChannel` statement after the contract's name and the dot.
#[derive(Clone, Copy)]
pub struct ChannelEnds {
    pub word: Span,
    pub open: Span,
    pub first: Span,
    pub second: Span,
}

/// channel_ends = "NewChannel" "(" "out" ID "," "out" ID ")" ";" .
pub fn channel_ends(cursor: &mut Cursor<'_>) -> Result<ChannelEnds, Stuck>
    ensures { ReadsEnded (λ x. x) channel_ends cursor.old cursor.new result }
{
    let word = cursor.expect_span(Kind::NewChannel)?;
    let open = cursor.expect_span(Kind::OpenParen)?;
    cursor.expect(Kind::Out)?;
    let first = cursor.name()?;
    cursor.expect(Kind::Comma)?;
    cursor.expect(Kind::Out)?;
    let second = cursor.name()?;
    cursor.expect(Kind::CloseParen)?;
    cursor.expect(Kind::Semicolon)?;
    Ok(ChannelEnds {
        word,
        open,
        first,
        second,
    })
}

/// jump = word ";" .
pub fn jump(cursor: &mut Cursor<'_>, kind: Kind) -> Result<Span, Stuck>
    requires { is_placed kind ≡ true }
    ensures { ReadsEnded (λ x. x) (jump kind) cursor.old cursor.new result }
{
    let word = cursor.expect_span(kind)?;
    cursor.expect(Kind::Semicolon)?;
    Ok(word)
}

/// exchange = "exchange" "(" ID "." ID "," ID ")" ";" .
pub fn exchange(cursor: &mut Cursor<'_>) -> Result<Exchange, Stuck>
    ensures { ReadsEnded (λ x. x) exchange cursor.old cursor.new result }
{
    let word = cursor.expect_span(Kind::Exchange)?;
    let open = cursor.expect_span(Kind::OpenParen)?;
    let holder = cursor.name()?;
    cursor.expect(Kind::Dot)?;
    let field = cursor.name()?;
    cursor.expect(Kind::Comma)?;
    let given = cursor.name()?;
    cursor.expect(Kind::CloseParen)?;
    cursor.expect(Kind::Semicolon)?;
    Ok(Exchange {
        word,
        open,
        holder,
        field,
        given,
    })
}

/// start = "start" call ";" .
pub fn start(alloc: Global, cursor: &mut Cursor<'_>) -> Result<(Span, Call), Stuck>
    ensures { ReadsEnded (λ p. (p.0, call_tree p.1)) start cursor.old cursor.new result }
{
    let word = cursor.expect_span(Kind::Start)?;
    let call = call(alloc, cursor)?;
    cursor.expect(Kind::Semicolon)?;
    Ok((word, call))
}

/// call = ID [ dot_name ] arguments .
fn call(alloc: Global, cursor: &mut Cursor<'_>) -> Result<Call, Stuck>
    ensures { ReadsEnded call_tree call cursor.old cursor.new result }
{
    let name = cursor.name()?;
    let member = maybe_dot_name(cursor)?;
    let (open, arguments) = read_arguments(alloc, cursor)?;
    Ok(Call {
        name,
        member,
        open,
        arguments,
    })
}

/// [ dot_name ]
fn maybe_dot_name(cursor: &mut Cursor<'_>) -> Result<Option<Span>, Stuck>
    ensures { ReadsOption dot_name (kind_is Kind.Dot) cursor.old cursor.new result }
{
    if cursor.is_next(Kind::Dot) {
        Ok(Some(dot_name(cursor)?))
    } else {
        Ok(None)
    }
}

/// return = "return" [ expression ] ";" .
pub fn return_statement(
    alloc: Global,
    cursor: &mut Cursor<'_>,
) -> Result<(Span, Option<Box<Expression>>), Stuck>
    ensures { ReadsEnded (λ p. (p.0, option_map (λ e. expression_tree e.value) p.1)) return_parts cursor.old cursor.new result }
{
    let word = cursor.expect_span(Kind::Return)?;
    let value = maybe_expression(alloc, cursor)?;
    cursor.expect(Kind::Semicolon)?;
    Ok((word, value))
}

/// [ expression ]
fn maybe_expression(
    alloc: Global,
    cursor: &mut Cursor<'_>,
) -> Result<Option<Box<Expression>>, Stuck>
    ensures { Reads (option_map (λ e. expression_tree e.value)) (optional expression) result_on
        (optional_at (by_kind opens_expression) expression_at) cursor.old cursor.new result }
{
    if is_expression(cursor.peek()) {
        Ok(Some(Box::new(alloc, read_expression(alloc, cursor)?)?))
    } else {
        Ok(None)
    }
}
