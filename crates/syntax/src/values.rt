//! Reads values and calls.

ghost use Rattle.std.specs.Prelude.{◌≡◌, ◌++◌, map};
ghost use Rattle.source.specs.declared.kind.Kind.{Kind};
ghost use Rattle.tree.specs.Symbols.{kind_at};
ghost use Rattle.tree.specs.Spelling.{name, comma, comma_list, parens, optional};
ghost use Rattle.syntax.specs.Reading.{Stops, Reads, ReadsEnded};
ghost use Rattle.tree.specs.Expressions.{expression, target, dot_name};
ghost use Rattle.syntax.specs.ExpressionReads.{expression_on, expression_at, target_at};
ghost use Rattle.tree.specs.ExpressionTrees.{expression_tree, target_tree};
ghost use Rattle.tree.specs.Values.{arguments, call_tree, call, made_tree, made_spelling, made_struct};
ghost use Rattle.tree.specs.Values.{made_array, new_tree, new_spelling, value_tree, value_spelling};
ghost use Rattle.syntax.specs.ValueReads.{expressions_on, expressions_at, value_on, value_at, opens_value};

use crate::cursor::{Cursor, Stuck};
use crate::expressions::{
    dot_name, expression_from, is_expression, read_expression, read_index, target_from,
};
use crate::fitted::{push, shrink};
use crate::types::scalar;
use program::Scalar;
use source::{Kind, Span};
use std::alloc::Global;
use tree::{Atom, Call, Expression, FieldTarget, Made, New, Target, Unary, Value};

/// Returns whether a value begins with this token.
pub fn is_value(kind: Option<Kind>) -> bool
    ensures { result ≡ opens_value kind }
{
    is_expression(kind) || kind == Some(Kind::New)
}

/// value = new | expression | call .
pub fn read_value(alloc: Global, cursor: &mut Cursor<'_>) -> Result<Value, Stuck>
    ensures { Reads value_tree value_spelling value_on value_at cursor.old cursor.new result }
{
    if cursor.is_next(Kind::New) {
        Ok(Value::New(Box::new(alloc, read_new(alloc, cursor)?)?))
    } else if cursor.is_next(Kind::Name) {
        let variable = cursor.skip();
        named_value(alloc, cursor, variable)
    } else {
        Ok(Value::Expression(read_expression(alloc, cursor)?))
    }
}

/// Reads the rest of a value that begins with this name.
fn named_value(alloc: Global, cursor: &mut Cursor<'_>, variable: Span) -> Result<Value, Stuck>
    ensures { Reads value_tree value_spelling value_on value_at (name variable ++ cursor.old) cursor.new result }
{
    if cursor.is_next(Kind::OpenParen) {
        let call = call_from(alloc, cursor, variable, None)?;
        Ok(Value::Call(Box::new(alloc, call)?))
    } else if cursor.is_next(Kind::Dot) {
        let member = dot_name(cursor)?;
        member_value(alloc, cursor, variable, member)
    } else {
        let first = target_from(alloc, cursor, variable)?;
        Ok(Value::Expression(expression_of(alloc, cursor, first)?))
    }
}

/// Reads the rest of a value that begins with these two names.
fn member_value(
    alloc: Global,
    cursor: &mut Cursor<'_>,
    variable: Span,
    member: Span,
) -> Result<Value, Stuck>
    ensures { Reads value_tree value_spelling value_on value_at (name variable ++ (dot_name member ++ cursor.old)) cursor.new result }
{
    if cursor.is_next(Kind::OpenParen) {
        let call = call_from(alloc, cursor, variable, Some(member))?;
        Ok(Value::Call(Box::new(alloc, call)?))
    } else {
        let field = FieldTarget {
            variable,
            field: member,
        };
        let first = Target::Field(Box::new(alloc, field)?);
        Ok(Value::Expression(expression_of(alloc, cursor, first)?))
    }
}

/// Reads the rest of an expression that begins with this target.
pub fn expression_of(
    alloc: Global,
    cursor: &mut Cursor<'_>,
    first: Target,
) -> Result<Expression, Stuck>
    requires { Stops (target_at (target_tree first)) cursor.old }
    ensures { Reads expression_tree expression expression_on expression_at (target (target_tree first) ++ cursor.old) cursor.new result }
{
    expression_from(alloc, cursor, Unary::Atom(Atom::Target(first)))
}

/// call = ID [ "." ID ] arguments , given its names.
pub fn call_from(
    alloc: Global,
    cursor: &mut Cursor<'_>,
    callee: Span,
    member: Option<Span>,
) -> Result<Call, Stuck>
    requires { kind_at cursor.old ≡ Some Kind.OpenParen }
    ensures { ReadsEnded call_tree call (name callee ++ (optional dot_name member ++ cursor.old)) cursor.new result }
{
    let (open, arguments) = read_arguments(alloc, cursor)?;
    Ok(Call {
        name: callee,
        member,
        open,
        arguments,
    })
}

/// new = "new" "[" "ExHeap" "]" made .
fn read_new(alloc: Global, cursor: &mut Cursor<'_>) -> Result<New, Stuck>
    ensures { ReadsEnded new_tree new_spelling cursor.old cursor.new result }
{
    let word = cursor.expect_span(Kind::New)?;
    cursor.expect(Kind::OpenBracket)?;
    cursor.expect(Kind::ExHeap)?;
    cursor.expect(Kind::CloseBracket)?;
    let made = made(alloc, cursor)?;
    Ok(New { word, made })
}

/// made = made_struct | made_array .
fn made(alloc: Global, cursor: &mut Cursor<'_>) -> Result<Made, Stuck>
    ensures { ReadsEnded made_tree made_spelling cursor.old cursor.new result }
{
    if cursor.is_next(Kind::Name) {
        let (name, open, arguments) = made_struct(alloc, cursor)?;
        Ok(Made::Struct {
            name,
            open,
            arguments,
        })
    } else {
        let (element, length) = made_array(alloc, cursor)?;
        let length = Box::new(alloc, length)?;
        Ok(Made::Array { element, length })
    }
}

/// made_struct = ID arguments .
fn made_struct(
    alloc: Global,
    cursor: &mut Cursor<'_>,
) -> Result<(Span, Span, Vec<Expression>), Stuck>
    ensures { ReadsEnded (λ p. (p.0, p.1, map expression_tree p.2.items)) made_struct cursor.old cursor.new result }
{
    let name = cursor.name()?;
    let (open, arguments) = read_arguments(alloc, cursor)?;
    Ok((name, open, arguments))
}

/// made_array = scalar "[" expression "]" .
fn made_array(alloc: Global, cursor: &mut Cursor<'_>) -> Result<(Scalar, Expression), Stuck>
    ensures { ReadsEnded (λ p. (p.0, expression_tree p.1)) made_array cursor.old cursor.new result }
{
    let element = scalar(cursor)?;
    let length = read_index(alloc, cursor)?;
    Ok((element, length))
}

/// arguments = "(" [ expression { "," expression } ] ")" .
pub fn read_arguments(
    alloc: Global,
    cursor: &mut Cursor<'_>,
) -> Result<(Span, Vec<Expression>), Stuck>
    ensures { ReadsEnded (λ p. (p.0, map expression_tree p.1.items)) arguments cursor.old cursor.new result }
{
    let left = cursor.expect_span(Kind::OpenParen)?;
    let all = expression_list(alloc, cursor)?;
    cursor.expect(Kind::CloseParen)?;
    Ok((left, all))
}

/// [ expression { "," expression } ]
fn expression_list(alloc: Global, cursor: &mut Cursor<'_>) -> Result<Vec<Expression>, Stuck>
    ensures { Reads (λ v. map expression_tree v.items) (comma_list expression) expressions_on expressions_at
        cursor.old cursor.new result }
{
    let mut all = Vec::new(alloc);
    if !is_expression(cursor.peek()) {
        return Ok(all);
    }
    push(&mut all, read_expression(alloc, cursor)?)?;
    'more: while cursor.is_next(Kind::Comma) {
        push(&mut all, comma_expression(alloc, cursor)?)?;
    }
    Ok(shrink(all))
}

/// "," expression
fn comma_expression(alloc: Global, cursor: &mut Cursor<'_>) -> Result<Expression, Stuck>
    ensures { Reads expression_tree (comma expression) expression_on expression_at cursor.old cursor.new result }
{
    cursor.expect(Kind::Comma)?;
    Ok(read_expression(alloc, cursor)?)
}
