//! Reads classes.

ghost use Rattle.std.specs.Prelude.{◌≡◌, map};
ghost use Rattle.std.specs.List.{flat_map};
ghost use Rattle.tree.specs.Symbols.{is_kind, by_kind};
ghost use Rattle.tree.specs.Spelling.{when, comma, comma_list, in_braces, parens};
ghost use Rattle.syntax.specs.Reading.{Reads, ReadsEnded, ReadsList, when_at, listed_on, listed_at};
ghost use Rattle.syntax.specs.Firsts.{opens_parameter, opens_method};
ghost use Rattle.syntax.specs.Types.{type_on};
ghost use Rattle.tree.specs.Trees.{method_tree, class_tree};
ghost use Rattle.tree.specs.Programs.{result_type, claims_words, parameter, method, class};
ghost use Rattle.syntax.specs.ClassParts.{result_at};

use crate::access::access;
use crate::cursor::{Cursor, Stuck};
use crate::fitted::{push, shrink};
use crate::statements::block;
use crate::types::value_type;
use source::{Kind, Span};
use std::alloc::Global;
use tree::{Class, Method, Parameter, Type};

/// class = "class" ID methods .
pub fn class(alloc: Global, cursor: &mut Cursor<'_>) -> Result<Class, Stuck>
    ensures { ReadsEnded class_tree class cursor.old cursor.new result }
{
    cursor.expect(Kind::Class)?;
    let name = cursor.name()?;
    let (methods, close) = methods(alloc, cursor)?;
    Ok(Class {
        name,
        methods,
        close,
    })
}

/// methods = "{" { method } "}" .
fn methods(alloc: Global, cursor: &mut Cursor<'_>) -> Result<(Vec<Method>, Span), Stuck>
    ensures { ReadsEnded (λ p. (map method_tree p.0.items, p.1)) (in_braces (flat_map method))
        cursor.old cursor.new result }
{
    cursor.expect(Kind::OpenBrace)?;
    let all = method_list(alloc, cursor)?;
    let close = cursor.expect_span(Kind::CloseBrace)?;
    Ok((all, close))
}

/// Returns whether a method begins with this token.
fn is_method(kind: Option<Kind>) -> bool
    ensures { result ≡ opens_method kind }
{
    matches!(
        kind,
        Some(Kind::Public | Kind::Private | Kind::Internal | Kind::Static)
    )
}

/// { method }
fn method_list(alloc: Global, cursor: &mut Cursor<'_>) -> Result<Vec<Method>, Stuck>
    ensures { ReadsList method_tree method opens_method cursor.old cursor.new result }
{
    let mut all = Vec::new(alloc);
    'each: while is_method(cursor.peek()) {
        push(&mut all, method(alloc, cursor)?)?;
    }
    Ok(all)
}

/// method = [ access ] "static" result ID parameters block .
fn method(alloc: Global, cursor: &mut Cursor<'_>) -> Result<Method, Stuck>
    ensures { ReadsEnded method_tree method cursor.old cursor.new result }
{
    let access = access(cursor);
    cursor.expect(Kind::Static)?;
    let result = result_type(cursor)?;
    let name = cursor.name()?;
    let (open, params) = parameters(alloc, cursor)?;
    let body = block(alloc, cursor)?;
    Ok(Method {
        access,
        result,
        name,
        open,
        params,
        body,
    })
}

/// result = "void" | type .
fn result_type(cursor: &mut Cursor<'_>) -> Result<Option<Type>, Stuck>
    ensures { Reads (λ x. x) result_type type_on result_at cursor.old cursor.new result }
{
    if cursor.is_next(Kind::Void) {
        cursor.expect(Kind::Void)?;
        Ok(None)
    } else {
        Ok(Some(value_type(cursor)?))
    }
}

/// parameters = "(" [ parameter { "," parameter } ] ")" .
fn parameters(alloc: Global, cursor: &mut Cursor<'_>) -> Result<(Span, Vec<Parameter>), Stuck>
    ensures { ReadsEnded (λ p. (p.0, p.1.items)) (parens (comma_list parameter)) cursor.old cursor.new result }
{
    let left = cursor.expect_span(Kind::OpenParen)?;
    let all = parameter_list(alloc, cursor)?;
    cursor.expect(Kind::CloseParen)?;
    Ok((left, all))
}

/// Returns whether a parameter begins with this token.
fn is_parameter(kind: Option<Kind>) -> bool
    ensures { result ≡ opens_parameter kind }
{
    matches!(
        kind,
        Some(Kind::OpenBracket | Kind::Int | Kind::Bool | Kind::Byte | Kind::Name)
    )
}

/// [ parameter { "," parameter } ]
fn parameter_list(alloc: Global, cursor: &mut Cursor<'_>) -> Result<Vec<Parameter>, Stuck>
    ensures { Reads (λ v. v.items) (comma_list parameter) (listed_on (by_kind opens_parameter))
        (listed_at (by_kind opens_parameter)) cursor.old cursor.new result }
{
    let mut all = Vec::new(alloc);
    if !is_parameter(cursor.peek()) {
        return Ok(all);
    }
    push(&mut all, parameter(cursor)?)?;
    'more: while cursor.is_next(Kind::Comma) {
        push(&mut all, comma_parameter(cursor)?)?;
    }
    Ok(shrink(all))
}

/// "," parameter
fn comma_parameter(cursor: &mut Cursor<'_>) -> Result<Parameter, Stuck>
    ensures { ReadsEnded (λ x. x) (comma parameter) cursor.old cursor.new result }
{
    cursor.expect(Kind::Comma)?;
    Ok(parameter(cursor)?)
}

/// parameter = [ claims ] type ID .
fn parameter(cursor: &mut Cursor<'_>) -> Result<Parameter, Stuck>
    ensures { ReadsEnded (λ x. x) parameter cursor.old cursor.new result }
{
    let claims = maybe_claims(cursor)?;
    let ty = value_type(cursor)?;
    let name = cursor.name()?;
    Ok(Parameter { claims, ty, name })
}

/// [ claims ]
fn maybe_claims(cursor: &mut Cursor<'_>) -> Result<bool, Stuck>
    ensures { Reads (λ x. x) (when claims_words) (is_kind Kind.OpenBracket) (when_at (is_kind Kind.OpenBracket))
        cursor.old cursor.new result }
{
    if cursor.is_next(Kind::OpenBracket) {
        claims(cursor)?;
        Ok(true)
    } else {
        Ok(false)
    }
}

/// claims = "[" "Claims" "]" .
fn claims(cursor: &mut Cursor<'_>) -> Result<(), Stuck>
    ensures { ReadsEnded (λ x. x) (λ _. claims_words) cursor.old cursor.new result }
{
    cursor.expect(Kind::OpenBracket)?;
    cursor.expect(Kind::Claims)?;
    cursor.expect(Kind::CloseBracket)?;
    Ok(())
}
