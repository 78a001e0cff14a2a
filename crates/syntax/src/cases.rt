//! Reads the part of a case before its statements.

ghost use Rattle.std.specs.Prelude.{◌≡◌};
ghost use Rattle.tree.specs.Spelling.{comma, comma_list, parens};
ghost use Rattle.syntax.specs.Reading.{Reads, ReadsEnded, ReadsOption};
ghost use Rattle.tree.specs.StatementGrammar.{awaited, bind};
ghost use Rattle.syntax.specs.StatementParts.{case_front, case_front_tree, typed, of_typed};
ghost use Rattle.syntax.specs.StatementParts.{opens_tail, bind_on, bind_at, binds_on, binds_at};

use crate::cursor::{Cursor, Stuck};
use crate::fitted::{push, shrink};
use crate::fronts::{NamedTail, NamedType};
use crate::types::{is_type, named_tail, scalar_type};
use source::{Kind, Span};
use std::alloc::Global;
use tree::{Awaited, Bind, Type};

/// The part of a case before its statements.
#[derive(Drop)]
pub struct CaseFront {
    pub word: Span,
    pub endpoint: Span,
    pub message: Awaited,
    pub open: Span,
    pub binds: Vec<Bind>,
}

/// case_front = "case" ID "." awaited binds ":" .
pub fn case_front(alloc: Global, cursor: &mut Cursor<'_>) -> Result<CaseFront, Stuck>
    ensures { ReadsEnded case_front_tree case_front cursor.old cursor.new result }
{
    let word = cursor.expect_span(Kind::Case)?;
    let endpoint = cursor.name()?;
    cursor.expect(Kind::Dot)?;
    let message = awaited(cursor)?;
    let (open, binds) = binds(alloc, cursor)?;
    cursor.expect(Kind::Colon)?;
    Ok(CaseFront {
        word,
        endpoint,
        message,
        open,
        binds,
    })
}

/// awaited = ID | "ChannelClosed" .
fn awaited(cursor: &mut Cursor<'_>) -> Result<Awaited, Stuck>
    ensures { ReadsEnded (λ x. x) awaited cursor.old cursor.new result }
{
    if cursor.is_next(Kind::Name) {
        Ok(Awaited::Message(cursor.name()?))
    } else {
        Ok(Awaited::Closed(cursor.expect_span(Kind::ChannelClosed)?))
    }
}

/// binds = "(" [ bind { "," bind } ] ")" .
fn binds(alloc: Global, cursor: &mut Cursor<'_>) -> Result<(Span, Vec<Bind>), Stuck>
    ensures { ReadsEnded (λ p. (p.0, p.1.items)) (parens (comma_list bind)) cursor.old cursor.new result }
{
    let left = cursor.expect_span(Kind::OpenParen)?;
    let all = bind_list(alloc, cursor)?;
    cursor.expect(Kind::CloseParen)?;
    Ok((left, all))
}

/// [ bind { "," bind } ]
fn bind_list(alloc: Global, cursor: &mut Cursor<'_>) -> Result<Vec<Bind>, Stuck>
    ensures { Reads (λ v. v.items) (comma_list bind) binds_on binds_at cursor.old cursor.new result }
{
    let mut all = Vec::new(alloc);
    if !is_type(cursor.peek()) {
        return Ok(all);
    }
    push(&mut all, bind(cursor)?)?;
    'more: while cursor.is_next(Kind::Comma) {
        push(&mut all, comma_bind(cursor)?)?;
    }
    Ok(shrink(all))
}

/// "," bind
fn comma_bind(cursor: &mut Cursor<'_>) -> Result<Bind, Stuck>
    ensures { Reads (λ x. x) (comma bind) bind_on bind_at cursor.old cursor.new result }
{
    cursor.expect(Kind::Comma)?;
    Ok(bind(cursor)?)
}

/// bind = named_bind | scalar_type ID .
fn bind(cursor: &mut Cursor<'_>) -> Result<Bind, Stuck>
    ensures { Reads (λ x. x) bind bind_on bind_at cursor.old cursor.new result }
{
    if cursor.is_next(Kind::Name) {
        let first = cursor.name()?;
        let behind = maybe_typed(cursor)?;
        Ok(bind_of(first, behind))
    } else {
        let ty = Type::from(scalar_type(cursor)?);
        let name = cursor.name()?;
        Ok(Bind { ty: Some(ty), name })
    }
}

/// Returns the bind that a name and what follows it form.
fn bind_of(first: Span, behind: Option<(NamedTail, Span)>) -> Bind
    ensures { result ≡ of_typed first behind }
{
    match behind {
        Some((tail, name)) => Bind {
            ty: Some(Type::from(NamedType { name: first, tail })),
            name,
        },
        None => Bind {
            ty: None,
            name: first,
        },
    }
}

/// Returns whether the part of a type after its name begins with this token.
fn is_tail(kind: Option<Kind>) -> bool
    ensures { result ≡ opens_tail kind }
{
    matches!(kind, Some(Kind::Star | Kind::Dot))
}

/// [ typed ]
fn maybe_typed(cursor: &mut Cursor<'_>) -> Result<Option<(NamedTail, Span)>, Stuck>
    ensures { ReadsOption typed opens_tail cursor.old cursor.new result }
{
    if is_tail(cursor.peek()) {
        Ok(Some(typed(cursor)?))
    } else {
        Ok(None)
    }
}

/// typed = named_tail ID .
fn typed(cursor: &mut Cursor<'_>) -> Result<(NamedTail, Span), Stuck>
    ensures { ReadsEnded (λ x. x) typed cursor.old cursor.new result }
{
    let tail = named_tail(cursor)?;
    let name = cursor.name()?;
    Ok((tail, name))
}
