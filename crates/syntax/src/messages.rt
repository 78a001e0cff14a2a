//! Reads messages.

ghost use Rattle.std.specs.Prelude.{◌≡◌};
ghost use Rattle.tree.specs.Symbols.{kind_is, by_kind};
ghost use Rattle.tree.specs.Spelling.{word, comma, comma_list, parens};
ghost use Rattle.syntax.specs.Reading.{ReadsWord, ReadsOption, ReadsList, Reads, ReadsEnded, listed_on, listed_at};
ghost use Rattle.tree.specs.Grammar.{direction_word, param, message};
ghost use Rattle.syntax.specs.Firsts.{direction_of, opens_message, opens_type};
ghost use Rattle.tree.specs.Trees.{message_tree};

use crate::cursor::{Cursor, Stuck};
use crate::fitted::push;
use crate::types::{is_type, value_type};
use program::Direction;
use source::{Kind, Span};
use std::alloc::Global;
use tree::{Message, MessageParameter};

/// Returns whether a message begins with this token.
pub fn is_message(kind: Option<Kind>) -> bool
    ensures { result ≡ opens_message kind }
{
    direction_of(kind).is_some()
}

/// Returns the direction that this token names, if it names one.
fn direction_of(kind: Option<Kind>) -> Option<Direction>
    ensures { result ≡ direction_of kind }
{
    match kind {
        Some(Kind::In) => Some(Direction::In),
        Some(Kind::Out) => Some(Direction::Out),
        _ => None,
    }
}

/// direction = "in" | "out" .
fn direction(cursor: &mut Cursor<'_>) -> Result<Direction, Stuck>
    ensures { ReadsWord direction_word cursor.old cursor.new result }
{
    let Some(direction) = direction_of(cursor.peek()) else {
        return Err(Stuck::Unexpected);
    };
    cursor.skip();
    Ok(direction)
}

/// message = direction "message" ID params ";" .
pub fn message(alloc: Global, cursor: &mut Cursor<'_>) -> Result<Message, Stuck>
    ensures { ReadsEnded message_tree message cursor.old cursor.new result }
{
    let direction = direction(cursor)?;
    cursor.expect(Kind::Message)?;
    let name = cursor.name()?;
    let (open, params) = params(alloc, cursor)?;
    cursor.expect(Kind::Semicolon)?;
    Ok(Message {
        direction,
        name,
        open,
        params,
    })
}

/// params = "(" [ param { "," param } ] ")" .
fn params(alloc: Global, cursor: &mut Cursor<'_>) -> Result<(Span, Vec<MessageParameter>), Stuck>
    ensures { ReadsEnded (λ p. (p.0, p.1.items)) (parens (comma_list param)) cursor.old cursor.new result }
{
    let left = cursor.expect_span(Kind::OpenParen)?;
    let all = param_list(alloc, cursor)?;
    cursor.expect(Kind::CloseParen)?;
    Ok((left, all))
}

/// [ param { "," param } ]
fn param_list(alloc: Global, cursor: &mut Cursor<'_>) -> Result<Vec<MessageParameter>, Stuck>
    ensures { Reads (λ v. v.items) (comma_list param) (listed_on (by_kind opens_type)) (listed_at (by_kind opens_type))
        cursor.old cursor.new result }
{
    let mut all = Vec::new(alloc);
    if !is_type(cursor.peek()) {
        return Ok(all);
    }
    push(&mut all, param(cursor)?)?;
    'more: while cursor.is_next(Kind::Comma) {
        push(&mut all, comma_param(cursor)?)?;
    }
    Ok(all)
}

/// "," param
fn comma_param(cursor: &mut Cursor<'_>) -> Result<MessageParameter, Stuck>
    ensures { ReadsEnded (λ x. x) (comma param) cursor.old cursor.new result }
{
    cursor.expect(Kind::Comma)?;
    Ok(param(cursor)?)
}

/// param = type ID .
fn param(cursor: &mut Cursor<'_>) -> Result<MessageParameter, Stuck>
    ensures { ReadsEnded (λ x. x) param cursor.old cursor.new result }
{
    let ty = value_type(cursor)?;
    let name = cursor.name()?;
    Ok(MessageParameter { ty, name })
}
