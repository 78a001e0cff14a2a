//! Reads types.

ghost use Rattle.std.specs.Prelude.{◌≡◌};
ghost use Rattle.tree.specs.Symbols.{kind_is, is_kind};
ghost use Rattle.tree.specs.Spelling.{word, optional, when};
ghost use Rattle.syntax.specs.Reading.{ReadsWord, ReadsOption, ReadsList, never, Reads, ReadsEnded, optional_at, when_at};
ghost use Rattle.tree.specs.Grammar.{scalar_word, side_word, in_heap_words, colon_name, value_type};
ghost use Rattle.syntax.specs.Firsts.{scalar_of, side_of, opens_side, opens_type};
ghost use Rattle.syntax.specs.Types.{bang_in_heap, array_tail, scalar_type, scalar_at, pointer_tail, endpoint_end, endpoint_tail};
ghost use Rattle.syntax.specs.Types.{endpoint_on, endpoint_at, named_tail, tail_at, named_type, named_at, type_on, type_at};

use crate::cursor::{Cursor, Stuck};
use crate::fronts::{EndpointTail, NamedTail, NamedType, ScalarType};
use program::{Scalar, Side};
use source::{Kind, Span};
use tree::Type;

/// Returns whether a type begins with this token.
pub fn is_type(kind: Option<Kind>) -> bool
    ensures { result ≡ opens_type kind }
{
    matches!(kind, Some(Kind::Int | Kind::Bool | Kind::Byte | Kind::Name))
}

/// type = named_type | scalar_type .
pub fn value_type(cursor: &mut Cursor<'_>) -> Result<Type, Stuck>
    ensures { Reads (λ x. x) value_type type_on type_at cursor.old cursor.new result }
{
    if cursor.is_next(Kind::Name) {
        Ok(Type::from(named_type(cursor)?))
    } else {
        Ok(Type::from(scalar_type(cursor)?))
    }
}

/// scalar_type = scalar [ array_tail ] .
pub fn scalar_type(cursor: &mut Cursor<'_>) -> Result<ScalarType, Stuck>
    ensures { Reads (λ x. x) scalar_type (is_kind Kind.OpenBracket) scalar_at cursor.old cursor.new result }
{
    let scalar = scalar(cursor)?;
    let array = maybe_array(cursor)?;
    Ok(ScalarType { scalar, array })
}

/// Returns the scalar that this token names, if it names one.
fn scalar_of(kind: Option<Kind>) -> Option<Scalar>
    ensures { result ≡ scalar_of kind }
{
    match kind {
        Some(Kind::Int) => Some(Scalar::Int),
        Some(Kind::Bool) => Some(Scalar::Bool),
        Some(Kind::Byte) => Some(Scalar::Byte),
        _ => None,
    }
}

/// scalar = "int" | "bool" | "byte" .
pub fn scalar(cursor: &mut Cursor<'_>) -> Result<Scalar, Stuck>
    ensures { ReadsWord scalar_word cursor.old cursor.new result }
{
    let Some(scalar) = scalar_of(cursor.peek()) else {
        return Err(Stuck::Unexpected);
    };
    cursor.skip();
    Ok(scalar)
}

/// [ array_tail ]
fn maybe_array(cursor: &mut Cursor<'_>) -> Result<Option<Option<Span>>, Stuck>
    ensures { ReadsOption array_tail (kind_is Kind.OpenBracket) cursor.old cursor.new result }
{
    if cursor.is_next(Kind::OpenBracket) {
        Ok(Some(array_tail(cursor)?))
    } else {
        Ok(None)
    }
}

/// array_tail = "[" "]" bang_in_heap .
fn array_tail(cursor: &mut Cursor<'_>) -> Result<Option<Span>, Stuck>
    ensures { ReadsEnded (λ x. x) array_tail cursor.old cursor.new result }
{
    cursor.expect(Kind::OpenBracket)?;
    cursor.expect(Kind::CloseBracket)?;
    let bang = bang_in_heap(cursor)?;
    Ok(bang)
}

/// named_type = ID named_tail .
fn named_type(cursor: &mut Cursor<'_>) -> Result<NamedType, Stuck>
    ensures { Reads (λ x. x) named_type endpoint_on named_at cursor.old cursor.new result }
{
    let name = cursor.name()?;
    let tail = named_tail(cursor)?;
    Ok(NamedType { name, tail })
}

/// named_tail = pointer_tail | endpoint_tail .
pub fn named_tail(cursor: &mut Cursor<'_>) -> Result<NamedTail, Stuck>
    ensures { Reads (λ x. x) named_tail endpoint_on tail_at cursor.old cursor.new result }
{
    if cursor.is_next(Kind::Star) {
        Ok(NamedTail::Pointer(pointer_tail(cursor)?))
    } else {
        Ok(NamedTail::Endpoint(endpoint_tail(cursor)?))
    }
}

/// pointer_tail = "*" bang_in_heap .
pub fn pointer_tail(cursor: &mut Cursor<'_>) -> Result<Option<Span>, Stuck>
    ensures { ReadsEnded (λ x. x) pointer_tail cursor.old cursor.new result }
{
    cursor.expect(Kind::Star)?;
    let bang = bang_in_heap(cursor)?;
    Ok(bang)
}

/// bang_in_heap = [ "!" ] in_heap .
fn bang_in_heap(cursor: &mut Cursor<'_>) -> Result<Option<Span>, Stuck>
    ensures { ReadsEnded (λ x. x) bang_in_heap cursor.old cursor.new result }
{
    let bang = cursor.placed_if(Kind::Bang);
    in_heap(cursor)?;
    Ok(bang)
}

/// endpoint_tail = "." endpoint_end .
fn endpoint_tail(cursor: &mut Cursor<'_>) -> Result<EndpointTail, Stuck>
    ensures { Reads (λ x. x) endpoint_tail endpoint_on endpoint_at cursor.old cursor.new result }
{
    cursor.expect(Kind::Dot)?;
    Ok(endpoint_end(cursor)?)
}

/// endpoint_end = side [ colon_name ] [ "!" ] [ in_heap ] .
pub fn endpoint_end(cursor: &mut Cursor<'_>) -> Result<EndpointTail, Stuck>
    ensures { Reads (λ x. x) endpoint_end endpoint_on endpoint_at cursor.old cursor.new result }
{
    let side = side(cursor)?;
    let state = maybe_colon_name(cursor)?;
    let bang = cursor.placed_if(Kind::Bang);
    let in_heap = maybe_in_heap(cursor)?;
    Ok(EndpointTail {
        side,
        state,
        bang,
        in_heap,
    })
}

/// Returns the end of a channel that this token names, if it names one.
fn side_of(kind: Option<Kind>) -> Option<Side>
    ensures { result ≡ side_of kind }
{
    match kind {
        Some(Kind::Imp) => Some(Side::Imp),
        Some(Kind::Exp) => Some(Side::Exp),
        _ => None,
    }
}

/// Returns whether this token is the end of a channel.
pub fn is_side(kind: Option<Kind>) -> bool
    ensures { result ≡ opens_side kind }
{
    side_of(kind).is_some()
}

/// side = "Imp" | "Exp" .
fn side(cursor: &mut Cursor<'_>) -> Result<Side, Stuck>
    ensures { ReadsWord side_word cursor.old cursor.new result }
{
    let Some(side) = side_of(cursor.peek()) else {
        return Err(Stuck::Unexpected);
    };
    cursor.skip();
    Ok(side)
}

/// [ colon_name ]
fn maybe_colon_name(cursor: &mut Cursor<'_>) -> Result<Option<Span>, Stuck>
    ensures { ReadsOption colon_name (kind_is Kind.Colon) cursor.old cursor.new result }
{
    if cursor.is_next(Kind::Colon) {
        Ok(Some(colon_name(cursor)?))
    } else {
        Ok(None)
    }
}

/// colon_name = ":" ID .
fn colon_name(cursor: &mut Cursor<'_>) -> Result<Span, Stuck>
    ensures { ReadsEnded (λ x. x) colon_name cursor.old cursor.new result }
{
    cursor.expect(Kind::Colon)?;
    Ok(cursor.name()?)
}

/// [ in_heap ]
fn maybe_in_heap(cursor: &mut Cursor<'_>) -> Result<bool, Stuck>
    ensures { Reads (λ x. x) (when in_heap_words) endpoint_on (when_at (is_kind Kind.In))
        cursor.old cursor.new result }
{
    if cursor.is_next(Kind::In) {
        in_heap(cursor)?;
        Ok(true)
    } else {
        Ok(false)
    }
}

/// in_heap = "in" "ExHeap" .
fn in_heap(cursor: &mut Cursor<'_>) -> Result<(), Stuck>
    ensures { ReadsEnded (λ x. x) (λ _. in_heap_words) cursor.old cursor.new result }
{
    cursor.expect(Kind::In)?;
    cursor.expect(Kind::ExHeap)?;
    Ok(())
}
