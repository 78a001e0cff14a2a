//! Reads structs.

ghost use Rattle.std.specs.Prelude.{◌≡◌, map};
ghost use Rattle.std.specs.List.{flat_map};
ghost use Rattle.tree.specs.Symbols.{by_kind};
ghost use Rattle.tree.specs.Spelling.{in_braces};
ghost use Rattle.syntax.specs.Reading.{Reads, ReadsEnded};
ghost use Rattle.syntax.specs.Firsts.{opens_field};
ghost use Rattle.tree.specs.Trees.{struct_tree};
ghost use Rattle.tree.specs.Programs.{field, struct};

use crate::access::access;
use crate::cursor::{Cursor, Stuck};
use crate::fitted::push;
use crate::types::{is_type, value_type};
use source::{Kind, Span};
use std::alloc::Global;
use tree::{Field, Struct};

/// struct = "rep" "struct" ID fields .
pub fn structure(alloc: Global, cursor: &mut Cursor<'_>) -> Result<Struct, Stuck>
    ensures { ReadsEnded struct_tree struct cursor.old cursor.new result }
{
    cursor.expect(Kind::Rep)?;
    cursor.expect(Kind::Struct)?;
    let name = cursor.name()?;
    let (fields, close) = fields(alloc, cursor)?;
    Ok(Struct {
        name,
        fields,
        close,
    })
}

/// fields = "{" { field } "}" .
fn fields(alloc: Global, cursor: &mut Cursor<'_>) -> Result<(Vec<Field>, Span), Stuck>
    ensures { ReadsEnded (λ p. (p.0.items, p.1)) (in_braces (flat_map field)) cursor.old cursor.new result }
{
    cursor.expect(Kind::OpenBrace)?;
    let all = field_list(alloc, cursor)?;
    let close = cursor.expect_span(Kind::CloseBrace)?;
    Ok((all, close))
}

/// Returns whether a field begins with this token.
fn is_field(kind: Option<Kind>) -> bool
    ensures { result ≡ opens_field kind }
{
    matches!(kind, Some(Kind::Public | Kind::Private | Kind::Internal)) || is_type(kind)
}

/// { field }
fn field_list(alloc: Global, cursor: &mut Cursor<'_>) -> Result<Vec<Field>, Stuck>
    ensures { Reads (λ v. v.items) (flat_map field) (by_kind opens_field) (λ _. by_kind opens_field)
        cursor.old cursor.new result }
{
    let mut all = Vec::new(alloc);
    'each: while is_field(cursor.peek()) {
        push(&mut all, field(cursor)?)?;
    }
    Ok(all)
}

/// field = [ access ] type ID ";" .
fn field(cursor: &mut Cursor<'_>) -> Result<Field, Stuck>
    ensures { ReadsEnded (λ x. x) field cursor.old cursor.new result }
{
    let access = access(cursor);
    let ty = value_type(cursor)?;
    let name = cursor.name()?;
    cursor.expect(Kind::Semicolon)?;
    Ok(Field { access, ty, name })
}
