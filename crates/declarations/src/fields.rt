//! The fields of a struct.

ghost use Rattle.std.specs.Prelude.{◌≡◌, map, IfOk};
ghost use Rattle.std.specs.List.{filter};
ghost use Rattle.tree.specs.Trees.{StructTree, struct_tree};
ghost use Rattle.declarations.specs.Declarations.{first_among};
ghost use Rattle.declarations.specs.Named.{field_named};
ghost use Rattle.declarations.specs.Types.{is_heap};

use crate::types::is_heap;
use source::Span;
use std::alloc::{AllocError, Global};
use tables::{Seed, Table};
use tree::{Field, Struct};

/// The fields of a struct, its owning fields, and where each name of a field is declared first.
#[derive(Drop)]
pub struct Fields<'a> {
    pub(crate) list: &'a [Field],
    /// Collected once, so that no `new` reads the fields that do not own.
    pub(crate) owning: Vec<Field>,
    pub(crate) table: Table<'a>,
}

impl<'a> Fields<'a> {
    ghost use Rattle.declarations.specs.Scopes.{AreFieldsOf};

    /// Returns the fields of a struct.
    pub(crate) fn of(
        alloc: Global,
        seed: Seed,
        text: &'a [u8],
        structure: &'a Struct,
    ) -> Result<Fields<'a>, AllocError>
        ensures { IfOk result (AreFieldsOf text.now (struct_tree structure.now)) }
    {
        let names = names_of_fields(alloc, &structure.fields)?;
        let table = Table::of(alloc, seed, text, &names)?;
        let owning = owning_fields(alloc, &structure.fields)?;
        Ok(Fields {
            list: &structure.fields,
            owning,
            table,
        })
    }

    /// Returns the index of the first field of this name.
    pub(crate) fn index_of(&self, text: &[u8], name: Span) -> Option<usize>
        ensures { (s : StructTree) → AreFieldsOf text.now s self.now
            → result ≡ first_among text.now (map (λ f. f.name) s.fields) name }
    {
        self.table.find(name.slice(text))
    }

    /// Returns the first field of this name.
    pub fn find(&self, text: &[u8], name: Span) -> Option<Field>
        ensures { (s : StructTree) → AreFieldsOf text.now s self.now → result ≡ field_named text.now s name }
    {
        let index = self.index_of(text, name)?;
        self.list.get(index).copied()
    }
}

/// Returns the names of these fields, in order.
pub(crate) fn names_of_fields(alloc: Global, fields: &[Field]) -> Result<Vec<Span>, AllocError>
    ensures { IfOk result (λ names. names.items ≡ map (λ f. f.name) fields.now) }
{
    let mut names = Vec::new(alloc);
    for field in fields {
        names.push(field.name)?;
    }
    Ok(names)
}

/// Returns the owning fields among these, in order.
fn owning_fields(alloc: Global, fields: &[Field]) -> Result<Vec<Field>, AllocError>
    ensures { IfOk result (λ owning. owning.items ≡ filter (λ f. is_heap f.ty) fields.now) }
{
    let mut owning = Vec::new(alloc);
    for field in fields {
        if is_heap(field.ty) {
            owning.push(*field)?;
        }
    }
    Ok(owning)
}
