//! The owning fields of structs.

ghost use Rattle.std.specs.Prelude.{◌≡◌, ℕ, IfOk, List, length, ltb, map};
ghost use Rattle.std.specs.List.{filter};
ghost use Rattle.tree.specs.Trees.{item_tree};
ghost use Rattle.declarations.specs.Program.{ProgramText};
ghost use Rattle.program.specs.Programs.{type_lists};
ghost use Rattle.resolving.specs.Around.{IsAround, IsDirectory, indices_held, program_in, owning_indices};
ghost use Rattle.resolving.specs.Fields as model;
ghost use Rattle.resolving.specs.Fields.{fields_held, structs_told};

use crate::around::{Around, Directory};
use crate::types::type_held;
use program::HeapType;
use source::Span;
use std::alloc::{AllocError, Global};
use tree::{Definition, Field, Item};

/// The owning fields of a struct, in order: what each holds, and its index among all fields.
#[derive(Drop)]
struct Owning {
    types: Vec<HeapType>,
    indices: Vec<usize>,
}

/// Returns the owning fields among these.
fn owning_among(
    alloc: Global,
    directory: &Directory<'_, '_>,
    fields: &[Field],
) -> Result<Owning, AllocError>
    ensures { (p : ProgramText) → IsDirectory p directory.now → IfOk result (λ owning.
        (owning.types.items ≡ fields_held p fields.now) × (owning.indices.items ≡ indices_held p fields.now)) }
{
    let mut types = Vec::new(alloc);
    let mut indices = Vec::new(alloc);
    for (index, field) in fields.iter().enumerate() {
        if let Some(ty) = type_held(directory, field.ty) {
            types.push(ty)?;
            indices.push(index)?;
        }
    }
    Ok(Owning { types, indices })
}

/// The owning fields of a program: what those of each struct hold, in order of the text, and their indices in each item.
#[derive(Drop)]
pub(crate) struct OwningFields {
    pub(crate) structs: Vec<Vec<HeapType>>,
    pub(crate) indices: Vec<Vec<usize>>,
}

/// Returns the owning fields of the structs among these items: what they hold, and their indices.
pub(crate) fn fields_of(
    alloc: Global,
    directory: &Directory<'_, '_>,
    items: &[Item],
) -> Result<OwningFields, AllocError>
    ensures { (text : List ℕ) → IsDirectory (program_in text (map item_tree items.now)) directory.now → IfOk result (λ fields.
        (type_lists fields.structs.items ≡ structs_told (program_in text (map item_tree items.now)))
        × (map (λ x. x.items) fields.indices.items
        ≡ map (owning_indices (program_in text (map item_tree items.now))) (map item_tree items.now))) }
{
    let mut structs = Vec::new(alloc);
    let mut indices = Vec::new(alloc);
    for item in items {
        if let Definition::Struct(structure) = &item.definition {
            let owning = owning_among(alloc, directory, &structure.fields)?;
            structs.push(owning.types)?;
            indices.push(owning.indices)?;
        } else {
            indices.push(Vec::new(alloc))?;
        }
    }
    Ok(OwningFields { structs, indices })
}

/// Returns how many of these are less than this one.
fn count_before(indices: &[usize], index: usize) -> usize
    ensures { result ≡ length (filter (λ x. ltb x index) indices.now) }
{
    indices.iter().filter(|before| **before < index).count()
}

/// Returns the number of a field of what a variable of this type holds, among the owning fields.
pub(crate) fn field_number(
    around: &Around<'_, '_>,
    ty: declarations::ValueType,
    field: Span,
) -> Option<usize>
    ensures { (p : ProgramText) (own : ℕ) → IsAround p own around.now
        → result ≡ model.field_number p ty field }
{
    let declarations::ValueType::Pointer(item) = ty else {
        return None;
    };
    let index = around.directory.scope.field_index(item, field)?;
    let owning = around.owning.get(item)?;
    Some(count_before(owning, index))
}
