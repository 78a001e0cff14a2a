//! Mistakes in the variables of an expression, their fields and their elements.

ghost use Rattle.std.specs.Prelude.{◌≡◌, List, [], ◌∷◌, OnOk, IfOk, codes, false, if◌then◌else◌};
ghost use Rattle.std.specs.Option.{option_map_or};
ghost use Rattle.declarations.specs.declared.mistake.Mistake.{Mistake as MistakeModel};
ghost use Rattle.source.specs.declared.token.Span.{Span};
ghost use Rattle.tree.specs.Trees.{StructTree};
ghost use Rattle.names.specs.Expressions.{InScope, type_named, variable_mistakes, field_type, field_mistakes};
ghost use Rattle.names.specs.Expressions.{element_type, element_mistakes, owns};
ghost use Rattle.declarations.specs.Named.{field_named};
ghost use Rattle.declarations.specs.Types as types;
ghost use Rattle.declarations.specs.Mistakes.{Adds};
ghost use Rattle.names.specs.Mentions.{GivesOperand, GivesIn, IsGiven, unknown_field};
ghost use Rattle.names.specs.Operands.{Judges};
ghost use Rattle.declarations.specs.Scopes.{IsScope, AreFieldsOf};
ghost use Rattle.names.specs.Shapes as shapes;
ghost use Rattle.names.specs.Shapes.{Shape};
ghost use Rattle.tables.specs.Words.{word_at, same_word};

use crate::operands::{Operand, ask, ask_number};
use crate::variables::ScopeVariables;
use declarations::{
    Demand, Fields, Mismatch, Mistake, NameSort, Scope, ValueType, add_unknown, is_heap,
};
use program::Scalar;
use source::{Memory, Span};
use tree::Field;

/// Returns the type of a variable; adds the name if nothing declares it.
pub(crate) fn judge_variable(
    scope: &Scope<'_>,
    variables: &ScopeVariables<'_>,
    name: Span,
    found: &mut Vec<Mistake>,
) -> Result<ValueType, Memory>
    ensures { IfOk result
        (GivesOperand scope.now variables.now (λ s. type_named s name) (λ s. variable_mistakes s name)
        found.old.items found.new.items) }
{
    match variables.find(scope.text, name) {
        Some(variable) => Ok(variable.ty),
        None => {
            add_unknown(name, NameSort::Variable(variables.len()), found)?;
            Ok(ValueType::Unknown)
        }
    }
}

/// Returns the operand for a variable within an expression; adds the mistakes in it.
pub(crate) fn judge_mention(
    scope: &Scope<'_>,
    variables: &ScopeVariables<'_>,
    name: Span,
    found: &mut Vec<Mistake>,
) -> Result<Operand, Memory>
    ensures { IfOk result (Judges scope.now variables.now (shapes.Mention name) found.old.items found.new.items) }
{
    let ty = judge_variable(scope, variables, name, found)?;
    let mismatch = Mismatch::Given(Demand::NoBlock, ty);
    ask(!ty.is_block(), name.place, mismatch, found)?;
    Ok(Operand {
        ty,
        place: name.place,
    })
}

/// Returns the operand for a field of a variable within an expression; adds the mistakes in it.
pub(crate) fn judge_field_of(
    scope: &Scope<'_>,
    variables: &ScopeVariables<'_>,
    variable: Span,
    field: Span,
    found: &mut Vec<Mistake>,
) -> Result<Operand, Memory>
    ensures { IfOk result (Judges scope.now variables.now (shapes.Field variable field) found.old.items found.new.items) }
{
    let held = judge_variable(scope, variables, variable, found)?;
    let ty = judge_field(scope, held, variable, field, found)?;
    let well = !owns(scope, held, field, ty);
    ask(well, variable.place, Mismatch::FieldOwns, found)?;
    Ok(Operand {
        ty,
        place: variable.place,
    })
}

/// Returns the operand for an element of a variable within an expression; adds the mistakes in it, without those in
/// the index, which is judged already.
#[inline(always)]
pub(crate) fn judge_element_of(
    scope: &Scope<'_>,
    variables: &ScopeVariables<'_>,
    variable: Span,
    index: Operand,
    found: &mut Vec<Mistake>,
) -> Result<Operand, Memory>
    ensures { IfOk result (λ o. (e : Shape) (start : List MistakeModel) → Judges scope.now variables.now e start found.old.items index
        → Judges scope.now variables.now (shapes.Element variable e) start found.new.items o) }
{
    ask_number(index.ty, index.place, found)?;
    let held = judge_variable(scope, variables, variable, found)?;
    judge_element(held, variable, found)?;
    Ok(Operand {
        ty: type_of_element(held, index.ty.is_unknown()),
        place: variable.place,
    })
}

/// Adds a mistake if the variable has no elements.
fn judge_element(held: ValueType, variable: Span, found: &mut Vec<Mistake>) -> Result<(), Memory>
    ensures { OnOk result (Adds found.old.items found.new.items (element_mistakes held variable)) }
{
    match held {
        ValueType::Array(_) => Ok(()),
        _ => {
            let mismatch = Mismatch::Given(Demand::Array, held);
            ask(held.is_silent(), variable.place, mismatch, found)
        }
    }
}

/// Returns the type of an element. `lost` is whether the index is built on an undeclared name.
fn type_of_element(held: ValueType, lost: bool) -> ValueType
    ensures { result ≡ element_type held lost }
{
    match held {
        _ if lost => ValueType::Unknown,
        ValueType::Unknown => ValueType::Unknown,
        ValueType::Array(element) => ValueType::Scalar(element),
        _ => ValueType::Missing,
    }
}

/// Returns the type of a field of what a variable holds; adds the mistakes in it.
pub(crate) fn judge_field(
    scope: &Scope<'_>,
    held: ValueType,
    variable: Span,
    field: Span,
    found: &mut Vec<Mistake>,
) -> Result<ValueType, Memory>
    ensures { IfOk result
        (GivesIn scope.now (λ s. field_type s held field) (λ s. field_mistakes s held variable field) found.old.items found.new.items) }
{
    match held {
        ValueType::Array(_) => judge_length(scope.text, field, found),
        ValueType::Pointer(place) => judge_struct_field(scope, place, field, found),
        ValueType::Unknown => Ok(ValueType::Unknown),
        _ => {
            let mismatch = Mismatch::Given(Demand::Fields, held);
            ask(held.is_silent(), variable.place, mismatch, found)?;
            Ok(ValueType::Missing)
        }
    }
}

/// Returns whether a field of this type, of what a variable holds, owns.
#[inline(always)]
pub(crate) fn owns(scope: &Scope<'_>, held: ValueType, field: Span, ty: ValueType) -> bool
    ensures { (s : InScope) → IsScope s.program scope.now → ty ≡ field_type s held field → result ≡ owns s held field }
{
    match ty {
        // Most fields are scalars, which own nothing. They need no second look-up.
        ValueType::Scalar(_) => false,
        _ => is_owner(scope, held, field),
    }
}

/// Returns whether a field of what a variable holds owns.
fn is_owner(scope: &Scope<'_>, held: ValueType, field: Span) -> bool
    ensures { (s : InScope) → IsScope s.program scope.now → result ≡ owns s held field }
{
    match held {
        ValueType::Pointer(index) => is_owning(scope.field(index, field)),
        _ => false,
    }
}

fn is_owning(field: Option<Field>) -> bool
    ensures { result ≡ option_map_or (λ f. types.is_heap f.ty) field false }
{
    match field {
        Some(field) => is_heap(field.ty),
        None => false,
    }
}

/// Returns the type of a field of an array; adds the field unless it is `Length`.
fn judge_length(text: &[u8], field: Span, found: &mut Vec<Mistake>) -> Result<ValueType, Memory>
    ensures { IfOk result (let is_length = same_word (word_at text.now field) (codes "Length") in
        IsGiven (if is_length then ValueType.Scalar Scalar.Int else ValueType.Unknown)
        (if is_length then [] else Mistake.Unknown field NameSort.Length ∷ []) found.old.items found.new.items) }
{
    if is_length(text, field) {
        return Ok(ValueType::Scalar(Scalar::Int));
    }
    add_unknown(field, NameSort::Length, found)?;
    Ok(ValueType::Unknown)
}

/// Returns whether this name is `Length`.
pub(crate) fn is_length(text: &[u8], name: Span) -> bool
    ensures { result ≡ same_word (word_at text.now name) (codes "Length") }
{
    name.slice(text) == b"Length".as_slice()
}

/// Returns the type of a field of the struct that a pointer leads to; adds the field if the struct lacks it.
// No mistake names the pointer itself, so the clause uses the name of the field in its place.
fn judge_struct_field(
    scope: &Scope<'_>,
    index: usize,
    field: Span,
    found: &mut Vec<Mistake>,
) -> Result<ValueType, Memory>
    ensures { IfOk result (GivesIn scope.now (λ s. field_type s (ValueType.Pointer index) field)
        (λ s. field_mistakes s (ValueType.Pointer index) field field) found.old.items found.new.items) }
{
    match scope.structure_at(index) {
        Some(fields) => judge_field_in(scope, index, fields, field, found),
        None => Ok(ValueType::Unknown),
    }
}

/// Returns the type of a field of the struct that is item `index`; adds the field if the struct lacks it.
fn judge_field_in(
    scope: &Scope<'_>,
    index: usize,
    fields: &Fields<'_>,
    field: Span,
    found: &mut Vec<Mistake>,
) -> Result<ValueType, Memory>
    ensures { IfOk result (λ k. (s : InScope) (x : StructTree) → IsScope s.program scope.now → AreFieldsOf scope.now.text.now x fields.now
        → (let named = field_named scope.now.text.now x field in
        IsGiven (option_map_or (λ f. types.type_meant s.program f.ty) named ValueType.Unknown)
        (unknown_field named index field) found.old.items found.new.items k)) }
{
    match fields.find(scope.text, field) {
        Some(declared) => Ok(scope.type_meant(declared.ty)),
        None => {
            add_unknown(field, NameSort::Field(index), found)?;
            Ok(ValueType::Unknown)
        }
    }
}
