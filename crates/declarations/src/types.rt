//! What written types mean, and the names in them.

ghost use Rattle.std.specs.Prelude.{◌≡◌, OnOk};
ghost use Rattle.tree.specs.Trees.{ContractTree};
ghost use Rattle.declarations.specs.Mistakes.{Adds};
ghost use Rattle.declarations.specs.Types.{is_heap, type_meant, pointer_type, endpoint_type};
ghost use Rattle.declarations.specs.Types.{type_unknown, pointer_unknown, endpoint_unknown};
ghost use Rattle.declarations.specs.Program.{ProgramText, contract_named, struct_named};
ghost use Rattle.declarations.specs.Scopes.{IsScope, IsDeclared};

use crate::judging::{add_unknown, judge_name};
use crate::members::Declared;
use crate::mistake::{Mistake, NameSort};
use crate::scope::Scope;
use crate::value_type::ValueType;
use program::Side;
use source::{Memory, Span};
use tree::{Heap, Type};

/// Returns whether it is a type of the exchange heap.
pub fn is_heap(written: Type) -> bool
    ensures { result ≡ is_heap written }
{
    matches!(written, Type::Heap(_))
}

/// Returns the type that a written type means.
#[inline(always)]
pub(crate) fn type_meant(scope: &Scope<'_>, written: Type) -> ValueType
    ensures { (p : ProgramText) → IsScope p scope.now → result ≡ type_meant p written }
{
    match written {
        Type::Scalar(scalar) => ValueType::Scalar(scalar),
        Type::Heap(heap) => heap_type_meant(scope, heap),
    }
}

fn heap_type_meant(scope: &Scope<'_>, written: Heap) -> ValueType
    ensures { (p : ProgramText) → IsScope p scope.now → result ≡ type_meant p (Type.Heap written) }
{
    match scope.noted.find(written) {
        Some(noted) => noted,
        None => look_up_type(scope, written),
    }
}

/// Returns the type that a written type means, by looking up the names in it.
pub(crate) fn look_up_type(scope: &Scope<'_>, written: Heap) -> ValueType
    ensures { (p : ProgramText) → IsScope p scope.now → result ≡ type_meant p (Type.Heap written) }
{
    match written {
        Heap::Pointer { name, .. } => pointer_type(scope, name),
        Heap::Array { element, .. } => ValueType::Array(element),
        Heap::Endpoint {
            contract,
            side,
            state,
            ..
        } => endpoint_type(scope, contract, side, state),
    }
}

/// Returns the type of a pointer to the struct of this name.
fn pointer_type(scope: &Scope<'_>, name: Span) -> ValueType
    ensures { (p : ProgramText) → IsScope p scope.now → result ≡ pointer_type (struct_named p name) }
{
    match scope.structure(name) {
        Some((index, _)) => ValueType::Pointer(index),
        None => ValueType::Unknown,
    }
}

fn endpoint_type(scope: &Scope<'_>, contract: Span, side: Side, state: Option<Span>) -> ValueType
    ensures { (p : ProgramText) → IsScope p scope.now → result ≡ endpoint_type p.text (contract_named p contract) side state }
{
    match scope.contract(contract) {
        Some((index, declared)) => end_type(scope.text, index, declared, side, state),
        None => ValueType::Unknown,
    }
}

fn end_type(
    text: &[u8],
    index: usize,
    declared: &Declared<'_>,
    side: Side,
    state: Option<Span>,
) -> ValueType
    ensures { (c : ContractTree) → IsDeclared text.now c declared.now
        → result ≡ endpoint_type text.now (Some (index, c)) side state }
{
    match state {
        Some(state) => end_type_in(text, index, declared, side, state),
        None => ValueType::Endpoint(side, index),
    }
}

fn end_type_in(
    text: &[u8],
    index: usize,
    declared: &Declared<'_>,
    side: Side,
    state: Span,
) -> ValueType
    ensures { (c : ContractTree) → IsDeclared text.now c declared.now
        → result ≡ endpoint_type text.now (Some (index, c)) side (Some state) }
{
    match declared.states.find(state.slice(text)) {
        Some(_) => ValueType::Endpoint(side, index),
        None => ValueType::Unknown,
    }
}

/// Adds the undeclared names in a type.
///
/// # Errors
/// `Memory` if an allocation fails.
pub fn judge_type(scope: &Scope<'_>, written: Type, found: &mut Vec<Mistake>) -> Result<(), Memory>
    ensures { (p : ProgramText) → IsScope p scope.now → OnOk result (Adds found.old.items found.new.items (type_unknown p written)) }
{
    match written {
        Type::Scalar(_) => Ok(()),
        Type::Heap(heap) => judge_heap(scope, heap, found),
    }
}

fn judge_heap(scope: &Scope<'_>, written: Heap, found: &mut Vec<Mistake>) -> Result<(), Memory>
    ensures { (p : ProgramText) → IsScope p scope.now
        → OnOk result (Adds found.old.items found.new.items (type_unknown p (Type.Heap written))) }
{
    match written {
        Heap::Pointer { name, .. } => judge_pointer(scope, name, found),
        Heap::Array { .. } => Ok(()),
        Heap::Endpoint {
            contract,
            state,
            ..
        } => judge_endpoint(scope, contract, state, found),
    }
}

/// Adds the name unless it is that of a struct.
fn judge_pointer(scope: &Scope<'_>, name: Span, found: &mut Vec<Mistake>) -> Result<(), Memory>
    ensures { (p : ProgramText) → IsScope p scope.now
        → OnOk result (Adds found.old.items found.new.items (pointer_unknown (struct_named p name) name)) }
{
    match scope.structure(name) {
        Some(_) => Ok(()),
        None => add_unknown(name, NameSort::Struct, found),
    }
}

/// Adds the contract, or else the state, in the type of an endpoint, if it is not declared.
fn judge_endpoint(
    scope: &Scope<'_>,
    contract: Span,
    state: Option<Span>,
    found: &mut Vec<Mistake>,
) -> Result<(), Memory>
    ensures { (p : ProgramText) → IsScope p scope.now
        → OnOk result (Adds found.old.items found.new.items (endpoint_unknown p.text (contract_named p contract) contract state)) }
{
    match (scope.contract(contract), state) {
        (Some((index, declared)), Some(state)) => {
            let sort = NameSort::State(Some(index));
            judge_name(scope.text, &declared.states, state, sort, found)
        }
        (Some(_), None) => Ok(()),
        (None, _) => add_unknown(contract, NameSort::Contract, found),
    }
}
