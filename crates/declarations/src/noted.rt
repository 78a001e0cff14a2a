//! What the types in structs and in the signatures of methods and messages mean.

ghost use Rattle.std.specs.Prelude.{◌≡◌, true, Some, OnOk, IfOk};
ghost use Rattle.tree.specs.declared.types.Type.TheVariants as type;
ghost use Rattle.declarations.specs.Types.{type_meant};
ghost use Rattle.declarations.specs.Program.{ProgramText};
ghost use Rattle.declarations.specs.Scopes.{IsScope, AreNoted};

use crate::scope::Scope;
use crate::signatures::signature_types;
use crate::types::look_up_type;
use crate::value_type::ValueType;
use program::Side;
use source::Span;
use std::alloc::{AllocError, Global};
use std::collections::BTreeMap;
use tree::Heap;

/// A written type of the exchange heap, and what it means.
#[derive(Clone, Copy)]
pub(crate) struct Noted {
    pub(crate) written: Heap,
    pub(crate) ty: ValueType,
}

/// What written types mean, by the byte at which the first name of each begins. Each is looked up once, so that no
/// call and no `new` reads the type names of its method, message or struct again, which may be longer than the call.
#[derive(Drop)]
pub(crate) struct NotedTypes {
    pub(crate) first: BTreeMap<u32, Noted>,
}

impl NotedTypes {
    /// Returns a table without types.
    pub(crate) fn new(alloc: Global) -> NotedTypes
        ensures { (p : ProgramText) → AreNoted p result }
    {
        NotedTypes {
            first: BTreeMap::new(alloc),
        }
    }

    /// Returns the types in the structs, and in the signatures of the methods and messages, in scope.
    pub(crate) fn of(alloc: Global, scope: &Scope<'_>) -> Result<NotedTypes, AllocError>
        ensures { IfOk result (λ noted. (p : ProgramText) → IsScope p scope.now → AreNoted p noted) }
    {
        let mut noted = NotedTypes::new(alloc);
        let types = signature_types(alloc, &scope.members)?;
        for written in &types {
            noted.note(scope, *written)?;
        }
        Ok(noted)
    }

    /// Notes what this type means.
    fn note(&mut self, scope: &Scope<'_>, written: Heap) -> Result<(), AllocError>
        ensures { (p : ProgramText) → IsScope p scope.now → AreNoted p self.old → OnOk result (AreNoted p self.new) }
    {
        if let Some(start) = begins(written) {
            self.first.insert(start, noted_type(scope, written))?;
        }
        Ok(())
    }

    /// Returns what this type means, if it is noted.
    pub(crate) fn find(&self, written: Heap) -> Option<ValueType>
        ensures { (p : ProgramText) (k : ValueType) → AreNoted p self.now → result ≡ Some k → k ≡ type_meant p (type.Heap written) }
    {
        let noted = self.first.get(&begins(written)?)?;
        type_for(*noted, written)
    }
}

/// Returns the noted type, if this one is written at the same place.
fn type_for(noted: Noted, written: Heap) -> Option<ValueType>
    ensures { (p : ProgramText) (k : ValueType) → noted.ty ≡ type_meant p (type.Heap noted.written) → result ≡ Some k
        → k ≡ type_meant p (type.Heap written) }
{
    if is_same(noted.written, written) {
        return Some(noted.ty);
    }
    None
}

/// Returns whether two types are written at the same place.
fn is_same(left: Heap, right: Heap) -> bool
    ensures { (p : ProgramText) → result ≡ true → type_meant p (type.Heap left) ≡ type_meant p (type.Heap right) }
{
    match (left, right) {
        (Heap::Pointer { name, .. }, Heap::Pointer { name: other, .. }) => is_same_name(
            name, other,
        ),
        (
            Heap::Endpoint {
                contract,
                side,
                state,
                ..
            },
            Heap::Endpoint {
                contract: other,
                side: other_side,
                state: other_state,
                ..
            },
        ) => {
            is_same_name(contract, other)
                && is_same_side(side, other_side)
                && is_same_state(state, other_state)
        }
        _ => false,
    }
}

fn is_same_state(left: Option<Span>, right: Option<Span>) -> bool
    ensures { result ≡ true → left ≡ right }
{
    match (left, right) {
        (Some(left), Some(right)) => is_same_name(left, right),
        (None, None) => true,
        _ => false,
    }
}

fn is_same_side(left: Side, right: Side) -> bool
    ensures { result ≡ true → left ≡ right }
{
    left == right
}

fn is_same_name(left: Span, right: Span) -> bool
    ensures { result ≡ true → left ≡ right }
{
    left == right
}

/// Returns the byte at which the first name of a type begins, if it has one.
fn begins(written: Heap) -> Option<u32> {
    match written {
        Heap::Pointer { name, .. } => Some(name.start),
        Heap::Array { .. } => None,
        Heap::Endpoint { contract, .. } => Some(contract.start),
    }
}

fn noted_type(scope: &Scope<'_>, written: Heap) -> Noted
    ensures { (p : ProgramText) → IsScope p scope.now → result.ty ≡ type_meant p (type.Heap result.written) }
{
    Noted {
        written,
        ty: look_up_type(scope, written),
    }
}
