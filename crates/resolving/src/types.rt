//! What types hold, with a number for each of their names.

ghost use Rattle.std.specs.Prelude.{◌≡◌, ℕ, None, option_map};
ghost use Rattle.declarations.specs.Program.{ProgramText};
ghost use Rattle.program.specs.Parts.{contract_model};
ghost use Rattle.declarations.specs.declared.value_type.ValueType.TheVariants.{Pointer};
ghost use Rattle.resolving.specs.Around.{IsDirectory};
ghost use Rattle.resolving.specs.Types as model;

use crate::around::Directory;
use program::{Contract, ContractId, HeapType, Side, StateId, StructId};
use source::Span;
use tree::{Heap, Type};

/// Returns the contract that is the item at this index.
pub(crate) fn contract_at<'s>(directory: &Directory<'s, '_>, index: usize) -> Option<&'s Contract>
    ensures { (p : ProgramText) → IsDirectory p directory.now
        → option_map (λ c. contract_model c.now) result ≡ model.contract_at p index }
{
    let before = directory.before.get(index)?;
    directory.resolved.contracts.get(before.contracts)
}

/// Returns the number of the contract that is the item at this index. Of another item it is that of the next contract, if there is one.
fn contract_number(directory: &Directory<'_, '_>, index: usize) -> Option<ContractId>
    ensures { (p : ProgramText) → IsDirectory p directory.now → result ≡ model.number_at p index }
{
    let before = directory.before.get(index)?;
    let _contract = directory.resolved.contracts.get(before.contracts)?;
    Some(ContractId(before.contracts as u32))
}

/// Returns the number of the contract of this name.
pub(crate) fn contract_named(directory: &Directory<'_, '_>, name: Span) -> Option<ContractId>
    ensures { (p : ProgramText) → IsDirectory p directory.now → result ≡ model.contract_named p name }
{
    let place = directory.scope.contract_index(name)?;
    contract_number(directory, place)
}

/// Returns the number of the state of this name.
fn named_state(
    directory: &Directory<'_, '_>,
    index: usize,
    contract: &Contract,
    name: Span,
) -> Option<StateId>
    ensures { (p : ProgramText) → IsDirectory p directory.now → result ≡ model.named_state p index (contract_model contract.now) name }
{
    let at = directory.scope.state_index(index, name)?;
    let state = contract.states.get(at)?;
    Some(state.id)
}

/// Returns the written state; without one, the first state of the contract.
fn state_of(
    directory: &Directory<'_, '_>,
    index: usize,
    contract: &Contract,
    state: Option<Span>,
) -> StateId
    ensures { (p : ProgramText) → IsDirectory p directory.now → result ≡ model.state_of p index (contract_model contract.now) state }
{
    let Some(name) = state else {
        return contract.first;
    };
    match named_state(directory, index, contract, name) {
        Some(number) => number,
        None => contract.first,
    }
}

/// Returns what an end of a channel holds.
fn endpoint_held(
    directory: &Directory<'_, '_>,
    index: usize,
    side: Side,
    state: Option<Span>,
) -> Option<HeapType>
    ensures { (p : ProgramText) → IsDirectory p directory.now → result ≡ model.endpoint_held p index side state }
{
    let number = contract_number(directory, index)?;
    let contract = contract_at(directory, index)?;
    Some(HeapType::Endpoint {
        contract: number,
        side,
        state: state_of(directory, index, contract, state),
    })
}

/// Returns the type of the struct that is the item at this index.
fn struct_held(directory: &Directory<'_, '_>, index: usize) -> Option<HeapType>
    ensures { (p : ProgramText) → IsDirectory p directory.now → result ≡ model.heap_type p (Pointer index) None }
{
    let before = directory.before.get(index)?;
    Some(HeapType::Struct(StructId(before.structs)))
}

/// Returns what a variable of this type holds, if it is of the exchange heap. `state` is the state in its written
/// type, if there is one.
pub(crate) fn heap_type(
    directory: &Directory<'_, '_>,
    ty: declarations::ValueType,
    state: Option<Span>,
) -> Option<HeapType>
    ensures { (p : ProgramText) → IsDirectory p directory.now → result ≡ model.heap_type p ty state }
{
    match ty {
        declarations::ValueType::Pointer(place) => struct_held(directory, place),
        declarations::ValueType::Array(element) => Some(HeapType::Array(element)),
        declarations::ValueType::Endpoint(side, place) => endpoint_held(
            directory, place, side, state,
        ),
        declarations::ValueType::Scalar(_) => None,
        declarations::ValueType::Missing => None,
        declarations::ValueType::Unknown => None,
    }
}

/// Returns the state in a written type, if there is one.
fn state_in(written: Type) -> Option<Span>
    ensures { result ≡ model.state_in written }
{
    match written {
        Type::Heap(Heap::Endpoint { state, .. }) => state,
        _ => None,
    }
}

/// Returns what a variable of this type holds, if it is of the exchange heap.
pub(crate) fn type_held(directory: &Directory<'_, '_>, written: Type) -> Option<HeapType>
    ensures { (p : ProgramText) → IsDirectory p directory.now → result ≡ model.type_held p written }
{
    heap_type(
        directory,
        directory.scope.type_meant(written),
        state_in(written),
    )
}

/// Returns what a method gives, if it is of the exchange heap.
pub(crate) fn result_held(directory: &Directory<'_, '_>, written: Option<Type>) -> Option<HeapType>
    ensures { (p : ProgramText) → IsDirectory p directory.now → result ≡ model.result_held p written }
{
    type_held(directory, written?)
}
