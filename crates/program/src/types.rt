//! Types of variables of the exchange heap.

use crate::number::{ContractId, StateId, StructId};

/// A scalar type.
#[derive(Clone, Copy, Debug, PartialEq, Eq)]
pub enum Scalar {
    Int,
    Bool,
    Byte,
}

/// Which end of a channel: importer or exporter.
#[derive(Clone, Copy, Debug, PartialEq, Eq)]
pub enum Side {
    Imp,
    Exp,
}

/// The type of a variable, a parameter, an owning field or a result of the exchange heap.
#[derive(Clone, Copy, Debug, PartialEq, Eq)]
pub enum HeapType {
    /// A struct.
    Struct(StructId),
    /// An array of elements of this type.
    Array(Scalar),
    /// An end of a channel of this contract, in the state that the type names, or in the first state if it names
    /// none. For a local variable the state only has to exist; it has no other meaning.
    Endpoint {
        contract: ContractId,
        side: Side,
        state: StateId,
    },
}
