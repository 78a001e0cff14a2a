//! Numbers of declarations: each counts the declarations of its kind that come before.

/// A contract's number: how many contracts come before it in the text.
#[derive(Clone, Copy, Debug, PartialEq, Eq)]
pub struct ContractId(pub u32);

/// A state's number: how many states, unnamed ones included, come before it in the text.
#[derive(Clone, Copy, Debug, PartialEq, Eq)]
pub struct StateId(pub u32);

/// A message's number: how many messages come before it in the text.
#[derive(Clone, Copy, Debug, PartialEq, Eq)]
pub struct MessageId(pub u32);

/// A struct's number: how many structs come before it in the text.
#[derive(Clone, Copy, Debug, PartialEq, Eq)]
pub struct StructId(pub usize);

/// A method's number: how many methods come before it in the text.
#[derive(Clone, Copy, Debug, PartialEq, Eq)]
pub struct MethodId(pub u32);

/// A variable's number: how many variables of the exchange heap, parameters included, its method declares before it.
#[derive(Clone, Copy, Debug, PartialEq, Eq)]
pub struct VarId(pub usize);
