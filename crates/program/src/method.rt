//! A method with a number for each of its variables.

use crate::number::VarId;
use crate::statement::Statement;
use crate::types::HeapType;
use source::Place;

/// How a method got a variable of the exchange heap.
#[derive(Clone, Copy, Debug, PartialEq, Eq)]
pub enum Role {
    /// A parameter that is lent for the call.
    Lent,
    /// A parameter that belongs to the method from then on.
    Claimed,
    /// A variable that a statement declares, or a case binds.
    Local,
}

/// A variable of the exchange heap: its name as it is written, its type, how the method got it, and the variable of
/// the exchange heap before it in scope, which is the last one declared there, if there is one.
#[derive(Drop)]
pub struct Variable {
    pub name: Vec<u8>,
    pub ty: HeapType,
    pub role: Role,
    pub outer: Option<VarId>,
}

/// A method: the place of its name; whether it has a parameter of any kind; whether it gives something, and the
/// type of that if it is of the exchange heap; its variables of the exchange heap in order of declaration,
/// parameters first; its statements in order; the last variable of the exchange heap in scope after them; and where
/// its body ends.
#[derive(Drop)]
pub struct Method {
    pub name: Place,
    pub takes: bool,
    pub gives: bool,
    pub result: Option<HeapType>,
    pub variables: Vec<Variable>,
    pub statements: Vec<Statement>,
    pub scope: Option<VarId>,
    pub close: Place,
}
