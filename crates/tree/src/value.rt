//! Trees of values and calls.

use crate::expression::Expression;
use program::Scalar;
use source::Span;

/// value = expression | call | new .
#[derive(Drop)]
pub enum Value {
    Expression(Expression),
    Call(Box<Call>),
    New(Box<New>),
}

/// call = ID [ "." ID ] "(" [ expression { "," expression } ] ")" .
#[derive(Drop)]
pub struct Call {
    pub name: Span,
    pub member: Option<Span>,
    pub open: Span,
    pub arguments: Vec<Expression>,
}

/// new = "new" "[" "ExHeap" "]" made .
#[derive(Drop)]
pub struct New {
    pub word: Span,
    pub made: Made,
}

/// made = ID "(" [ expression { "," expression } ] ")" | scalar "[" expression "]" .
#[derive(Drop)]
pub enum Made {
    Struct {
        name: Span,
        open: Span,
        /// The arguments for the owning fields.
        arguments: Vec<Expression>,
    },
    Array {
        element: Scalar,
        length: Box<Expression>,
    },
}
