//! Types of variables and expressions.

ghost use Rattle.std.specs.Prelude.{◌≡◌};

use program::{Scalar, Side};

/// The type of a variable or an expression. An item is given by its index in the text.
#[derive(Clone, Copy, Debug, PartialEq, Eq)]
pub enum ValueType {
    /// A number or a truth value.
    Scalar(Scalar),
    /// A pointer to a struct.
    Pointer(usize),
    /// An array with elements of this type.
    Array(Scalar),
    /// An end of a channel of a contract. The side comes first, next to the tag: after the index it would take eight bytes more.
    Endpoint(Side, usize),
    /// No type: that of a field or an element of a variable that has none. Nothing is asked of it.
    Missing,
    /// The type of what is built on an undeclared name. Nothing is asked of it, nor of what is built on it.
    Unknown,
}

impl ValueType {
    ghost use Rattle.declarations.specs.Types as specs;

    /// Returns whether nothing is asked of it: it is missing or unknown.
    pub fn is_silent(self) -> bool
        ensures { result ≡ specs.is_silent self }
    {
        matches!(self, ValueType::Missing | ValueType::Unknown)
    }

    /// Returns whether it is built on an undeclared name.
    pub fn is_unknown(self) -> bool
        ensures { result ≡ specs.is_unknown self }
    {
        matches!(self, ValueType::Unknown)
    }

    /// Returns whether it is `int` or `byte`.
    pub fn is_number(self) -> bool
        ensures { result ≡ specs.is_number self }
    {
        matches!(self, ValueType::Scalar(Scalar::Int | Scalar::Byte))
    }

    /// Returns whether it is `bool`.
    pub fn is_truth(self) -> bool
        ensures { result ≡ specs.is_truth self }
    {
        matches!(self, ValueType::Scalar(Scalar::Bool))
    }

    /// Returns whether it is a block of the exchange heap.
    pub fn is_block(self) -> bool
        ensures { result ≡ specs.is_block self }
    {
        matches!(
            self,
            ValueType::Pointer(_) | ValueType::Array(_) | ValueType::Endpoint(..)
        )
    }

    /// Returns whether both are of the same type; `int` and `byte` count as one, except as elements of arrays. A missing or unknown type
    /// is like no other.
    fn is_like(self, other: ValueType) -> bool
        ensures { result ≡ specs.alike self other }
    {
        match (self, other) {
            (ValueType::Scalar(_), ValueType::Scalar(_)) => self.is_number() == other.is_number(),
            (ValueType::Pointer(left), ValueType::Pointer(right)) => left == right,
            (ValueType::Array(left), ValueType::Array(right)) => left == right,
            (ValueType::Endpoint(side, left), ValueType::Endpoint(other_side, right)) => {
                left == right && side == other_side
            }
            _ => false,
        }
    }

    /// Returns whether a value of this type may be given if the other is asked for.
    pub fn agrees(self, asked: ValueType) -> bool
        ensures { result ≡ specs.agree self asked }
    {
        self.is_silent() || asked.is_silent() || self.is_like(asked)
    }
}
