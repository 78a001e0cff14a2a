//! Types by how they begin: with a scalar or with a name.

use program::{Scalar, Side};
use source::Span;
use tree::{Heap, Type};

/// A type that begins with a scalar. For an array, `array` has the `!` after its brackets, if there is one.
#[derive(Clone, Copy)]
pub struct ScalarType {
    pub scalar: Scalar,
    pub array: Option<Option<Span>>,
}

/// A type that begins with a name.
#[derive(Clone, Copy)]
pub struct NamedType {
    pub name: Span,
    pub tail: NamedTail,
}

/// What follows that name. A pointer has the `!` after its star, if there is one.
#[derive(Clone, Copy)]
pub enum NamedTail {
    Pointer(Option<Span>),
    Endpoint(EndpointTail),
}

/// What follows the name of a contract in the type of an endpoint.
#[derive(Clone, Copy)]
pub struct EndpointTail {
    pub side: Side,
    pub state: Option<Span>,
    pub bang: Option<Span>,
    pub in_heap: bool,
}

impl From<ScalarType> for Type {
    ghost use Rattle.std.specs.Prelude.{◌≡◌};
    ghost use Rattle.syntax.specs.Types.{of_scalar};

    ghost from_gives = { λ s t. t ≡ of_scalar s };

    fn from(s: ScalarType) -> Type {
        match s.array {
            Some(bang) => Type::Heap(Heap::Array {
                element: s.scalar,
                bang,
            }),
            None => Type::Scalar(s.scalar),
        }
    }
}

impl From<NamedType> for Type {
    ghost use Rattle.std.specs.Prelude.{◌≡◌};
    ghost use Rattle.syntax.specs.Types.{of_named};

    ghost from_gives = { λ n t. t ≡ of_named n };

    fn from(n: NamedType) -> Type {
        Type::Heap(match n.tail {
            NamedTail::Pointer(bang) => Heap::Pointer { name: n.name, bang },
            NamedTail::Endpoint(end) => Heap::Endpoint {
                contract: n.name,
                side: end.side,
                state: end.state,
                bang: end.bang,
                in_heap: end.in_heap,
            },
        })
    }
}
