//! Syntax trees of types.

use program::{Scalar, Side};
use source::Span;

/// type = scalar | heap .
#[derive(Clone, Copy)]
pub enum Type {
    Scalar(Scalar),
    Heap(Heap),
}

/// heap = ID "*" [ "!" ] "in" "ExHeap" | scalar "[" "]" [ "!" ] "in" "ExHeap"
///      | ID "." ( "Imp" | "Exp" ) [ ":" ID ] [ "!" ] [ "in" "ExHeap" ] .
#[derive(Clone, Copy)]
pub enum Heap {
    Pointer {
        name: Span,
        bang: Option<Span>,
    },
    Array {
        element: Scalar,
        bang: Option<Span>,
    },
    Endpoint {
        contract: Span,
        side: Side,
        state: Option<Span>,
        bang: Option<Span>,
        in_heap: bool,
    },
}
