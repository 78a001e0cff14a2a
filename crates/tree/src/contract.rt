//! Syntax trees of contracts.

use crate::types::Type;
use program::{Direction, Sign};
use source::Span;

/// contract = "contract" ID "{" { message } state { message | state } "}" .
#[derive(Drop)]
pub struct Contract {
    pub name: Span,
    pub messages: Vec<Message>,
    pub state: State,
    pub members: Vec<Member>,
    pub close: Span,
}

/// What may follow the first state.
#[derive(Drop)]
pub enum Member {
    Message(Message),
    State(State),
}

/// message = ( "in" | "out" ) "message" ID "(" [ param { "," param } ] ")" ";" .
#[derive(Drop)]
pub struct Message {
    pub direction: Direction,
    pub name: Span,
    pub open: Span,
    pub params: Vec<MessageParameter>,
}

/// A parameter of a message: type ID .
#[derive(Drop)]
pub struct MessageParameter {
    pub ty: Type,
    pub name: Span,
}

/// state = "state" ID ":" body .
#[derive(Drop)]
pub struct State {
    pub name: Span,
    pub body: StateBody,
}

/// body = ";" | path ";" | "one" "{" { path ";" } "}" [ ";" ] .
#[derive(Drop)]
pub enum StateBody {
    Empty,
    Path(Path),
    One {
        paths: Vec<Path>,
        close: Span,
        semicolon: bool,
    },
}

/// path = edge { edge } ID .
#[derive(Drop)]
pub struct Path {
    pub first: Edge,
    pub others: Vec<Edge>,
    pub target: Span,
}

/// edge = ID ( "!" | "?" ) "->" .
#[derive(Clone, Copy)]
pub struct Edge {
    pub message: Span,
    pub sign: Sign,
    pub mark: Span,
}
