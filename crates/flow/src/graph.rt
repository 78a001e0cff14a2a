//! Instructions, and the points at which a method continues after each.

use crate::cases::Cases;
use program::{Action, Argument, Awaited, Forget, Mention, MessageId, MethodId, VarId};
use source::Place;

/// Where a method continues after a condition.
#[derive(Clone, Copy)]
pub enum Branches {
    /// At `inside` if it is true, at `past` if it is false.
    Either { inside: usize, past: usize },
    /// At this point only: the condition is just `true` or just `false`.
    Only(usize),
}

/// A case of a switch: its endpoint, what it waits for there, the variables that take the message's parameters of the exchange heap,
/// in order, and the point at which the method then continues.
#[derive(Drop)]
pub struct Entrance {
    pub endpoint: Mention,
    pub awaited: Awaited,
    pub targets: Vec<VarId>,
    pub next: usize,
}

/// A send of a message to the other end of a channel, with what is given for each of its parameters of the exchange heap.
#[derive(Drop)]
pub struct Sending {
    pub place: Place,
    pub endpoint: Mention,
    pub message: MessageId,
    pub payloads: Vec<Mention>,
    pub next: usize,
}

/// A call of a method, with what is given for each parameter of the exchange heap, and the variable that takes the block which the
/// method returns, if it returns one.
#[derive(Drop)]
pub struct Calling {
    pub place: Place,
    pub method: MethodId,
    pub arguments: Vec<Argument>,
    pub target: Option<Mention>,
    pub next: usize,
}

/// A start of a method as a process of its own.
#[derive(Drop)]
pub struct Starting {
    pub place: Place,
    pub method: MethodId,
    pub arguments: Vec<Argument>,
    pub next: usize,
}

/// The end of a method, with the variable whose block it returns, if there is one. The last variable of the exchange heap in scope, if
/// there is one, leads to all of them.
#[derive(Clone, Copy)]
pub struct Returning {
    pub place: Place,
    pub value: Option<Mention>,
    pub scope: Option<VarId>,
}

/// An instruction, and the point at which the method continues after it. A point is the index of an instruction in its graph.
#[derive(Drop)]
pub enum Instr {
    /// Acts on what variables and fields have.
    Act {
        action: Action,
        next: usize,
    },
    /// Gives the target a new block, which takes what the arguments have.
    New {
        target: Mention,
        arguments: Vec<Mention>,
        next: usize,
    },
    /// Sends a message.
    Send(Sending),
    /// Waits for a message at one of the endpoints of these cases, or for the end of their peers.
    Switch {
        place: Place,
        cases: Cases,
    },
    /// Tests a condition, at its `if` or `while`.
    Branch {
        place: Place,
        branches: Branches,
    },
    /// Takes variables out of scope.
    Forget {
        forget: Forget,
        next: usize,
    },
    /// Calls a method.
    Call(Calling),
    /// Starts a method.
    Start(Starting),
    /// Ends the method.
    Return(Returning),
    /// The end of a method that should have returned something.
    Stop {
        place: Place,
    },
}

/// The instructions of a method, laid from its end on, and the point at which it begins.
#[derive(Drop)]
pub struct Graph {
    pub instructions: Vec<Instr>,
    pub first: usize,
}
