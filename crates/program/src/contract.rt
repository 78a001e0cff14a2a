//! Contracts in which every name is a number.

ghost use Rattle.std.specs.Prelude.{◌≡◌, string_bytes};

use crate::number::{MessageId, StateId};
use source::Place;

/// The direction of a message, seen from the exporter.
#[derive(Clone, Copy, Debug, PartialEq, Eq)]
pub enum Direction {
    In,
    Out,
}

/// Whether the exporter sends (`!`) or receives (`?`).
#[derive(Clone, Copy, Debug, PartialEq, Eq)]
pub enum Sign {
    Send,
    Receive,
}

/// The contracts that a text declares, in order.
#[derive(Drop)]
pub struct Resolved {
    pub contracts: Vec<Contract>,
}

/// A contract: its messages and states in order of the text, the first state, and its edges in order of the text.
/// The names of its states are in one text, so no name takes memory of its own.
#[derive(Drop)]
pub struct Contract {
    pub name: String,
    pub first: StateId,
    pub state_names: String,
    pub states: Vec<State>,
    pub messages: Vec<Message>,
    pub edges: Vec<Edge>,
}

/// A state. `name` is the part of the names of states that it is printed as: its name, or for an unnamed state the
/// message of its edge in parentheses.
#[derive(Clone, Copy)]
pub struct State {
    pub id: StateId,
    pub name: Part,
    pub place: Place,
}

/// Bytes of a text: the first, and the one after the last, both counted from 0.
#[derive(Clone, Copy)]
pub struct Part {
    pub start: usize,
    pub end: usize,
}

impl Contract {
    ghost use Rattle.program.specs.Parts.{state_model};

    /// Returns how a state of the contract is printed, or an empty slice if its name is not within the names of states.
    pub fn state_name(&self, state: State) -> &[u8]
        ensures { result.now ≡ (state_model (string_bytes self.now.state_names) state).name }
    {
        let names = self.state_names.as_bytes();
        names.get(state.name.start..state.name.end).unwrap_or(&[])
    }
}

/// A message and its direction.
#[derive(Drop)]
pub struct Message {
    pub id: MessageId,
    pub name: String,
    pub direction: Direction,
}

/// An edge: the state where it begins, its message and sign as they are written, the state where it ends, and the
/// place of its message.
#[derive(Clone, Copy, Debug, PartialEq, Eq)]
pub struct Edge {
    pub from: StateId,
    pub message: MessageId,
    pub sign: Sign,
    pub to: StateId,
    pub place: Place,
}
