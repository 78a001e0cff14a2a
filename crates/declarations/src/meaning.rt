//! What the names in the edges of a contract mean.

ghost use Rattle.std.specs.Prelude.{◌≡◌, []};
ghost use Rattle.declarations.specs.Listed.{asked_message, asked_state};
ghost use Rattle.declarations.specs.Resolution.{edge_between};

use crate::members::Declared;
use program::{Edge, MessageId, StateId};
use source::Span;

/// The declarations of a contract, and how its messages and states are numbered.
#[derive(Clone, Copy)]
pub(crate) struct Meaning<'a, 't> {
    pub(crate) text: &'a [u8],
    pub(crate) declared: &'a Declared<'t>,
    /// The numbers of messages and of states before those of this contract in the text.
    pub(crate) messages_before: u32,
    pub(crate) states_before: u32,
    /// The indices of its named states among all of its states, in order.
    pub(crate) named: &'a [usize],
}

impl Meaning<'_, '_> {
    ghost use Rattle.declarations.specs.Meant.{IsMeaning, meanings, message_names, state_names, text_of};

    /// Returns the number of the message of this name.
    fn message(&self, name: Span) -> u32
        requires meaning { IsMeaning self.now }
        requires declared { asked_message (text_of self.now) (message_names self.now) name ≡ [] }
        ensures { result ≡ (meanings self.now).message name }
    {
        let place = self.declared.messages.find(name.slice(self.text)).unwrap();
        self.messages_before + place as u32
    }

    /// Returns the number of the state of this name.
    pub(crate) fn state(&self, name: Span) -> u32
        requires meaning { IsMeaning self.now }
        requires declared { asked_state (text_of self.now) (state_names self.now) name ≡ [] }
        ensures { result ≡ (meanings self.now).state name }
    {
        let index = self.declared.states.find(name.slice(self.text)).unwrap();
        self.states_before + self.named[index] as u32
    }

    /// Returns an edge between the states with these numbers.
    pub(crate) fn edge(&self, from: u32, edge: tree::Edge, to: u32) -> Edge
        requires meaning { IsMeaning self.now }
        requires declared { asked_message (text_of self.now) (message_names self.now) edge.message ≡ [] }
        ensures { result ≡ edge_between (meanings self.now) from edge to }
    {
        Edge {
            from: StateId(from),
            message: MessageId(self.message(edge.message)),
            sign: edge.sign,
            to: StateId(to),
            place: edge.message.place,
        }
    }
}
