//! Calls and sends with a number for each variable of the exchange heap.

use crate::number::{MessageId, MethodId};
use crate::statement::Mention;
use source::Place;

/// An argument for a parameter of the exchange heap: the variable, and whether the parameter is claimed.
#[derive(Clone, Copy)]
pub struct Argument {
    pub mention: Mention,
    pub claimed: bool,
}

/// A call of a method, or the start of one.
#[derive(Drop)]
pub struct Call {
    /// The variables that the arguments read, in order of the text.
    pub reads: Vec<Mention>,
    /// The place of the method's name.
    pub place: Place,
    pub method: MethodId,
    /// The arguments for the parameters of the exchange heap, in order.
    pub arguments: Vec<Argument>,
    /// The variable that takes the block that the method gives, if it gives one.
    pub target: Option<Mention>,
    /// What is used after the call if a field or an element takes the scalar that the method gives: what its index
    /// reads, then the variable that it is a part of.
    pub behind: Vec<Mention>,
}

/// A send of a message.
#[derive(Drop)]
pub struct Send {
    /// The variables that the arguments read, in order of the text.
    pub reads: Vec<Mention>,
    /// The place of the word made of `Send` and the name of the message.
    pub place: Place,
    pub endpoint: Mention,
    pub message: MessageId,
    /// The variables given for the parameters of the exchange heap, in order.
    pub payloads: Vec<Mention>,
}
