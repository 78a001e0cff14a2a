//! Worlds in memory.

use crate::heaps::BlockHeap;
use crate::variables::Variables;
use program::{HeapType, MessageId, MethodId, StateId};
use std::collections::VecDeque;

/// Who owns a block.
#[derive(Clone, Copy, Debug, PartialEq, Eq)]
pub enum Owner {
    /// The process of this number.
    Process(usize),
    /// The queue of the endpoint at this address.
    Queue(usize),
    /// The block at this address: one of its owning fields holds it.
    Inside(usize),
    /// The channel: the block was sent to an endpoint that is freed, or was left in the queue of one.
    Channel,
    /// Nobody any more.
    Freed,
}

/// A message in a queue, and the addresses of the blocks that it brings.
#[derive(Drop)]
pub struct Held {
    pub message: MessageId,
    pub payload: Vec<usize>,
}

/// A block. Its peer, state and queue mean something only if it is an endpoint. The front of the queue comes first.
/// Its fields are the addresses that the owning fields of a struct hold, in order.
#[derive(Drop)]
pub struct Block {
    pub ty: HeapType,
    pub owner: Owner,
    pub peer: usize,
    pub state: StateId,
    pub queue: VecDeque<Held>,
    pub fields: Vec<usize>,
}

/// A method at a point, and what its variables of the exchange heap have: the address of a block, or nothing.
#[derive(Drop)]
pub struct Frame {
    pub method: MethodId,
    pub point: usize,
    pub variables: Variables,
}

/// A process: its innermost frame, `None` if it has ended, and those that wait for it, the innermost last.
#[derive(Drop)]
pub struct Process {
    pub top: Option<Frame>,
    pub waiting: Vec<Frame>,
}

/// Processes by their numbers, and blocks by their addresses. Neither a number nor an address is used again.
#[derive(Drop)]
pub struct World {
    pub(crate) processes: Vec<Process>,
    pub(crate) heap: BlockHeap,
}
