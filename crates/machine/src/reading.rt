//! Reads what is known of blocks.

ghost use Rattle.std.specs.Prelude.{◌≡◌, ◌<◌, IfNone, IfSome, Some, false, length, option_map, slice_get, true};
ghost use Rattle.machine.specs.Answers.{front_of};
ghost use Rattle.machine.specs.Views.{blocks_model};
ghost use Rattle.machine.specs.World.{block_at, cut_off, is_freed_at, is_freed, is_own, is_process, is_queue};

use crate::worlds::{Block, Owner};
use program::{HeapType, MessageId, StateId, StructId};

impl Owner {
    /// Whether the owner is this process.
    pub(crate) fn is_process(self, process: usize) -> bool
        ensures { result ≡ is_process self process }
    {
        match self {
            Owner::Process(of) => of == process,
            Owner::Queue(_) | Owner::Inside(_) | Owner::Channel | Owner::Freed => false,
        }
    }

    /// Whether the owner is the queue of the endpoint at this address.
    pub(crate) fn is_queue(self, end: usize) -> bool
        ensures { result ≡ is_queue self end }
    {
        match self {
            Owner::Queue(of) => of == end,
            Owner::Process(_) | Owner::Inside(_) | Owner::Channel | Owner::Freed => false,
        }
    }

    /// Whether nobody owns the block any more.
    fn is_freed(self) -> bool
        ensures { result ≡ is_freed self }
    {
        match self {
            Owner::Freed => true,
            Owner::Process(_) | Owner::Queue(_) | Owner::Inside(_) | Owner::Channel => false,
        }
    }
}

/// Returns the address if the process owns the block there.
pub(crate) fn own(blocks: &[Block], process: usize, address: Option<usize>) -> Option<usize>
    ensures some { IfSome result (λ a. address ≡ Some a) }
    ensures here { IfSome result (λ a. a < length blocks.now) }
    ensures own { IfSome result (λ a. is_own (blocks_model blocks.now) process address ≡ true) }
    ensures none { IfNone result (is_own (blocks_model blocks.now) process address ≡ false) }
{
    let a = address?;
    let block = blocks.get(a)?;
    if block.owner.is_process(process) {
        Some(a)
    } else {
        None
    }
}

/// Whether the block at an address is freed.
pub(crate) fn is_freed(blocks: &[Block], a: usize) -> bool
    ensures { result ≡ is_freed_at (blocks_model blocks.now) a }
{
    match blocks.get(a) {
        Some(block) => block.owner.is_freed(),
        None => false,
    }
}

/// Returns the peer of an endpoint, 0 if there is no block.
pub fn peer_of(blocks: &[Block], a: usize) -> usize
    ensures { result ≡ (block_at (blocks_model blocks.now) a).peer }
{
    match blocks.get(a) {
        Some(block) => block.peer,
        None => 0,
    }
}

/// Returns the type of the block at an address, struct 0 if there is no block.
pub(crate) fn type_of(blocks: &[Block], a: usize) -> HeapType
    ensures { result ≡ (block_at (blocks_model blocks.now) a).ty }
{
    match blocks.get(a) {
        Some(block) => block.ty,
        None => HeapType::Struct(StructId(0)),
    }
}

/// Returns the state of an endpoint, 0 if there is no block.
pub(crate) fn state_of(blocks: &[Block], a: usize) -> StateId
    ensures { result.0 ≡ (block_at (blocks_model blocks.now) a).state }
{
    match blocks.get(a) {
        Some(block) => block.state,
        None => StateId(0),
    }
}

/// Returns the address in a field of a block. `None` if the block has no such field.
pub(crate) fn field_of(blocks: &[Block], at: usize, field: usize) -> Option<usize>
    ensures { result ≡ slice_get (block_at (blocks_model blocks.now) at).fields field }
{
    let block = blocks.get(at)?;
    block.fields.get(field).copied()
}

/// Returns the number of messages in the queue of an endpoint.
pub(crate) fn queue_length(blocks: &[Block], a: usize) -> usize
    ensures { result ≡ length (block_at (blocks_model blocks.now) a).queue }
{
    match blocks.get(a) {
        Some(block) => block.queue.len(),
        None => 0,
    }
}

/// Whether an endpoint is cut off: its peer is freed and its own queue is empty.
pub(crate) fn is_cut_off(blocks: &[Block], a: usize) -> bool
    ensures { result ≡ cut_off (blocks_model blocks.now) a }
{
    is_freed(blocks, peer_of(blocks, a)) && queue_length(blocks, a) == 0
}

/// Returns the message at the front of the queue of an endpoint. `None` if the queue is empty.
pub(crate) fn front(blocks: &[Block], a: usize) -> Option<MessageId>
    ensures { option_map (λ m. m.0) result ≡ front_of (block_at (blocks_model blocks.now) a).queue }
{
    let held = blocks.get(a)?.queue.front()?;
    Some(held.message)
}
