//! Blocks, with counts of them, so that no step has to go over all blocks.

ghost use Rattle.std.specs.Prelude.{◌≡◌, ◌≢◌, ◌<◌, ◌++◌, ◌∷◌, [], IfErr, IfNone, IfSome, IsFalse, IsTrue, List, OnErr, OnOk};
ghost use Rattle.std.specs.Prelude.{false, length, slice_get, true};
ghost use Rattle.machine.specs.BlockViews.{block_model, blocks_model};
ghost use Rattle.machine.specs.Blocks.{exchanged_block, freed_block, goes_with, new_block, owns_none};
ghost use Rattle.machine.specs.Blocks.{received_block, sent_block, with_new_owner};
ghost use Rattle.machine.specs.Heaps.{AreOnce, AreOwned, AreOwnedBy, IsHeap, of_process};
ghost use Rattle.machine.specs.Once.{heap_once};
ghost use Rattle.machine.specs.World.{MessageHeld, block_at, change_each, owns};

use crate::changing::{count_more, enqueue, hand, hand_one, set_field, set_state, take_front};
use crate::edges::Way;
use crate::freeing::free;
use crate::halts::Refusal;
use crate::reading::field_of;
use crate::worlds::{Block, Held, Owner};
use program::{HeapType, MessageId, StateId};
use std::alloc::{AllocError, Global};
use std::collections::VecDeque;

/// The blocks, by their addresses, and how many of them each process owns, by its number.
#[derive(Drop)]
pub(crate) struct BlockHeap {
    blocks: Vec<Block>,
    counts: Vec<usize>,
    ghost kept: { IsHeap (blocks_model blocks.items) counts.items } by { heap_once _ _ },
}

impl BlockHeap {
    ghost use Rattle.machine.specs.Views.{heap_model};

    /// Returns a heap without blocks.
    pub(crate) fn new(alloc: Global) -> BlockHeap
        ensures { heap_model result ≡ [] }
    {
        BlockHeap {
            blocks: Vec::new(alloc),
            counts: Vec::new(alloc),
        }
    }

    /// Returns the blocks, by their addresses.
    pub(crate) fn blocks(&self) -> &[Block]
        ensures { result.now ≡ self.now.blocks.items }
    {
        &self.blocks
    }

    /// Whether a process owns no block.
    pub(crate) fn owns_none(&self, process: usize) -> bool
        ensures { result ≡ owns_none (heap_model self.now) process }
    {
        process >= self.counts.len() || self.counts[process] == 0
    }

    /// Makes sure that there is a count for a process. Call it before the process is first given a block.
    pub(crate) fn list(&mut self, process: usize) -> Result<(), Refusal>
        ensures same { heap_model self.new ≡ heap_model self.old }
        ensures listed { OnOk result (process < length self.new.counts.items) }
        ensures memory { IfErr result (λ refusal. refusal ≡ Refusal.Memory) }
    {
        while self.counts.len() <= process {
            self.counts.push(0)?;
        }
        Ok(())
    }

    /// Adds a block of a process, whose fields hold the given blocks. These are inside the new block from then on. An
    /// error changes nothing.
    pub(crate) fn add(
        &mut self,
        alloc: Global,
        process: usize,
        ty: HeapType,
        given: &[usize],
    ) -> Result<(), Refusal>
        requires owned { AreOwnedBy (heap_model self.old) process given.now }
        requires once { AreOnce given.now }
        ensures added { OnOk result (heap_model self.new
            ≡ change_each (with_new_owner (Owner.Inside (length (heap_model self.old))) given.now)
            (heap_model self.old) ++ new_block ty process 0 0 given.now ∷ []) }
        ensures same { OnErr result (heap_model self.new ≡ heap_model self.old) }
        ensures memory { IfErr result (λ refusal. refusal ≡ Refusal.Memory) }
    {
        let address = self.blocks.len();
        let fields = Vec::from_slice(alloc, given)?;
        self.list(process)?;
        self.blocks.push(Block {
            ty,
            owner: Owner::Process(process),
            peer: 0,
            state: StateId(0),
            queue: VecDeque::new(alloc),
            fields,
        })?;
        count_more(&mut self.counts, Owner::Process(process));
        let inside = Owner::Inside(address);
        hand(&mut self.blocks, &mut self.counts, given, inside);
        Ok(())
    }

    /// Adds a block of a process, whose queue and fields are empty. An error adds none.
    pub(crate) fn add_alone(&mut self, process: usize, block: Block) -> Result<(), Refusal>
        requires owner { block.owner ≡ Owner.Process process }
        requires empty { block.queue.items ≡ [] }
        requires holds_none { block.fields.items ≡ [] }
        ensures added { OnOk result (heap_model self.new
            ≡ heap_model self.old ++ block_model block ∷ []) }
        ensures same { OnErr result (heap_model self.new ≡ heap_model self.old) }
        ensures memory { IfErr result (λ refusal. refusal ≡ Refusal.Memory) }
    {
        self.list(process)?;
        self.blocks.push(block)?;
        count_more(&mut self.counts, Owner::Process(process));
        Ok(())
    }

    /// Adds two blocks of a process, whose queues and fields are empty. An error adds none.
    pub(crate) fn add_two(
        &mut self,
        process: usize,
        first: Block,
        second: Block,
    ) -> Result<(), Refusal>
        requires owner { first.owner ≡ Owner.Process process }
        requires owner_too { second.owner ≡ Owner.Process process }
        requires empty { first.queue.items ≡ [] }
        requires empty_too { second.queue.items ≡ [] }
        requires holds_none { first.fields.items ≡ [] }
        requires holds_none_too { second.fields.items ≡ [] }
        ensures added { OnOk result (heap_model self.new
            ≡ heap_model self.old ++ block_model first ∷ block_model second ∷ []) }
        ensures same { OnErr result (heap_model self.new ≡ heap_model self.old) }
        ensures memory { IfErr result (λ refusal. refusal ≡ Refusal.Memory) }
    {
        self.list(process)?;
        self.blocks.reserve(2)?;
        self.blocks.push(first)?;
        self.blocks.push(second)?;
        count_more(&mut self.counts, Owner::Process(process));
        count_more(&mut self.counts, Owner::Process(process));
        Ok(())
    }

    /// Frees a block of a process and all that is inside it. The queues of the freed blocks are emptied, and the
    /// blocks that these queues owned go to the channel.
    pub(crate) fn free(&mut self, alloc: Global, a: usize)
        requires owned { of_process (block_at (heap_model self.old) a).owner ≡ true }
        ensures { heap_model self.new
            ≡ change_each (freed_block (goes_with (heap_model self.old) a)) (heap_model self.old) }
    {
        free(alloc, &mut self.blocks, &mut self.counts, a);
    }

    /// Exchanges a block of a process with what a field of another of its blocks holds, and returns the latter.
    /// `None`, with nothing changed, if there is no such field.
    pub(crate) fn exchange(
        &mut self,
        process: usize,
        at: usize,
        field: usize,
        given: usize,
    ) -> Option<usize>
        requires holder { owns (heap_model self.old) process at ≡ true }
        requires given { owns (heap_model self.old) process given ≡ true }
        requires apart { given ≢ at }
        ensures held { result ≡ slice_get (block_at (heap_model self.old) at).fields field }
        ensures exchanged { IfSome result
            (λ held. heap_model self.new
            ≡ change_each (exchanged_block process at field given held) (heap_model self.old)) }
        ensures same { IfNone result (heap_model self.new ≡ heap_model self.old) }
    {
        let held = field_of(&self.blocks, at, field)?;
        set_field(&mut self.blocks, at, field, given);
        let owner = Owner::Process(process);
        hand_one(&mut self.blocks, &mut self.counts, held, owner);
        let inside = Owner::Inside(at);
        hand_one(&mut self.blocks, &mut self.counts, given, inside);
        Some(held)
    }

    /// Gives blocks that processes own to one process.
    pub(crate) fn hand_over(&mut self, given: &[usize], process: usize)
        requires owned { AreOwned (heap_model self.old) given.now }
        requires listed { process < length self.old.counts.items }
        ensures { heap_model self.new
            ≡ change_each (with_new_owner (Owner.Process process) given.now) (heap_model self.old) }
    {
        hand(
            &mut self.blocks,
            &mut self.counts,
            given,
            Owner::Process(process),
        );
    }

    /// Sends blocks that processes own: sets the new state of the endpoint and appends the message to the queue of
    /// its peer. If the peer is freed, the blocks go to the channel. Returns false, with nothing changed, if out of
    /// memory.
    pub(crate) fn send(
        &mut self,
        alloc: Global,
        way: Way,
        message: MessageId,
        given: &[usize],
    ) -> bool
        requires owned { AreOwned (heap_model self.old) given.now }
        requires once { AreOnce given.now }
        requires there { way.gone ≡ false → way.peer < length (heap_model self.old) }
        ensures done { IsTrue result → heap_model self.new
            ≡ change_each (sent_block way.at way.state.0 way.peer way.gone
            record { message = message.0; payload = given.now }) (heap_model self.old) }
        ensures same { IsFalse result → heap_model self.new ≡ heap_model self.old }
    {
        if way.gone {
            hand(&mut self.blocks, &mut self.counts, given, Owner::Channel);
            set_state(&mut self.blocks, way.at, way.state);
            return true;
        }
        let Ok(payload) = Vec::from_slice(alloc, given) else {
            return false;
        };
        if !enqueue(&mut self.blocks, way.peer, Held { message, payload }) {
            return false;
        }
        let queue = Owner::Queue(way.peer);
        hand(&mut self.blocks, &mut self.counts, given, queue);
        set_state(&mut self.blocks, way.at, way.state);
        true
    }

    /// Receives the front of the queue of an endpoint of a process, sets the new state of the endpoint, and gives the
    /// blocks that the message brings to the process. Returns their addresses.
    pub(crate) fn receive(&mut self, at: usize, state: StateId, process: usize) -> Vec<usize>
        requires owned { owns (heap_model self.old) process at ≡ true }
        requires some { 0 < length (block_at (heap_model self.old) at).queue }
        ensures brings { (m : MessageHeld) (ms : List MessageHeld)
            → (block_at (heap_model self.old) at).queue ≡ m ∷ ms → result.items ≡ m.payload }
        ensures received { (m : MessageHeld) (ms : List MessageHeld)
            → (block_at (heap_model self.old) at).queue ≡ m ∷ ms
            → heap_model self.new ≡ change_each (received_block process at state.0 m ms)
            (heap_model self.old) }
    {
        let Held { payload, .. } = take_front(&mut self.blocks, at).unwrap();
        hand(
            &mut self.blocks,
            &mut self.counts,
            &payload,
            Owner::Process(process),
        );
        set_state(&mut self.blocks, at, state);
        payload
    }
}

impl Clone for BlockHeap {
    ghost use Rattle.machine.specs.Views.{heap_model};

    ghost is_clone = { λ h k. heap_model k ≡ heap_model h };

    fn clone(&self) -> Result<BlockHeap, AllocError> {
        Ok(BlockHeap {
            blocks: self.blocks.clone()?,
            counts: self.counts.clone()?,
        })
    }
}
