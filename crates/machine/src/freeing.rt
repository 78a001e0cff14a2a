//! Frees a block with all that is inside it, through any number of blocks, without allocating and without recursion.

ghost use Rattle.std.specs.Prelude.{◌≡◌, ◌<◌, IfNone, IfSome, [], length, true};
ghost use Rattle.machine.specs.BlockViews.{blocks_model};
ghost use Rattle.machine.specs.Blocks.{freed_block, goes_with};
ghost use Rattle.machine.specs.Freeing.{IsPopped, IsStep, freed_one};
ghost use Rattle.machine.specs.Heaps.{QueuesBring, IsCounted, FieldsHold, of_process};
ghost use Rattle.machine.specs.World.{block_at, change_each};

use crate::changing::{hand_one, lose, take_queue};
use crate::worlds::{Block, Owner};
use std::alloc::Global;

/// Removes and returns the last address in the fields of a block.
fn pop_field(blocks: &mut Vec<Block>, x: usize) -> Option<usize>
    requires there { x < length blocks.old.items }
    ensures some { IfSome result (IsPopped (blocks_model blocks.old.items) (blocks_model blocks.new.items) x) }
    ensures none { IfNone result ((block_at (blocks_model blocks.old.items) x).fields ≡ []) }
    ensures same { IfNone result (blocks_model blocks.new.items ≡ blocks_model blocks.old.items) }
{
    blocks[x].fields.pop()
}

/// Frees one block, whose fields hold nothing. Its queue is emptied, and the blocks that the queue owned go to the channel.
fn free_one(alloc: Global, blocks: &mut Vec<Block>, counts: &mut Vec<usize>, x: usize)
    requires counted { IsCounted (blocks_model blocks.old.items) counts.old.items }
    requires brought { QueuesBring (blocks_model blocks.old.items) }
    requires empty { (block_at (blocks_model blocks.old.items) x).fields ≡ [] }
    ensures freed { blocks_model blocks.new.items ≡ change_each (freed_one x) (blocks_model blocks.old.items) }
    ensures counted { IsCounted (blocks_model blocks.new.items) counts.new.items }
{
    let queue = take_queue(alloc, blocks, x);
    lose(blocks, counts, &queue);
    hand_one(blocks, counts, x, Owner::Freed);
}

/// Removes the last field of a block and returns the address in it. If the fields hold nothing, it frees the block
/// and returns the block that it was inside, `None` if it was inside none.
fn free_step(
    alloc: Global,
    blocks: &mut Vec<Block>,
    counts: &mut Vec<usize>,
    x: usize,
) -> Option<usize>
    requires there { x < length blocks.old.items }
    requires counted { IsCounted (blocks_model blocks.old.items) counts.old.items }
    requires brought { QueuesBring (blocks_model blocks.old.items) }
    ensures steps { IsStep (blocks_model blocks.old.items) (blocks_model blocks.new.items) x result }
    ensures counted { IsCounted (blocks_model blocks.new.items) counts.new.items }
{
    if let Some(inner) = pop_field(blocks, x) {
        return Some(inner);
    }
    let owner = blocks[x].owner;
    free_one(alloc, blocks, counts, x);
    match owner {
        Owner::Inside(outer) => Some(outer),
        Owner::Process(_) | Owner::Queue(_) | Owner::Channel | Owner::Freed => None,
    }
}

/// Frees a block of a process and all that is inside it.
pub(crate) fn free(alloc: Global, blocks: &mut Vec<Block>, counts: &mut Vec<usize>, a: usize)
    requires counted { IsCounted (blocks_model blocks.old.items) counts.old.items }
    requires brought { QueuesBring (blocks_model blocks.old.items) }
    requires held { FieldsHold (blocks_model blocks.old.items) }
    requires owned { of_process (block_at (blocks_model blocks.old.items) a).owner ≡ true }
    ensures freed { blocks_model blocks.new.items
        ≡ change_each (freed_block (goes_with (blocks_model blocks.old.items) a)) (blocks_model blocks.old.items) }
    ensures counted { IsCounted (blocks_model blocks.new.items) counts.new.items }
    ensures brought { QueuesBring (blocks_model blocks.new.items) }
{
    let mut at = Some(a);
    'way: while let Some(x) = at {
        at = free_step(alloc, blocks, counts, x);
    }
}
