//! Changes of blocks and of the counts of blocks that each process owns.

ghost use Rattle.std.specs.Prelude.{◌≡◌, ◌+◌, ◌<◌, ◌^◌, IsFalse, IsTrue, List, Some, [], ◌∷◌, get_or, length, map, option_map, true, ℕ};
ghost use Rattle.machine.specs.Answers.{in_state, left_in, with_message, with_field};
ghost use Rattle.machine.specs.Blocks.{with_new_owner};
ghost use Rattle.machine.specs.Heaps.{IsCounted, IsListed, brings, one_if};
ghost use Rattle.machine.specs.BlockViews.{blocks_model, held_model};
ghost use Rattle.machine.specs.World.{MessageHeld, block_at, change_each, is_process};

use crate::worlds::{Block, Held, Owner};
use program::StateId;
use std::alloc::Global;
use std::collections::VecDeque;
use std::mem::replace;

/// Takes one off the count of an owner, if it is a process.
fn count_less(counts: &mut Vec<usize>, owner: Owner)
    requires some { (q : ℕ) → is_process owner q ≡ true → 0 < get_or counts.old.items q 0 }
    ensures less { (q : ℕ) → get_or counts.new.items q 0 + one_if (is_process owner q) ≡ get_or counts.old.items q 0 }
    ensures listed { length counts.new.items ≡ length counts.old.items }
{
    if let Owner::Process(q) = owner {
        counts[q] -= 1;
    }
}

/// Adds one to the count of an owner, if it is a process.
pub(crate) fn count_more(counts: &mut Vec<usize>, owner: Owner)
    requires listed { IsListed counts.old.items owner }
    requires room { (q : ℕ) → get_or counts.old.items q 0 < 2 ^ 63 }
    ensures more { (q : ℕ) → get_or counts.new.items q 0 ≡ get_or counts.old.items q 0 + one_if (is_process owner q) }
    ensures listed { length counts.new.items ≡ length counts.old.items }
{
    if let Owner::Process(q) = owner {
        counts[q] += 1;
    }
}

/// Gives a block to an owner and updates the counts. Does nothing if there is no such block.
pub(crate) fn hand_one(blocks: &mut Vec<Block>, counts: &mut Vec<usize>, a: usize, to: Owner)
    requires counted { IsCounted (blocks_model blocks.old.items) counts.old.items }
    requires listed { IsListed counts.old.items to }
    ensures handed { blocks_model blocks.new.items ≡ change_each (with_new_owner to (a ∷ [])) (blocks_model blocks.old.items) }
    ensures counted { IsCounted (blocks_model blocks.new.items) counts.new.items }
    ensures listed { length counts.new.items ≡ length counts.old.items }
{
    if a < blocks.len() {
        let from = blocks[a].owner;
        blocks[a].owner = to;
        count_less(counts, from);
        count_more(counts, to);
    }
}

/// Gives these blocks to an owner and updates the counts.
pub(crate) fn hand(blocks: &mut Vec<Block>, counts: &mut Vec<usize>, given: &[usize], to: Owner)
    requires counted { IsCounted (blocks_model blocks.old.items) counts.old.items }
    requires listed { IsListed counts.old.items to }
    ensures handed { blocks_model blocks.new.items ≡ change_each (with_new_owner to given.now) (blocks_model blocks.old.items) }
    ensures counted { IsCounted (blocks_model blocks.new.items) counts.new.items }
    ensures listed { length counts.new.items ≡ length counts.old.items }
{
    for a in given {
        hand_one(blocks, counts, *a, to);
    }
}

/// Gives the blocks that these messages bring to the channel.
pub(crate) fn lose(blocks: &mut Vec<Block>, counts: &mut Vec<usize>, queue: &VecDeque<Held>)
    requires counted { IsCounted (blocks_model blocks.old.items) counts.old.items }
    ensures lost { blocks_model blocks.new.items
        ≡ change_each (with_new_owner Owner.Channel (brings (map held_model queue.now.items))) (blocks_model blocks.old.items) }
    ensures counted { IsCounted (blocks_model blocks.new.items) counts.new.items }
{
    for number in 0..queue.len() {
        hand(blocks, counts, &queue[number].payload, Owner::Channel);
    }
}

/// Sets the state of an endpoint.
pub(crate) fn set_state(blocks: &mut Vec<Block>, a: usize, state: StateId)
    ensures { blocks_model blocks.new.items ≡ change_each (in_state a state.0) (blocks_model blocks.old.items) }
{
    if a < blocks.len() {
        blocks[a].state = state;
    }
}

/// Replaces the address in a field of a block.
pub(crate) fn set_field(blocks: &mut Vec<Block>, at: usize, field: usize, given: usize)
    requires there { at < length blocks.old.items }
    requires field { field < length (block_at (blocks_model blocks.old.items) at).fields }
    ensures { blocks_model blocks.new.items ≡ change_each (with_field at field given) (blocks_model blocks.old.items) }
{
    blocks[at].fields[field] = given;
}

/// Appends a message to the queue of an endpoint. Returns false, with no block changed, if out of memory.
pub(crate) fn enqueue(blocks: &mut Vec<Block>, to: usize, held: Held) -> bool
    ensures done { IsTrue result
        → blocks_model blocks.new.items ≡ change_each (with_message to (held_model held)) (blocks_model blocks.old.items) }
    ensures same { IsFalse result → blocks_model blocks.new.items ≡ blocks_model blocks.old.items }
{
    if to < blocks.len() {
        return blocks[to].queue.push_back(held).is_ok();
    }
    true
}

/// Removes and returns the front of the queue of an endpoint. `None` if the queue is empty.
pub(crate) fn take_front(blocks: &mut Vec<Block>, at: usize) -> Option<Held>
    ensures taken { (m : MessageHeld) (ms : List MessageHeld) → (block_at (blocks_model blocks.old.items) at).queue ≡ m ∷ ms →
        option_map held_model result ≡ Some m }
    ensures left { (m : MessageHeld) (ms : List MessageHeld) → (block_at (blocks_model blocks.old.items) at).queue ≡ m ∷ ms →
        blocks_model blocks.new.items ≡ change_each (left_in at ms) (blocks_model blocks.old.items) }
{
    if at < blocks.len() {
        return blocks[at].queue.pop_front();
    }
    None
}

/// Empties the queue of an endpoint and returns what was in it.
pub(crate) fn take_queue(alloc: Global, blocks: &mut Vec<Block>, at: usize) -> VecDeque<Held>
    ensures taken { map held_model result.items ≡ (block_at (blocks_model blocks.old.items) at).queue }
    ensures left { blocks_model blocks.new.items ≡ change_each (left_in at []) (blocks_model blocks.old.items) }
{
    let mut queue = VecDeque::new(alloc);
    if at < blocks.len() {
        queue = replace(&mut blocks[at].queue, queue);
    }
    queue
}
