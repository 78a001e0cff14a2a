//! Marks of blocks that processes reach.

ghost use Rattle.std.specs.Prelude.{◌≡◌, Contains, OnOk, Some, get_or, map, true};
ghost use Rattle.machine.specs.Views.{block_model, held_model};
ghost use Rattle.lost.specs.Marks.{AddsMarks, BlockHolds, Brings};

use machine::{Block, Held};
use source::Memory;
use std::collections::VecDeque;

/// A mark for each address of a block that is known to be reached, and the addresses whose blocks were marked but not
/// looked into yet. OneHas address becomes pending at most once, when it is marked.
#[derive(Drop)]
pub(crate) struct Reach {
    pub(crate) marks: Vec<bool>,
    pub(crate) pending: Vec<usize>,
}

impl Reach {
    /// Whether the block at an address is marked, or there is none.
    fn is_known(&self, address: usize) -> bool
        ensures { result ≡ get_or self.now.marks.items address true }
    {
        match self.marks.get(address) {
            Some(mark) => *mark,
            None => true,
        }
    }

    /// Marks the block at an address, if there is one.
    pub(crate) fn mark(&mut self, address: usize) -> Result<(), Memory>
        ensures { OnOk result (AddsMarks (λ a. address ≡ a) self.old self.new) }
    {
        if self.is_known(address) {
            return Ok(());
        }
        self.marks[address] = true;
        self.pending.push(address)?;
        Ok(())
    }

    /// Marks the block at the address that a variable has, if it has one.
    pub(crate) fn mark_any(&mut self, has: Option<usize>) -> Result<(), Memory>
        ensures { OnOk result (AddsMarks (λ a. has ≡ Some a) self.old self.new) }
    {
        match has {
            Some(address) => self.mark(address),
            None => Ok(()),
        }
    }

    /// Marks the blocks at these addresses.
    fn mark_all(&mut self, addresses: &[usize]) -> Result<(), Memory>
        ensures { OnOk result (AddsMarks (Contains addresses.now) self.old self.new) }
    {
        for address in addresses {
            self.mark(*address)?;
        }
        Ok(())
    }

    /// Marks the blocks that the messages of a queue bring.
    fn mark_queue(&mut self, queue: &VecDeque<Held>) -> Result<(), Memory>
        ensures { OnOk result (AddsMarks (Brings (map held_model queue.now.items)) self.old self.new) }
    {
        for index in 0..queue.len() {
            self.mark_all(&queue[index].payload)?;
        }
        Ok(())
    }

    /// Marks the blocks that the fields of a block hold, and those that the messages of its queue bring.
    pub(crate) fn mark_held(&mut self, block: &Block) -> Result<(), Memory>
        ensures { OnOk result (AddsMarks (BlockHolds (block_model block.now)) self.old self.new) }
    {
        self.mark_all(&block.fields)?;
        self.mark_queue(&block.queue)
    }
}
