//! The blocks that the processes of a world reach.

ghost use Rattle.std.specs.Prelude.{Contains, IfOk, OnOk, Some, map, reverse};
ghost use Rattle.machine.specs.Views.{blocks_model, frame_model, stack_model, variables_model, world_model};
ghost use Rattle.machine.specs.World.{block_at};
ghost use Rattle.lost.specs.Marks.{AddsMarks, AreMarked, BlockHolds, FollowsAll, Have, HaveAny};

use crate::marking::Reach;
use machine::{Block, Frame, Process, Variables, World};
use program::VarId;
use source::Memory;
use std::alloc::Global;

impl Reach {
    /// Marks the blocks whose addresses variables have.
    fn mark_variables(&mut self, variables: &Variables) -> Result<(), Memory>
        ensures { OnOk result (AddsMarks (λ a. Contains (variables_model variables.now) (Some a))
            self.old self.new) }
    {
        for number in 0..variables.len() {
            self.mark_any(variables.has(VarId(number)))?;
        }
        Ok(())
    }

    /// Marks the blocks whose addresses variables of the frames that wait have, of the innermost frame first.
    fn mark_waiting(&mut self, waiting: &[Frame]) -> Result<(), Memory>
        ensures { OnOk result (AddsMarks (Have (map frame_model (reverse waiting.now))) self.old self.new) }
    {
        for done in 0..waiting.len() {
            self.mark_variables(&waiting[waiting.len() - 1 - done].variables)?;
        }
        Ok(())
    }

    /// Marks the blocks whose addresses variables of a process have.
    fn mark_process(&mut self, process: &Process) -> Result<(), Memory>
        ensures { OnOk result (AddsMarks (Have (stack_model process.now)) self.old self.new) }
    {
        match &process.top {
            Some(frame) => {
                self.mark_variables(&frame.variables)?;
                self.mark_waiting(&process.waiting)
            }
            None => Ok(()),
        }
    }

    /// Marks the blocks whose addresses variables of these processes have.
    fn mark_processes(&mut self, processes: &[Process]) -> Result<(), Memory>
        ensures { OnOk result (AddsMarks (HaveAny (map stack_model processes.now)) self.old self.new) }
    {
        for process in processes {
            self.mark_process(process)?;
        }
        Ok(())
    }

    /// Looks into the block at an address, and marks what it holds.
    fn follow(&mut self, blocks: &[Block], address: usize) -> Result<(), Memory>
        ensures { OnOk result (AddsMarks (BlockHolds (block_at (blocks_model blocks.now) address))
            self.old self.new) }
    {
        match blocks.get(address) {
            Some(block) => self.mark_held(block),
            None => Ok(()),
        }
    }

    /// Looks into the pending blocks, until none is left.
    fn follow_all(&mut self, blocks: &[Block]) -> Result<(), Memory>
        ensures { OnOk result (FollowsAll (blocks_model blocks.now) self.old self.new) }
    {
        // OneHas round looks into one block, and each block becomes pending at most once.
        for _round in 0..blocks.len() {
            let Some(address) = self.pending.pop() else {
                return Ok(());
            };
            self.follow(blocks, address)?;
        }
        Ok(())
    }
}

/// Returns for each address whether a process reaches the block there.
pub(crate) fn reached_blocks(alloc: Global, world: &World) -> Result<Vec<bool>, Memory>
    ensures { IfOk result (λ marks. AreMarked (world_model world.now) marks.items) }
{
    let blocks = world.blocks();
    let mut reach = Reach {
        marks: vec![in alloc; false; blocks.len()]?,
        pending: Vec::new(alloc),
    };
    reach.mark_processes(world.processes())?;
    reach.follow_all(blocks)?;
    Ok(reach.marks)
}
