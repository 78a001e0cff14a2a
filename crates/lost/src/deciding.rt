//! Which blocks are lost.

ghost use Rattle.std.specs.Prelude.{◌≡◌, ◌<◌, ℕ, IfOk, false, get_or, length, true};
ghost use Rattle.machine.specs.Views.{blocks_model, world_model};
ghost use Rattle.machine.specs.World.{block_at, is_freed};
ghost use Rattle.lost.specs.Lost.{IsLost};
ghost use Rattle.lost.specs.Marks.{is_unreached};

use crate::reaching::reached_blocks;
use machine::{Block, Owner, World};
use source::Memory;
use std::alloc::Global;

/// Whether nobody owns a block any more.
fn is_freed(owner: Owner) -> bool
    ensures { result ≡ is_freed owner }
{
    match owner {
        Owner::Freed => true,
        Owner::Process(_) | Owner::Queue(_) | Owner::Inside(_) | Owner::Channel => false,
    }
}

/// Returns for each address whether the block there is neither freed nor marked.
fn unreached_blocks(alloc: Global, blocks: &[Block], marks: &[bool]) -> Result<Vec<bool>, Memory>
    requires long { length marks.now ≡ length blocks.now }
    ensures long { IfOk result (λ lost. length lost.items ≡ length blocks.now) }
    ensures each { IfOk result (λ lost. (a : ℕ) → a < length blocks.now → get_or lost.items a false
        ≡ is_unreached (block_at (blocks_model blocks.now) a) (get_or marks.now a false)) }
{
    let mut lost = Vec::with_capacity(alloc, blocks.len())?;
    for (address, block) in blocks.iter().enumerate() {
        lost.push(!is_freed(block.owner) && !marks[address])?;
    }
    Ok(lost)
}

/// Returns for each address whether the block there is lost: it is not freed, and no process can reach it any more.
/// A process reaches what the variables of its frames have, what the fields of a reached block hold, and what the
/// messages in the queue of a reached endpoint bring.
///
/// # Errors
/// `Memory` if out of memory.
pub fn lost_blocks(alloc: Global, world: &World) -> Result<Vec<bool>, Memory>
    ensures long { IfOk result (λ lost. length lost.items ≡ length (world_model world.now).blocks) }
    ensures right { IfOk result (λ lost. (a : ℕ) → get_or lost.items a false ≡ true
        → IsLost (world_model world.now) a) }
    ensures all { IfOk result (λ lost. (a : ℕ) → IsLost (world_model world.now) a
        → get_or lost.items a false ≡ true) }
{
    let marks = reached_blocks(alloc, world)?;
    unreached_blocks(alloc, world.blocks(), &marks)
}
