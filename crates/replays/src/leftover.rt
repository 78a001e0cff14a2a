//! The lines of blocks that are not freed.

ghost use Rattle.std.specs.Prelude.{◌≡◌, ◌++◌, OnOk, false, get_or};
ghost use Rattle.machine.specs.Views.{block_model, blocks_model};
ghost use Rattle.replays.specs.Naming.{words_of};
ghost use Rattle.replays.specs.Remains.{left_lines, owned_line};

use crate::blocks::add_told;
use crate::naming::Naming;
use crate::texts::{add, add_number};
use machine::{Block, Owner};
use source::Memory;

/// Adds the line of the block at an address, and whether it is lost. Adds nothing if it is freed.
fn add_owned(
    answer: &mut Vec<u8>,
    naming: &Naming<'_>,
    address: usize,
    block: &Block,
    is_lost: bool,
) -> Result<(), Memory>
    ensures { OnOk result (answer.new.items ≡ answer.old.items
        ++ owned_line (words_of naming.now) address (block_model block.now) is_lost block.now.owner) }
{
    if block.owner == Owner::Freed {
        return Ok(());
    }
    add(answer, b"block ")?;
    add_number(answer, address as u64)?;
    add(answer, b" ")?;
    naming.add_type(answer, block.ty)?;
    add_told(answer, naming, block)?;
    if is_lost {
        add(answer, b", lost")?;
    }
    add(answer, b"\n")
}

/// Returns whether the block at an address is lost, given which ones are.
fn is_lost_at(lost: &[bool], address: usize) -> bool
    ensures { result ≡ get_or lost.now address false }
{
    match lost.get(address) {
        Some(is_lost) => *is_lost,
        None => false,
    }
}

/// Adds a line for each block that is not freed. Which blocks are lost is given by their addresses.
pub(crate) fn add_left(
    answer: &mut Vec<u8>,
    naming: &Naming<'_>,
    blocks: &[Block],
    lost: &[bool],
) -> Result<(), Memory>
    ensures { OnOk result (answer.new.items ≡ answer.old.items ++ left_lines (words_of naming.now) (blocks_model blocks.now) lost.now) }
{
    for (address, block) in blocks.iter().enumerate() {
        add_owned(answer, naming, address, block, is_lost_at(lost, address))?;
    }
    Ok(())
}
