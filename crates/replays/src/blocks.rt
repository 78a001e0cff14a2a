//! The lines of blocks.

ghost use Rattle.std.specs.Prelude.{◌≡◌, ◌++◌, OnOk, map};
ghost use Rattle.std.specs.Fmt.{decimal};
ghost use Rattle.std.specs.List.{enumerate_from, flat_map, join_with_byte};
ghost use Rattle.machine.specs.Views.{block_model, blocks_model, held_model};
ghost use Rattle.replays.specs.Naming.{words_of};
ghost use Rattle.replays.specs.WorldLines.{block_line, block_text, holds_text, message_text, owner_text, queue_text, state_text};

use crate::naming::Naming;
use crate::texts::{add, add_number, separate};
use machine::{Block, Held, Owner};
use program::{ContractId, HeapType, StateId};
use source::Memory;
use std::collections::VecDeque;

/// Adds who owns a block.
pub(crate) fn add_owner(answer: &mut Vec<u8>, owner: Owner) -> Result<(), Memory>
    ensures { OnOk result (answer.new.items ≡ answer.old.items ++ owner_text owner) }
{
    match owner {
        Owner::Process(number) => {
            add(answer, b"process ")?;
            add_number(answer, number as u64)
        }
        Owner::Queue(address) => {
            add(answer, b"queue ")?;
            add_number(answer, address as u64)
        }
        Owner::Inside(address) => {
            add(answer, b"block ")?;
            add_number(answer, address as u64)
        }
        Owner::Channel => add(answer, b"channel"),
        Owner::Freed => add(answer, b"nobody"),
    }
}

/// Adds addresses, separated by commas.
pub(crate) fn add_addresses(answer: &mut Vec<u8>, addresses: &[usize]) -> Result<(), Memory>
    ensures { OnOk result (answer.new.items ≡ answer.old.items ++ join_with_byte 44 (map decimal addresses.now)) }
{
    for (index, address) in addresses.iter().enumerate() {
        separate(answer, index, b',')?;
        add_number(answer, *address as u64)?;
    }
    Ok(())
}

/// Adds the addresses that the owning fields of a block hold, if there are any, as ` holds [2,3]`.
fn add_fields(answer: &mut Vec<u8>, fields: &[usize]) -> Result<(), Memory>
    ensures { OnOk result (answer.new.items ≡ answer.old.items ++ holds_text fields.now) }
{
    if fields.is_empty() {
        return Ok(());
    }
    add(answer, b" holds [")?;
    add_addresses(answer, fields)?;
    add(answer, b"]")
}

/// Adds a message of a contract and the addresses that it brings, as `M(2,3)`.
fn add_message(
    answer: &mut Vec<u8>,
    naming: &Naming<'_>,
    contract: ContractId,
    held: &Held,
) -> Result<(), Memory>
    ensures { OnOk result (answer.new.items ≡ answer.old.items ++ message_text (words_of naming.now) contract.0 (held_model held.now)) }
{
    add(answer, naming.message_name(contract, held.message))?;
    add(answer, b"(")?;
    add_addresses(answer, &held.payload)?;
    add(answer, b")")
}

/// Adds messages of a contract, separated by spaces.
fn add_messages(
    answer: &mut Vec<u8>,
    naming: &Naming<'_>,
    contract: ContractId,
    queue: &VecDeque<Held>,
) -> Result<(), Memory>
    ensures { OnOk result (answer.new.items ≡ answer.old.items
        ++ join_with_byte 32 (map (message_text (words_of naming.now) contract.0) (map held_model queue.now.items))) }
{
    for index in 0..queue.len() {
        separate(answer, index, b' ')?;
        add_message(answer, naming, contract, &queue[index])?;
    }
    Ok(())
}

/// Adds the state of an endpoint. Adds nothing for other types.
fn add_state(
    answer: &mut Vec<u8>,
    naming: &Naming<'_>,
    ty: HeapType,
    state: StateId,
) -> Result<(), Memory>
    ensures { OnOk result (answer.new.items ≡ answer.old.items ++ state_text (words_of naming.now) ty state.0) }
{
    match ty {
        HeapType::Endpoint { contract, .. } => {
            add(answer, b" ")?;
            add(answer, naming.state_name(contract, state))
        }
        HeapType::Struct(_) | HeapType::Array(_) => Ok(()),
    }
}

/// Adds the queue of an endpoint. Adds nothing for other types.
fn add_queue(answer: &mut Vec<u8>, naming: &Naming<'_>, block: &Block) -> Result<(), Memory>
    ensures { OnOk result (answer.new.items ≡ answer.old.items
        ++ queue_text (words_of naming.now) block.now.ty (map held_model block.now.queue.items)) }
{
    match block.ty {
        HeapType::Endpoint { contract, .. } => {
            add(answer, b" queue [")?;
            add_messages(answer, naming, contract, &block.queue)?;
            add(answer, b"]")
        }
        HeapType::Struct(_) | HeapType::Array(_) => Ok(()),
    }
}

/// Adds what the fields of a block hold, and the queue of an endpoint.
fn add_held(answer: &mut Vec<u8>, naming: &Naming<'_>, block: &Block) -> Result<(), Memory>
    ensures { OnOk result (answer.new.items ≡ answer.old.items ++ (holds_text block.now.fields.items
        ++ queue_text (words_of naming.now) block.now.ty (map held_model block.now.queue.items))) }
{
    add_fields(answer, &block.fields)?;
    add_queue(answer, naming, block)
}

/// Adds what is printed of a block: `freed`, or its owner and what it holds, and of an endpoint its state too.
pub(crate) fn add_told(
    answer: &mut Vec<u8>,
    naming: &Naming<'_>,
    block: &Block,
) -> Result<(), Memory>
    ensures { OnOk result (answer.new.items ≡ answer.old.items
        ++ block_text (words_of naming.now) (block_model block.now) block.now.owner) }
{
    match block.owner {
        Owner::Freed => add(answer, b" freed"),
        owner => {
            add_state(answer, naming, block.ty, block.state)?;
            add(answer, b" owner ")?;
            add_owner(answer, owner)?;
            add_held(answer, naming, block)
        }
    }
}

/// Adds the line of the block at an address.
fn add_block(
    answer: &mut Vec<u8>,
    naming: &Naming<'_>,
    address: usize,
    block: &Block,
) -> Result<(), Memory>
    ensures { OnOk result (answer.new.items ≡ answer.old.items ++ block_line (words_of naming.now) address (block_model block.now)) }
{
    add(answer, b"block ")?;
    add_number(answer, address as u64)?;
    add(answer, b" ")?;
    naming.add_type(answer, block.ty)?;
    add_told(answer, naming, block)?;
    add(answer, b"\n")
}

/// Adds a line for each block.
pub(crate) fn add_blocks(
    answer: &mut Vec<u8>,
    naming: &Naming<'_>,
    blocks: &[Block],
) -> Result<(), Memory>
    ensures { OnOk result (answer.new.items ≡ answer.old.items
        ++ flat_map (λ b. block_line (words_of naming.now) b.0 b.1) (enumerate_from 0 (blocks_model blocks.now))) }
{
    for (address, block) in blocks.iter().enumerate() {
        add_block(answer, naming, address, block)?;
    }
    Ok(())
}
