//! The lines of processes that have not ended.

ghost use Rattle.std.specs.Prelude.{◌≡◌, ◌++◌, [], OnOk, map};
ghost use Rattle.std.specs.List.{enumerate_from, flat_map};
ghost use Rattle.flow.specs.Cases.{first_mentions};
ghost use Rattle.flow.specs.Graphs.{cases_model, instruction_model};
ghost use Rattle.machine.specs.Views.{blocks_model, frame_model, stack_model, world_model};
ghost use Rattle.machine.specs.World.{block_at};
ghost use Rattle.replays.specs.Naming.{words_of};
ghost use Rattle.replays.specs.Remains.{endpoint_text, peer_text, process_waits, waits_line, waits_lines, waits_text};

use crate::blocks::add_owner;
use crate::naming::Naming;
use crate::sites::FrameSite;
use crate::texts::{add, add_number, add_place};
use flow::{Cases, Instr};
use machine::{Block, Owner, Process, World, instruction_at, peer_of, place_of};
use program::Mention;
use source::Memory;

/// Returns the owner of the block at an address, the channel if there is no block.
fn owner_of(blocks: &[Block], a: usize) -> Owner
    ensures { result ≡ (block_at (blocks_model blocks.now) a).owner }
{
    match blocks.get(a) {
        Some(block) => block.owner,
        None => Owner::Channel,
    }
}

/// Adds a peer and who owns it.
fn add_peer(answer: &mut Vec<u8>, blocks: &[Block], peer: usize) -> Result<(), Memory>
    ensures { OnOk result (answer.new.items ≡ answer.old.items ++ peer_text (blocks_model blocks.now) peer) }
{
    add(answer, b"; peer ")?;
    add_number(answer, peer as u64)?;
    add(answer, b", owner ")?;
    add_owner(answer, owner_of(blocks, peer))
}

/// Adds an endpoint on which a frame waits, its peer, and who owns that.
fn add_endpoint(
    answer: &mut Vec<u8>,
    at: &FrameSite<'_>,
    blocks: &[Block],
    x: Mention,
) -> Result<(), Memory>
    ensures { OnOk result (answer.new.items ≡ answer.old.items
        ++ endpoint_text (words_of at.now.naming.now) (blocks_model blocks.now) (frame_model at.now.frame.now) x) }
{
    let end = at.frame.address(x);
    add(answer, b" on ")?;
    add(answer, at.name(x))?;
    add(answer, b" (block ")?;
    add_number(answer, end as u64)?;
    add_peer(answer, blocks, peer_of(blocks, end))?;
    add(answer, b")")
}

/// Adds the endpoints of a switch at which a frame waits.
fn add_endpoints(
    answer: &mut Vec<u8>,
    at: &FrameSite<'_>,
    blocks: &[Block],
    cases: &Cases,
) -> Result<(), Memory>
    ensures { OnOk result (answer.new.items ≡ answer.old.items
        ++ flat_map (endpoint_text (words_of at.now.naming.now) (blocks_model blocks.now) (frame_model at.now.frame.now))
        (first_mentions [] (cases_model cases.now))) }
{
    for x in cases.endpoints() {
        add_endpoint(answer, at, blocks, *x)?;
    }
    Ok(())
}

/// Adds what a frame does at an instruction: at a switch it waits, elsewhere it runs.
fn add_wait(
    answer: &mut Vec<u8>,
    at: &FrameSite<'_>,
    blocks: &[Block],
    instr: &Instr,
) -> Result<(), Memory>
    ensures { OnOk result (answer.new.items ≡ answer.old.items
        ++ waits_text (words_of at.now.naming.now) (blocks_model blocks.now) (frame_model at.now.frame.now) (instruction_model instr.now)) }
{
    match instr {
        Instr::Switch { cases, .. } => {
            add(answer, b"waits")?;
            add_endpoints(answer, at, blocks, cases)
        }
        _ => add(answer, b"runs"),
    }
}

/// Adds the line of a process. Adds nothing if it has ended.
fn add_process(
    answer: &mut Vec<u8>,
    naming: &Naming<'_>,
    blocks: &[Block],
    number: usize,
    process: &Process,
) -> Result<(), Memory>
    ensures { OnOk result (answer.new.items ≡ answer.old.items
        ++ process_waits (words_of naming.now) (blocks_model blocks.now) number (stack_model process.now)) }
{
    let Some(frame) = process.innermost() else {
        return Ok(());
    };
    let Some(instr) = instruction_at(naming.program(), frame) else {
        return Ok(());
    };
    add(answer, b"P")?;
    add_number(answer, number as u64)?;
    add(answer, b" ")?;
    add_place(answer, place_of(instr))?;
    add(answer, b" ")?;
    add_wait(answer, &FrameSite { naming, frame }, blocks, instr)?;
    add(answer, b"\n")
}

/// Adds a line for each process of a world that has not ended: where it is, and on which endpoints it waits.
pub(crate) fn add_waits(
    answer: &mut Vec<u8>,
    naming: &Naming<'_>,
    world: &World,
) -> Result<(), Memory>
    ensures { OnOk result (answer.new.items ≡ answer.old.items ++ waits_lines (words_of naming.now) (world_model world.now)) }
{
    let processes = world.processes();
    let blocks = world.blocks();
    for (number, process) in processes.iter().enumerate() {
        add_process(answer, naming, blocks, number, process)?;
    }
    Ok(())
}
