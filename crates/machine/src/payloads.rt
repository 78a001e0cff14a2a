//! The payload of a message, or what the fields of a new block are given.

ghost use Rattle.std.specs.Prelude.{◌≡◌, [], IfOk, IsFalse, IsTrue, Some};
ghost use Rattle.program.specs.Lists.{is_among};
ghost use Rattle.machine.specs.Answers.{IsFirstFault, Pass, claimed_in};
ghost use Rattle.machine.specs.Blocks.{argument_tests, is_own_still};
ghost use Rattle.machine.specs.Frames.{addresses, payloads_claimed};
ghost use Rattle.machine.specs.Views.{StillTakes, blocks_model, frame_model, variables_model};
ghost use Rattle.machine.specs.World.{let_go, read};
ghost use Rattle.machine.specs.declared.halts.Fault.TheVariants.{F3};

use crate::reading::own;
use crate::variables::Variables;
use crate::worlds::{Block, Frame};
use program::Mention;
use std::alloc::{AllocError, Global};

/// Whether one of these payloads is the block at an address.
fn is_sent(frame: &Frame, payloads: &[Mention], a: usize) -> bool
    ensures { result ≡ is_among (claimed_in (frame_model frame.now).variables [] (payloads_claimed payloads.now)) a }
{
    for mention in payloads {
        if frame.address(*mention) == a {
            return true;
        }
    }
    false
}

/// Whether the process owns the block in a variable, and no earlier payload is the same block.
fn is_unsent(
    frame: &Frame,
    blocks: &[Block],
    process: usize,
    before: &[Mention],
    v: Mention,
) -> bool
    ensures { result ≡ is_own_still (blocks_model blocks.now) process
        (claimed_in (frame_model frame.now).variables [] (payloads_claimed before.now))
        (read (frame_model frame.now).variables v.variable.0) }
{
    match own(blocks, process, frame.has(v)) {
        Some(a) => !is_sent(frame, before, a),
        None => false,
    }
}

/// Whether the process owns the block of each payload, and no two are the same.
///
/// A message has few payloads and a struct few owning fields, so each is compared with all earlier ones. That never
/// allocates: a fault takes precedence over `Memory`.
pub(crate) fn are_unsent(
    frame: &Frame,
    blocks: &[Block],
    process: usize,
    payloads: &[Mention],
) -> bool
    ensures pass { IsTrue result → Pass
        (argument_tests (blocks_model blocks.now) process (frame_model frame.now).variables [] (payloads_claimed payloads.now)) }
    ensures fault { IsFalse result → IsFirstFault (Some F3)
        (argument_tests (blocks_model blocks.now) process (frame_model frame.now).variables [] (payloads_claimed payloads.now)) }
{
    for (number, mention) in payloads.iter().enumerate() {
        if !is_unsent(frame, blocks, process, &payloads[..number], *mention) {
            return false;
        }
    }
    true
}

/// Returns the addresses in the variables that are given with a message or for a new block, in order.
///
/// # Errors
/// If out of memory.
pub fn payload_addresses(
    alloc: Global,
    frame: &Frame,
    payloads: &[Mention],
) -> Result<Vec<usize>, AllocError>
    ensures value { IfOk result (λ given. given.items ≡ addresses (frame_model frame.now).variables (payloads_claimed payloads.now)) }
{
    let mut given = Vec::new(alloc);
    for mention in payloads {
        given.push(frame.address(*mention))?;
    }
    Ok(given)
}

/// Empties the variables of the payloads, since a message or a new block claims all that it is given.
pub(crate) fn lets_payloads_go(variables: &mut Variables, payloads: &[Mention])
    ensures gone { variables_model variables.new ≡ let_go (variables_model variables.old) (payloads_claimed payloads.now) }
    ensures still { StillTakes variables.old variables.new }
{
    for mention in payloads {
        variables.put(mention.variable, None);
    }
}
