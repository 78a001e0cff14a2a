//! Arguments of a call or a start: their tests and their addresses.

ghost use Rattle.std.specs.Prelude.{◌≡◌, ◌∷◌, [], IfErr, IfOk, IfSome, List, MatchOption, OnOk, Some, false, if◌then◌else◌, true, ℕ};
ghost use Rattle.program.specs.Lists.{is_among};
ghost use Rattle.rules.specs.Checks.{AreIn};
ghost use Rattle.machine.specs.Answers.{IsFirstFault, claimed_in};
ghost use Rattle.machine.specs.Blocks.{argument_tests, is_own_still};
ghost use Rattle.machine.specs.Frames as told;
ghost use Rattle.machine.specs.Views.{blocks_model, frame_model};
ghost use Rattle.machine.specs.World.{read};
ghost use Rattle.machine.specs.declared.halts.Fault.TheVariants.{F1, F3};

use crate::halts::{Fault, Refusal};
use crate::reading::own;
use crate::worlds::{Block, Frame};
use program::{Argument, Mention};
use std::alloc::Global;
use std::collections::BTreeSet;

/// Returns the fault of an argument that the process does not own: `F3` if it is claimed, else `F1`.
fn fault_of(argument: Argument) -> Fault
    ensures { result ≡ (if argument.claimed then F3 else F1) }
{
    if argument.claimed {
        Fault::F3
    } else {
        Fault::F1
    }
}

/// Returns the address if the process owns the block there and no earlier argument claimed it.
fn own_still(
    blocks: &[Block],
    process: usize,
    taken: &BTreeSet<usize>,
    address: Option<usize>,
) -> Option<usize>
    ensures some { IfSome result (λ a. address ≡ Some a) }
    ensures own { (listed : List ℕ) → AreIn listed taken.now → MatchOption result
        (is_own_still (blocks_model blocks.now) process listed address ≡ false)
        (λ a. is_own_still (blocks_model blocks.now) process listed address ≡ true) }
{
    let a = own(blocks, process, address)?;
    if taken.contains(&a) {
        return None;
    }
    Some(a)
}

/// Adds the block of an argument to the claimed ones, if the argument is claimed.
fn take(taken: &mut BTreeSet<usize>, argument: Argument, a: usize) -> Result<(), Refusal>
    ensures taken { OnOk result ((listed : List ℕ) → AreIn listed taken.old
        → AreIn (if argument.claimed then a ∷ listed else listed) taken.new) }
    ensures memory { IfErr result (λ refusal. refusal ≡ Refusal.Memory) }
{
    if argument.claimed {
        taken.insert(a)?;
    }
    Ok(())
}

/// Returns the fault of the first argument that fails its test, using a set of the claimed blocks. Its only error is
/// `Memory`, if the set could not grow.
fn first_fault_by_set(
    alloc: Global,
    frame: &Frame,
    blocks: &[Block],
    process: usize,
    arguments: &[Argument],
) -> Result<Option<Fault>, Refusal>
    ensures { IfOk result (λ first. IsFirstFault first
        (argument_tests (blocks_model blocks.now) process (frame_model frame.now).variables [] arguments.now)) }
{
    let mut taken = BTreeSet::new(alloc);
    for argument in arguments {
        let held = frame.has(argument.mention);
        let Some(a) = own_still(blocks, process, &taken, held) else {
            return Ok(Some(fault_of(*argument)));
        };
        take(&mut taken, *argument, a)?;
    }
    Ok(None)
}

/// Whether one of these arguments claims the block at an address.
fn is_claimed(frame: &Frame, arguments: &[Argument], a: usize) -> bool
    ensures { result ≡ is_among (claimed_in (frame_model frame.now).variables [] arguments.now) a }
{
    for argument in arguments {
        if argument.claimed && frame.address(argument.mention) == a {
            return true;
        }
    }
    false
}

/// Whether the process owns the block in a variable, and no earlier argument claims it.
fn is_unclaimed(
    frame: &Frame,
    blocks: &[Block],
    process: usize,
    before: &[Argument],
    v: Mention,
) -> bool
    ensures { result ≡ is_own_still (blocks_model blocks.now) process
        (claimed_in (frame_model frame.now).variables [] before.now) (read (frame_model frame.now).variables v.variable.0) }
{
    match own(blocks, process, frame.has(v)) {
        Some(a) => !is_claimed(frame, before, a),
        None => false,
    }
}

/// Returns the fault of the first argument that fails its test. It compares each argument with all earlier ones, so
/// it never allocates.
fn first_fault_by_scan(
    frame: &Frame,
    blocks: &[Block],
    process: usize,
    arguments: &[Argument],
) -> Option<Fault>
    ensures { IsFirstFault result
        (argument_tests (blocks_model blocks.now) process (frame_model frame.now).variables [] arguments.now) }
{
    for (number, argument) in arguments.iter().enumerate() {
        if !is_unclaimed(
            frame,
            blocks,
            process,
            &arguments[..number],
            argument.mention,
        ) {
            return Some(fault_of(*argument));
        }
    }
    None
}

/// Returns the fault of the first argument that the process does not own or whose block an earlier argument claims.
///
/// A fault takes precedence over `Memory`, so the tests must not fail for lack of memory. A method may have a
/// thousand parameters: a set keeps the time nearly linear in their number. Only if the set cannot grow is each
/// argument compared with all earlier ones.
pub(crate) fn first_fault(
    alloc: Global,
    frame: &Frame,
    blocks: &[Block],
    process: usize,
    arguments: &[Argument],
) -> Option<Fault>
    ensures { IsFirstFault result
        (argument_tests (blocks_model blocks.now) process (frame_model frame.now).variables [] arguments.now) }
{
    match first_fault_by_set(alloc, frame, blocks, process, arguments) {
        Ok(first) => first,
        Err(_) => first_fault_by_scan(frame, blocks, process, arguments),
    }
}

/// Returns the addresses in the variables of the arguments, in order.
pub(crate) fn addresses(
    alloc: Global,
    frame: &Frame,
    arguments: &[Argument],
) -> Result<Vec<usize>, Refusal>
    ensures value { IfOk result (λ given. given.items ≡ told.addresses (frame_model frame.now).variables arguments.now) }
    ensures memory { IfErr result (λ refusal. refusal ≡ Refusal.Memory) }
{
    let mut given = Vec::new(alloc);
    for argument in arguments {
        given.push(frame.address(argument.mention))?;
    }
    Ok(given)
}
