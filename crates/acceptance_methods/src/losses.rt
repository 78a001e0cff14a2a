//! Lost blocks of small programs.

use crate::texts::{LOSES_A_PAGE, WAIT_FOR_EACH_OTHER, with_one_contract};
use lost::lost_blocks;
use machine::{Event, World};
use program::MethodId;
use rules::Program;
use std::alloc::Global;
use std::test::Fail;

/// Takes an event of a process, with the choice 0.
fn advance(alloc: Global, program: &Program, world: &mut World, process: u64) -> Result<(), Fail> {
    let event = Event { process, choice: 0 };
    if world.step(alloc, program, event).is_err() {
        return Err(Fail::from("no step"));
    }
    Ok(())
}

#[test]
fn a_queue_keeps_a_block_until_its_end_is_deleted(rt: HostRuntime) -> Result<(), Fail> {
    let alloc = rt.alloc();
    let program = with_one_contract(alloc, LOSES_A_PAGE)?;
    let mut world = World::start(alloc, &program, MethodId(0))?;
    assert!(rt; lost_blocks(alloc, &world)?.is_empty());
    // A new channel, a new page, a send, and the delete of the sender's end.
    for count in [2, 3, 3, 3] {
        advance(alloc, &program, &mut world, 0)?;
        let lost = lost_blocks(alloc, &world)?;
        assert!(rt; lost.len() == count);
        assert!(rt; lost.iter().all(|is_lost| !*is_lost));
    }
    // The delete of the other end, and the end of the process.
    for _ in 0..2 {
        advance(alloc, &program, &mut world, 0)?;
        let lost = lost_blocks(alloc, &world)?;
        assert!(rt; lost.as_slice() == [false, false, true].as_slice());
    }
    Ok(())
}

#[test]
fn what_other_processes_have_is_not_lost(rt: HostRuntime) -> Result<(), Fail> {
    let alloc = rt.alloc();
    let program = with_one_contract(alloc, WAIT_FOR_EACH_OTHER)?;
    let mut world = World::start(alloc, &program, MethodId(0))?;
    // Two channels, two starts, and the end of the first process. The others have all four ends.
    for _ in 0..5 {
        advance(alloc, &program, &mut world, 0)?;
    }
    let lost = lost_blocks(alloc, &world)?;
    assert!(rt; lost.as_slice() == [false, false, false, false].as_slice());
    Ok(())
}
