//! Deadlocks, and searches for them.

ghost use Rattle.std.specs.Prelude.{◌<◌, length};
ghost use Rattle.rules.specs.Programs.{model_of};

use crate::texts::{ANSWERS_AN_ERROR, MAKES_A_CHANNEL, WAIT_FOR_EACH_OTHER, with_one_contract};
use deadlocks::{all_ended, is_deadlock, leads_to_deadlock};
use explore::{Answer, confirm, explore};
use machine::{Event, World};
use program::MethodId;
use rules::Program;
use std::alloc::Global;
use std::test::Fail;

/// The first event of process 0.
const FIRST: Event = Event {
    process: 0,
    choice: 0,
};

/// Returns this many events of process 0, each with the choice 0.
fn firsts(alloc: Global, count: usize) -> Result<Vec<Event>, Fail> {
    let mut events = Vec::new(alloc);
    for _ in 0..count {
        events.push(FIRST)?;
    }
    Ok(events)
}

/// Returns how many worlds a search with this limit has seen, if it has seen all. Fails if it finds a deadlock.
fn count_of(alloc: Global, program: &Program, limit: usize) -> Result<Option<usize>, Fail>
    requires { 0 < length (model_of program.now).methods }
{
    match explore(alloc, program, MethodId(0), limit)? {
        Answer::Whole(count) => Ok(Some(count)),
        Answer::Unknown => Ok(None),
        Answer::Found(_) => Err(Fail::from("a deadlock")),
    }
}

#[test]
fn a_deadlock_is_found_by_the_fewest_events(rt: HostRuntime) -> Result<(), Fail> {
    let alloc = rt.alloc();
    let program = with_one_contract(alloc, WAIT_FOR_EACH_OTHER)?;
    // Two channels, two starts, and the end of the first process. Then both others wait.
    let Answer::Found(events) = explore(alloc, &program, MethodId(0), 100)? else {
        return Err(Fail::from("no deadlock"));
    };
    assert!(rt; events.as_slice() == firsts(alloc, 5)?.as_slice());
    Ok(())
}

#[test]
fn events_lead_to_a_deadlock_or_not(rt: HostRuntime) -> Result<(), Fail> {
    let alloc = rt.alloc();
    let program = with_one_contract(alloc, WAIT_FOR_EACH_OTHER)?;
    for count in 0..7 {
        let events = firsts(alloc, count)?;
        let leads = leads_to_deadlock(alloc, &program, MethodId(0), &events)?;
        assert!(rt; leads == (count == 5));
        let found = matches!(
            confirm(alloc, &program, MethodId(0), events)?,
            Answer::Found(_)
        );
        assert!(rt; found == leads);
    }
    Ok(())
}

#[test]
fn all_worlds_are_counted(rt: HostRuntime) -> Result<(), Fail> {
    let alloc = rt.alloc();
    let program = with_one_contract(alloc, MAKES_A_CHANNEL)?;
    // The first world, and one after the new channel, each of the two deletes, and the end.
    assert!(rt; count_of(alloc, &program, 100)? == Some(5));
    assert!(rt; count_of(alloc, &program, 5)? == Some(5));
    assert!(rt; count_of(alloc, &program, 4)?.is_none());
    assert!(rt; count_of(alloc, &program, 0)?.is_none());
    Ok(())
}

#[test]
fn a_fault_is_no_deadlock(rt: HostRuntime) -> Result<(), Fail> {
    let alloc = rt.alloc();
    let program = with_one_contract(alloc, ANSWERS_AN_ERROR)?;
    // The first world, and one after each event before the fault.
    assert!(rt; count_of(alloc, &program, 100)? == Some(5));
    Ok(())
}

#[test]
fn an_end_is_no_deadlock(rt: HostRuntime) -> Result<(), Fail> {
    let alloc = rt.alloc();
    let program = with_one_contract(alloc, MAKES_A_CHANNEL)?;
    let mut world = World::start(alloc, &program, MethodId(0))?;
    assert!(rt; !all_ended(&world));
    for _ in 0..4 {
        assert!(rt; !is_deadlock(alloc, &program, &world)?);
        if world.step(alloc, &program, FIRST).is_err() {
            return Err(Fail::from("no step"));
        }
    }
    assert!(rt; all_ended(&world));
    assert!(rt; !is_deadlock(alloc, &program, &world)?);
    Ok(())
}
