//! The texts of the faults of checks and runs, and of the pool and the schedules that they use.

use pool::PoolFault;
use replays::ScheduleFault;
use singcheck::{CheckFault, Input, RunFault};
use std::test::Fail;

#[test]
fn a_fault_of_a_run_says_what_it_is(rt: HostRuntime) -> Result<(), Fail> {
    let rows = [
        (RunFault::Read(Input::Schedule), "cannot read"),
        (RunFault::Write, "cannot write"),
        (RunFault::Workers, "workers not 1 to 64"),
        (RunFault::Slots, "slots not 1 to 16777216"),
        (RunFault::Entry, "no such entry"),
        (RunFault::Schedule(3), "malformed line of the schedule"),
        (RunFault::Memory, "out of memory"),
    ];
    for (fault, wanted) in rows.iter() {
        let said = format!(in rt.alloc(); "{fault}")?;
        assert!(rt; said.as_str() == *wanted, "{wanted}");
    }
    Ok(())
}

#[test]
fn a_fault_of_a_check_says_what_it_is(rt: HostRuntime) -> Result<(), Fail> {
    let rows = [
        (CheckFault::Workers, "workers not 1 to 64"),
        (CheckFault::Slots, "slots not 1 to 16777216"),
        (CheckFault::Memory, "out of memory"),
    ];
    for (fault, wanted) in rows.iter() {
        let said = format!(in rt.alloc(); "{fault}")?;
        assert!(rt; said.as_str() == *wanted, "{wanted}");
    }
    Ok(())
}

#[test]
fn a_fault_below_a_run_says_what_it_is(rt: HostRuntime) -> Result<(), Fail> {
    let workers = format!(in rt.alloc(); "{}", PoolFault::Workers)?;
    assert!(rt; workers.as_str() == "workers not 1 to 64");
    let refused = format!(in rt.alloc(); "{}", PoolFault::Memory)?;
    assert!(rt; refused.as_str() == "out of memory");
    let malformed = format!(in rt.alloc(); "{}", ScheduleFault::Malformed(3))?;
    assert!(rt; malformed.as_str() == "malformed line");
    let memory = format!(in rt.alloc(); "{}", ScheduleFault::Memory)?;
    assert!(rt; memory.as_str() == "out of memory");
    Ok(())
}
