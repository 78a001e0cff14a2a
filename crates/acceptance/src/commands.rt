//! Command lines, and how a run that gave up ends.

use crate::failing_devices::Page;
use singcheck::{Ask, Input, Lines, Place, RunFault, ask, ending};
use std::alloc::Global;
use std::test::Fail;

const NEVER: u64 = 0;

#[test]
fn ends_with_a_line_and_a_status(rt: HostRuntime) -> Result<(), Fail> {
    let mut read = Page::new(rt.alloc(), 3, NEVER);
    assert!(rt; ending(&RunFault::Read(Input::Text), "a.sg", &mut read) == 3);
    assert!(rt; read.bytes.as_slice() == b"singcheck: cannot read a.sg\n".as_slice());
    let mut write = Page::new(rt.alloc(), 100, NEVER);
    assert!(rt; ending(&RunFault::Write, "a.sg", &mut write) == 3);
    assert!(rt; write.bytes.as_slice() == b"singcheck: cannot write\n".as_slice());
    let mut memory = Page::new(rt.alloc(), 100, NEVER);
    assert!(rt; ending(&RunFault::Memory, "a.sg", &mut memory) == 4);
    assert!(rt; memory.bytes.as_slice() == b"singcheck: out of memory\n".as_slice());
    let mut workers = Page::new(rt.alloc(), 100, NEVER);
    assert!(rt; ending(&RunFault::Workers, "a.sg", &mut workers) == 2);
    assert!(rt; workers.bytes.as_slice() == b"singcheck: workers not 1 to 64\n".as_slice());
    let mut slots = Page::new(rt.alloc(), 100, NEVER);
    assert!(rt; ending(&RunFault::Slots, "a.sg", &mut slots) == 2);
    assert!(rt; slots.bytes.as_slice() == b"singcheck: slots not 1 to 16777216\n".as_slice());
    let mut entry = Page::new(rt.alloc(), 4, NEVER);
    assert!(rt; ending(&RunFault::Entry, "K.None", &mut entry) == 2);
    assert!(rt; entry.bytes.as_slice() == b"singcheck: no entry K.None\n".as_slice());
    let mut line = Page::new(rt.alloc(), 100, NEVER);
    assert!(rt; ending(&RunFault::Schedule(2), "a.sg", &mut line) == 2);
    assert!(rt; line.bytes.as_slice() == b"singcheck: schedule line 2\n".as_slice());
    let mut closed = Page::new(rt.alloc(), 100, 1);
    assert!(rt; ending(&RunFault::Memory, "a.sg", &mut closed) == 4);
    Ok(())
}

#[test]
fn asks_for_the_bounds_of_a_file(rt: HostRuntime) -> Result<(), Fail> {
    let words = ["singcheck", "bounds", "a.sg"];
    let asked = ask(rt.alloc(), words.as_slice())?;
    assert!(rt; asked == Ask::Bounds { file: "a.sg" });
    let unknown = ["singcheck", "bound", "a.sg"];
    assert!(rt; ask(rt.alloc(), unknown.as_slice()).is_err());
    let missing = ["singcheck", "bounds"];
    assert!(rt; ask(rt.alloc(), missing.as_slice()).is_err());
    Ok(())
}

#[test]
fn asks_for_a_check_of_a_file(rt: HostRuntime) -> Result<(), Fail> {
    let both = ["singcheck", "check", "--slots", "7", "a.sg", "--workers=64"];
    let asked = ask(rt.alloc(), both.as_slice())?;
    let numbers = Ask::Check {
        file: "a.sg",
        workers: 64,
        slots: 7,
    };
    assert!(rt; asked == numbers);
    let plain = ["singcheck", "check", "a.sg"];
    let asked = ask(rt.alloc(), plain.as_slice())?;
    let usual = Ask::Check {
        file: "a.sg",
        workers: 4,
        slots: 65_536,
    };
    assert!(rt; asked == usual);
    Ok(())
}

#[test]
fn asks_why(rt: HostRuntime) -> Result<(), Fail> {
    let words = ["singcheck", "why", "a.sg"];
    let asked = ask(rt.alloc(), words.as_slice())?;
    let everything = Ask::Why {
        file: "a.sg",
        named: None,
    };
    assert!(rt; asked == everything);
    let missing = ["singcheck", "why"];
    assert!(rt; ask(rt.alloc(), missing.as_slice()).is_err());
    Ok(())
}

#[test]
fn asks_why_at_a_place(rt: HostRuntime) -> Result<(), Fail> {
    let words = ["singcheck", "why", "a.sg", "12:7"];
    let asked = ask(rt.alloc(), words.as_slice())?;
    let there = Ask::Why {
        file: "a.sg",
        named: Some(Place { line: 12, col: 7 }),
    };
    assert!(rt; asked == there);
    let column_missing = ["singcheck", "why", "a.sg", "12"];
    assert!(rt; ask(rt.alloc(), column_missing.as_slice()).is_err());
    let no_number = ["singcheck", "why", "a.sg", "12:x"];
    assert!(rt; ask(rt.alloc(), no_number.as_slice()).is_err());
    Ok(())
}

/// Returns a replay that prints these events.
fn replay_with<'a>(lines: Lines) -> Ask<'a> {
    Ask::Replay {
        file: "a.sg",
        entry: "K.Main",
        schedule: "a.txt",
        lines,
    }
}

#[test]
fn asks_for_a_replay(rt: HostRuntime) -> Result<(), Fail> {
    let words = ["singcheck", "replay", "a.sg", "K.Main", "a.txt"];
    let asked = ask(rt.alloc(), words.as_slice())?;
    assert!(rt; asked == replay_with(Lines::Silent));
    let missing = ["singcheck", "replay", "a.sg", "K.Main"];
    assert!(rt; ask(rt.alloc(), missing.as_slice()).is_err());
    Ok(())
}

/// Returns whether `replay a.sg K.Main a.txt`, with these words in front and behind, asks for the lines of these events.
fn asks_for_lines(alloc: Global, front: &str, behind: &str, lines: Lines) -> Result<bool, Fail> {
    let words = [
        "singcheck",
        "replay",
        front,
        "a.sg",
        "K.Main",
        "a.txt",
        behind,
    ];
    Ok(ask(alloc, words.as_slice())? == replay_with(lines))
}

#[test]
fn asks_for_a_trace(rt: HostRuntime) -> Result<(), Fail> {
    let behind = ["singcheck", "replay", "a.sg", "K.Main", "a.txt", "--trace"];
    assert!(rt; ask(rt.alloc(), behind.as_slice())? == replay_with(Lines::Notable));
    let within = ["singcheck", "replay", "a.sg", "--all", "K.Main", "a.txt"];
    assert!(rt; ask(rt.alloc(), within.as_slice())? == replay_with(Lines::Everything));
    assert!(rt; asks_for_lines(rt.alloc(), "--all", "--trace", Lines::Everything)?);
    assert!(rt; asks_for_lines(rt.alloc(), "--trace", "--all", Lines::Everything)?);
    Ok(())
}

#[test]
fn refuses_traces_of_other_commands(rt: HostRuntime) -> Result<(), Fail> {
    let run = ["singcheck", "run", "a.sg", "K.Main", "--trace"];
    assert!(rt; ask(rt.alloc(), run.as_slice()).is_err());
    let explore = ["singcheck", "explore", "a.sg", "K.Main", "--all"];
    assert!(rt; ask(rt.alloc(), explore.as_slice()).is_err());
    let missing = ["singcheck", "replay", "a.sg", "K.Main", "--trace"];
    assert!(rt; ask(rt.alloc(), missing.as_slice()).is_err());
    Ok(())
}

#[test]
fn refuses_numbers_that_are_none(rt: HostRuntime) -> Result<(), Fail> {
    let letter = ["singcheck", "check", "a.sg", "--slots", "x"];
    assert!(rt; ask(rt.alloc(), letter.as_slice()).is_err());
    let long = [
        "singcheck",
        "check",
        "a.sg",
        "--workers",
        "18446744073709551616",
    ];
    assert!(rt; ask(rt.alloc(), long.as_slice()).is_err());
    let twice = [
        "singcheck",
        "check",
        "a.sg",
        "--workers",
        "1",
        "--workers",
        "1",
    ];
    assert!(rt; ask(rt.alloc(), twice.as_slice()).is_err());
    Ok(())
}
