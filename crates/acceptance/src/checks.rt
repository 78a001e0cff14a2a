//! Whole checks on worked texts, and on devices and memory that fail.

use crate::failing_devices::{Card, Page, Text};
use crate::texts::{
    CLAIMED_TWICE, FREED_IN_A_LOOP, FREED_ON_BOTH_WAYS, FREED_ON_ONE_WAY, FREED_TWICE, HANDED_ON,
    KEPT_AT_A_BREAK, NOTHING_GIVEN,
};
use singcheck::laws::one_check;
use singcheck::{Counted, Input, Open, RunFault, Status, run_check};
use std::sync::Wait;
use std::test::Fail;
use std::thread::Threads;

const NEVER: u64 = 0;

const FREED_TWICE_ANSWER: &str = "1:104 A01 p not owned\nfindings: 1\n";

const HANDED_ON_ANSWER: &str = "ok: 0 contracts, 2 methods\n";

/// Returns the status of a check of this text, and what it writes.
fn answer_to<R: Threads + Wait + AllocGlobal + Sync>(
    rt: &R,
    text: &str,
    workers: usize,
) -> Result<(Status, Vec<u8>), Fail> {
    let mut reader = Counted::new(text.as_bytes());
    let mut writer = Counted::new(Vec::new(rt.alloc()));
    let status = run_check(rt, &mut reader, &mut writer, workers, 65_536, &Open)?;
    Ok((status, writer.device))
}

#[test]
fn checks_as_worked_out(rt: HostRuntime) -> Result<(), Fail> {
    let rows = [
        ("", Status::Empty, "ok: 0 contracts, 0 methods\n"),
        (HANDED_ON, Status::Empty, HANDED_ON_ANSWER),
        (FREED_TWICE, Status::Found, FREED_TWICE_ANSWER),
        (
            "class K { static void F() { k = 1; } }",
            Status::Found,
            "1:29 N02 k unknown\nfindings: 1\n",
        ),
        (
            "contract A { in message X(); state S: X! -> T; state T: ; }",
            Status::Found,
            "1:39 C01 X against its direction\nfindings: 1\n",
        ),
        (
            "class K {",
            Status::Found,
            "1:10 S05 unexpected end\nfindings: 1\n",
        ),
    ];
    for (text, wanted, answer) in rows.iter() {
        for workers in [1, 2, 64] {
            let (status, bytes) = answer_to(&rt, text, workers)?;
            assert!(rt; status == *wanted, "{text}");
            assert!(rt; bytes.as_slice() == answer.as_bytes(), "{text}");
        }
    }
    Ok(())
}

/// Returns whether the check of each of these texts has its status and writes its answer, with any number of workers.
fn all_answered<R: Threads + Wait + AllocGlobal + Sync>(
    rt: &R,
    rows: &[(&str, Status, &str)],
) -> Result<bool, Fail> {
    for (text, wanted, answer) in rows {
        for workers in [1, 2, 64] {
            let (status, bytes) = answer_to(rt, text, workers)?;
            if status != *wanted || bytes.as_slice() != answer.as_bytes() {
                return Ok(false);
            }
        }
    }
    Ok(true)
}

#[test]
fn follows_every_way(rt: HostRuntime) -> Result<(), Fail> {
    let kept = "6:1 A08 p still owned\nfindings: 1\n";
    let left = "6:10 A08 p still owned\nfindings: 1\n";
    let turned = "5:20 A01 p not owned\n6:1 A08 p still owned\nfindings: 2\n";
    let rows = [
        (FREED_ON_ONE_WAY, Status::Found, kept),
        (
            FREED_ON_BOTH_WAYS,
            Status::Empty,
            "ok: 0 contracts, 1 methods\n",
        ),
        (KEPT_AT_A_BREAK, Status::Found, left),
        (FREED_IN_A_LOOP, Status::Found, turned),
    ];
    assert!(rt; all_answered(&rt, &rows)?);
    Ok(())
}

#[test]
fn looks_at_the_heads_of_methods(rt: HostRuntime) -> Result<(), Fail> {
    let twice = "5:6 A11 x twice\nfindings: 1\n";
    let nothing = "3:27 A13 no result\nfindings: 1\n";
    let rows = [
        (CLAIMED_TWICE, Status::Found, twice),
        (NOTHING_GIVEN, Status::Found, nothing),
    ];
    assert!(rt; all_answered(&rt, &rows)?);
    Ok(())
}

/// Runs with each allocation refused in turn. The writer allocates nothing.
#[test]
fn checks_or_wants_memory(rt: HostRuntime) {
    let rows = [
        (HANDED_ON, Status::Empty, HANDED_ON_ANSWER),
        (FREED_TWICE, Status::Found, FREED_TWICE_ANSWER),
    ];
    for (text, status, answer) in rows.iter() {
        let mut reader = Counted::new(text.as_bytes());
        let mut writer = Card::new();
        match run_check(&rt, &mut reader, &mut writer, 1, 1, &Open) {
            Ok(answered) => {
                assert!(rt; answered == *status, "{text}");
                assert!(rt; writer.bytes() == answer.as_bytes(), "{text}");
            }
            Err(fault) => {
                assert!(rt; fault == RunFault::Memory, "{text}");
                assert!(rt; writer.bytes().is_empty(), "{text}");
            }
        }
    }
}

#[test]
fn reads_nothing_where_the_numbers_do_not_fit(rt: HostRuntime) -> Result<(), Fail> {
    let rows = [
        (0, 1, RunFault::Workers),
        (65, 0, RunFault::Workers),
        (1, 0, RunFault::Slots),
        (64, 16_777_217, RunFault::Slots),
    ];
    for (workers, slots, wanted) in rows.iter() {
        let mut reader = Text::new(rt.alloc(), HANDED_ON, 10, 1)?;
        let mut writer = Page::new(rt.alloc(), 100, NEVER);
        match run_check(&rt, &mut reader, &mut writer, *workers, *slots, &Open) {
            Err(fault) => assert!(rt; fault == *wanted),
            Ok(_) => assert!(rt; false),
        }
        assert!(rt; writer.bytes.is_empty());
    }
    Ok(())
}

#[test]
fn names_the_device_that_fails(rt: HostRuntime) -> Result<(), Fail> {
    let mut closed = Text::new(rt.alloc(), FREED_TWICE, 10, 3)?;
    let mut empty = Page::new(rt.alloc(), 100, NEVER);
    match run_check(&rt, &mut closed, &mut empty, 1, 1, &Open) {
        Err(RunFault::Memory) => return Err(Fail::from("out of memory")),
        Err(fault) => assert!(rt; fault == RunFault::Read(Input::Text)),
        Ok(_) => assert!(rt; false),
    }
    assert!(rt; empty.bytes.is_empty());
    let mut open = Text::new(rt.alloc(), FREED_TWICE, 10, NEVER)?;
    let mut full = Page::new(rt.alloc(), 7, 2);
    match run_check(&rt, &mut open, &mut full, 1, 1, &Open) {
        Err(RunFault::Memory) => return Err(Fail::from("out of memory")),
        Err(fault) => assert!(rt; fault == RunFault::Write),
        Ok(_) => assert!(rt; false),
    }
    assert!(rt; FREED_TWICE_ANSWER.as_bytes().starts_with(&full.bytes));
    one_check();
    Ok(())
}
