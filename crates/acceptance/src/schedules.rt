//! Replays on worked texts, and on devices and memory that fail.

use crate::failing_devices::{Card, Page, Text};
use crate::texts::{EXCHANGES, READS_WHAT_IT_SENT, SENDS_AN_END};
use singcheck::laws::{each_program_has_bounds, findings_or_program};
use singcheck::{Counted, Input, RunFault, Status, run_replay};
use std::alloc::Global;
use std::test::Fail;

const NEVER: u64 = 0;

const SENDS_AN_END_ANSWER: &str =
    "steps 4\nstop: end of schedule\nprocess 0 ended\nblock 0 W.Imp S owner queue 0 queue [M(0)]\nblock 1 W.Exp freed\n";

const READS_WHAT_IT_SENT_ANSWER: &str =
    "steps 3\nstop: fault F1 at 9:9 in process 0\nprocess 0 at 9:9, frames 1\nblock 0 Put.Imp S owner process 0 queue [X(2)]
block 1 Put.Exp E owner process 0 queue []\nblock 2 D owner queue 0\n";

const EXCHANGES_ANSWER: &str = "steps 4\nstop: end of schedule\nprocess 0 at 9:8, frames 1
block 0 D owner process 0\nblock 1 B owner process 0 holds [2]\nblock 2 D owner block 1\n";

const BACKWARDS: &str = "contract A { in message X(); state S: X! -> T; state T: ; }";

/// Returns the status of a replay of this schedule from `K.Main`, and what it writes.
fn answer_to(alloc: Global, text: &str, schedule: &str) -> Result<(Status, Vec<u8>), Fail> {
    let mut reader = Counted::new(text.as_bytes());
    let mut events = Counted::new(schedule.as_bytes());
    let mut writer = Counted::new(Vec::new(alloc));
    let entry = b"K.Main".as_slice();
    let status = run_replay(alloc, &mut reader, entry, &mut events, &mut writer)?;
    Ok((status, writer.device))
}

/// Returns why a replay of this schedule from this entry gives up, if it does. It fails if it is out of memory.
fn fault_of(alloc: Global, entry: &str, schedule: &str) -> Result<Option<RunFault>, Fail> {
    let mut reader = Counted::new(READS_WHAT_IT_SENT.as_bytes());
    let mut events = Counted::new(schedule.as_bytes());
    let mut writer = Counted::new(Vec::new(alloc));
    let entry = entry.as_bytes();
    match run_replay(alloc, &mut reader, entry, &mut events, &mut writer) {
        Ok(_) => Ok(None),
        Err(RunFault::Memory) => Err(Fail::from("out of memory")),
        Err(fault) => Ok(Some(fault)),
    }
}

#[test]
fn replays_as_worked_out(rt: HostRuntime) -> Result<(), Fail> {
    let alloc = rt.alloc();
    let (status, bytes) = answer_to(alloc, SENDS_AN_END, "0 0\n0 0\n0 0\n0 0\n")?;
    assert!(rt; status == Status::Empty);
    assert!(rt; bytes.as_slice() == SENDS_AN_END_ANSWER.as_bytes());
    let (status, bytes) = answer_to(alloc, READS_WHAT_IT_SENT, "0 0\n0 0\n0 0\n0 0\n0 0")?;
    assert!(rt; status == Status::Found);
    assert!(rt; bytes.as_slice() == READS_WHAT_IT_SENT_ANSWER.as_bytes());
    let (status, bytes) = answer_to(alloc, EXCHANGES, "0 0\n0 0\n0 0\n0 0\n")?;
    assert!(rt; status == Status::Empty);
    assert!(rt; bytes.as_slice() == EXCHANGES_ANSWER.as_bytes());
    let (status, bytes) = answer_to(alloc, BACKWARDS, "x")?;
    assert!(rt; status == Status::Found);
    assert!(rt; bytes.as_slice() == b"1:39 C01 X against its direction\nfindings: 1\n".as_slice());
    findings_or_program();
    each_program_has_bounds();
    Ok(())
}

#[test]
fn entries_and_schedules_are_refused(rt: HostRuntime) -> Result<(), Fail> {
    let alloc = rt.alloc();
    assert!(rt; fault_of(alloc, "K.None", "0 x")? == Some(RunFault::Entry));
    assert!(rt; fault_of(alloc, "K.Main", "0 0\n0 x")? == Some(RunFault::Schedule(2)));
    assert!(rt; fault_of(alloc, "K.Main", "0 0\n0 0")? == None);
    Ok(())
}

#[test]
fn comments_are_skipped(rt: HostRuntime) -> Result<(), Fail> {
    let alloc = rt.alloc();
    let rows = [
        "# one process\n0 0\n0 0 # sends\n0 0   #\n0 0# the last line",
        "#\n  #\n#0 1\n0 0\r\n0 0 # a # b\r\n00  0 ## c\n\n0 0 # d\r",
    ];
    for schedule in rows.iter() {
        let (status, bytes) = answer_to(alloc, SENDS_AN_END, schedule)?;
        assert!(rt; status == Status::Empty, "{schedule}");
        assert!(rt;
            bytes.as_slice() == SENDS_AN_END_ANSWER.as_bytes(),
            "{schedule}"
        );
    }
    Ok(())
}

/// The number of a malformed line counts comments, and what comes before a comment has to be an event or nothing.
#[test]
fn lines_with_comments_are_refused(rt: HostRuntime) -> Result<(), Fail> {
    let rows = [
        ("# one process\n\n0 0 # sends\n0 1 x # more\n0 x", 4),
        ("0 # 0", 1),
        ("0 0 # sends\n0#0\n", 2),
        ("0 0\n 0 0 # sends", 2),
        ("0 0\t# sends", 1),
        ("0 0\r# sends\n", 1),
        ("# a space at the end\n0 0 ", 2),
        ("# a line of spaces\n  \n0 0", 2),
    ];
    for (schedule, line) in rows.iter() {
        let fault = fault_of(rt.alloc(), "K.Main", schedule)?;
        assert!(rt; fault == Some(RunFault::Schedule(*line)), "{schedule}");
    }
    assert!(rt; fault_of(rt.alloc(), "K.Main", "# 0 x\n0 0 # 0 x")? == None);
    Ok(())
}

/// Runs with each allocation refused in turn.
#[test]
fn replays_or_wants_memory(rt: HostRuntime) {
    let rows = [
        (SENDS_AN_END, Status::Empty, SENDS_AN_END_ANSWER),
        (READS_WHAT_IT_SENT, Status::Found, READS_WHAT_IT_SENT_ANSWER),
        (EXCHANGES, Status::Empty, EXCHANGES_ANSWER),
    ];
    for (text, status, answer) in rows.iter() {
        let mut reader = Counted::new(text.as_bytes());
        let mut events = Counted::new(b"0 0\n0 0\n0 0\n0 0\n".as_slice());
        let mut writer = Card::new();
        let entry = b"K.Main".as_slice();
        match run_replay(rt.alloc(), &mut reader, entry, &mut events, &mut writer) {
            Ok(answered) => {
                assert!(rt; answered == *status, "{text}");
                assert!(rt; writer.bytes() == answer.as_bytes(), "{text}");
            }
            Err(fault) => {
                assert!(rt; fault == RunFault::Memory, "{text}");
                assert!(rt; writer.bytes().is_empty(), "{text}");
            }
        }
    }
}

#[test]
fn writes_nothing_where_a_schedule_cannot_be_read(rt: HostRuntime) -> Result<(), Fail> {
    for failing in 1..100 {
        let mut reader = Counted::new(SENDS_AN_END.as_bytes());
        let mut events = Text::new(rt.alloc(), "0 0\n0 0\n0 0\n0 0\n", 3, failing)?;
        let mut writer = Page::new(rt.alloc(), 1000, NEVER);
        let entry = b"K.Main".as_slice();
        match run_replay(rt.alloc(), &mut reader, entry, &mut events, &mut writer) {
            Err(RunFault::Read(Input::Schedule)) => assert!(rt; writer.bytes.is_empty()),
            Err(RunFault::Memory) => return Err(Fail::from("out of memory")),
            Err(_) => assert!(rt; false),
            Ok(_) => {
                assert!(rt; failing > 5);
                assert!(rt; writer.bytes.as_slice() == SENDS_AN_END_ANSWER.as_bytes());
                return Ok(());
            }
        }
    }
    assert!(rt; false);
    Ok(())
}
