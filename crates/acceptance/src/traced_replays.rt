//! Replays with a line for each event, on worked texts, and on devices and memory that fail.

use crate::failing_devices::{Card, Page, Text};
use crate::texts::{EXCHANGES, READS_WHAT_IT_SENT, SENDS_AN_END};
use singcheck::{Counted, Detail, Input, RunFault, Status, run_trace};
use std::alloc::Global;
use std::test::Fail;

const NEVER: u64 = 0;

const FOUR_EVENTS: &str = "0 0\n0 0\n0 0\n0 0\n";

const SENDS_AN_END_ANSWER: &str = "P0 5:3 makes the channel i (block 0), e (block 1)
P0 6:3 sends M(0) on e
P0 7:8 deletes e (block 1)
P0 8:1 ended
steps 4
stop: end of schedule
process 0 ended
block 0 W.Imp S owner queue 0 queue [M(0)]
block 1 W.Exp freed
chosen: 0 conditions
";

/// The fourth event is a fault, so it has no line.
const READS_WHAT_IT_SENT_ANSWER: &str = "P0 6:5 makes the channel i (block 0), e (block 1)
P0 7:14 makes p (block 2)
P0 8:3 sends X(2) on e
steps 3
stop: fault F1 at 9:9 in process 0
process 0 at 9:9, frames 1
block 0 Put.Imp S owner process 0 queue [X(2)]
block 1 Put.Exp E owner process 0 queue []
block 2 D owner queue 0
chosen: 0 conditions
";

const EXCHANGES_ANSWER: &str = "P0 5:14 makes p (block 0)
P0 6:14 makes b (block 1)
P0 7:1 makes p (block 2)
P0 8:1 exchanges p (block 2) with a field of b (block 1)
steps 4
stop: end of schedule
process 0 at 9:8, frames 1
block 0 D owner process 0
block 1 B owner process 0 holds [2]
block 2 D owner block 1
chosen: 0 conditions
";

/// One condition may go either way, and another one goes one way only.
const CHOOSES: &str = "rep struct D { int n; }
class K {
static void Main() {
D* in ExHeap p = new[ExHeap] D();
if (p.n == 0) { p.n = 1; }
while (true) { delete p; return; }
}
}";

const CHOOSES_NOTABLE: &str = "P0 4:14 makes p (block 0)
P0 5:1 condition true
P0 6:23 deletes p (block 0)
P0 6:26 ended
steps 7
stop: end of schedule
process 0 ended
block 0 D freed
chosen: 1 conditions
";

/// The condition is false, so the block of the `if` has no events. One more event has no process.
const CHOOSES_EVERYTHING: &str = "P0 4:14 makes p (block 0)
P0 5:5 uses p (block 0)
P0 5:1 condition false
P0 6:1 constant condition
P0 6:23 deletes p (block 0)
P0 6:26 ended
steps 6
stop: no process 0
process 0 ended
block 0 D freed
chosen: 1 conditions
";

/// Returns the status of a replay of this schedule from `K.Main`, and what it writes.
fn answer_to(
    alloc: Global,
    text: &str,
    schedule: &str,
    detail: Detail,
) -> Result<(Status, Vec<u8>), Fail> {
    let mut reader = Counted::new(text.as_bytes());
    let mut events = Counted::new(schedule.as_bytes());
    let mut writer = Counted::new(Vec::new(alloc));
    let entry = b"K.Main".as_slice();
    let status = run_trace(alloc, &mut reader, entry, &mut events, detail, &mut writer)?;
    Ok((status, writer.device))
}

/// Returns why a replay of this schedule from this entry gives up, if it does. It fails if it is out of memory.
fn fault_of(alloc: Global, entry: &str, schedule: &str) -> Result<Option<RunFault>, Fail> {
    let mut reader = Counted::new(SENDS_AN_END.as_bytes());
    let mut events = Counted::new(schedule.as_bytes());
    let mut writer = Counted::new(Vec::new(alloc));
    let detail = Detail::Notable;
    match run_trace(
        alloc,
        &mut reader,
        entry.as_bytes(),
        &mut events,
        detail,
        &mut writer,
    ) {
        Ok(_) => Ok(None),
        Err(RunFault::Memory) => Err(Fail::from("out of memory")),
        Err(fault) => Ok(Some(fault)),
    }
}

/// Each event of these replays is notable.
#[test]
fn traces_as_worked_out(rt: HostRuntime) -> Result<(), Fail> {
    let whole = Detail::Everything;
    let few = Detail::Notable;
    let rows = [
        (SENDS_AN_END, few, Status::Empty, SENDS_AN_END_ANSWER),
        (SENDS_AN_END, whole, Status::Empty, SENDS_AN_END_ANSWER),
        (
            READS_WHAT_IT_SENT,
            few,
            Status::Found,
            READS_WHAT_IT_SENT_ANSWER,
        ),
        (
            READS_WHAT_IT_SENT,
            whole,
            Status::Found,
            READS_WHAT_IT_SENT_ANSWER,
        ),
        (EXCHANGES, few, Status::Empty, EXCHANGES_ANSWER),
        (EXCHANGES, whole, Status::Empty, EXCHANGES_ANSWER),
    ];
    for (text, detail, status, answer) in rows.iter() {
        let (given, bytes) = answer_to(rt.alloc(), text, FOUR_EVENTS, *detail)?;
        assert!(rt; given == *status, "{text}");
        assert!(rt; bytes.as_slice() == answer.as_bytes(), "{text}");
    }
    Ok(())
}

#[test]
fn quiet_events_have_lines_if_all_have(rt: HostRuntime) -> Result<(), Fail> {
    let alloc = rt.alloc();
    let through = "0 0\n0 0\n0 0\n0 0\n0 0\n0 0\n0 0\n";
    let (status, bytes) = answer_to(alloc, CHOOSES, through, Detail::Notable)?;
    assert!(rt; status == Status::Empty);
    assert!(rt; bytes.as_slice() == CHOOSES_NOTABLE.as_bytes());
    let past = "0 0\n0 0\n0 1 # false\n0 0\n0 0\n0 0\n0 0\n";
    let (status, bytes) = answer_to(alloc, CHOOSES, past, Detail::Everything)?;
    assert!(rt; status == Status::Found);
    assert!(rt; bytes.as_slice() == CHOOSES_EVERYTHING.as_bytes());
    Ok(())
}

#[test]
fn findings_have_no_trace(rt: HostRuntime) -> Result<(), Fail> {
    let backwards = "contract A { in message X(); state S: X! -> T; state T: ; }";
    let (status, bytes) = answer_to(rt.alloc(), backwards, "x", Detail::Everything)?;
    assert!(rt; status == Status::Found);
    assert!(rt; bytes.as_slice() == b"1:39 C01 X against its direction\nfindings: 1\n".as_slice());
    Ok(())
}

#[test]
fn traces_of_nothing_are_refused(rt: HostRuntime) -> Result<(), Fail> {
    let alloc = rt.alloc();
    assert!(rt; fault_of(alloc, "K.None", "0 x")? == Some(RunFault::Entry));
    assert!(rt; fault_of(alloc, "K.Main", "0 0 # makes it\n0 x")? == Some(RunFault::Schedule(2)));
    assert!(rt; fault_of(alloc, "K.Main", "0 0\n0 0")? == None);
    Ok(())
}

/// Runs with each allocation refused in turn.
#[test]
fn traces_or_wants_memory(rt: HostRuntime) {
    let rows = [
        (SENDS_AN_END, Status::Empty, SENDS_AN_END_ANSWER),
        (READS_WHAT_IT_SENT, Status::Found, READS_WHAT_IT_SENT_ANSWER),
        (EXCHANGES, Status::Empty, EXCHANGES_ANSWER),
    ];
    for (text, status, answer) in rows.iter() {
        let mut reader = Counted::new(text.as_bytes());
        let mut events = Counted::new(FOUR_EVENTS.as_bytes());
        let mut writer = Card::new();
        let entry = b"K.Main".as_slice();
        let detail = Detail::Notable;
        match run_trace(
            rt.alloc(),
            &mut reader,
            entry,
            &mut events,
            detail,
            &mut writer,
        ) {
            Ok(answered) => {
                assert!(rt; answered == *status, "{text}");
                assert!(rt; writer.bytes() == answer.as_bytes(), "{text}");
            }
            Err(fault) => {
                assert!(rt; fault == RunFault::Memory, "{text}");
                assert!(rt; writer.bytes().is_empty(), "{text}");
            }
        }
    }
}

#[test]
fn a_page_that_fails_has_a_beginning_of_the_trace(rt: HostRuntime) -> Result<(), Fail> {
    let entry = b"K.Main".as_slice();
    for failing in 1..300 {
        let mut reader = Counted::new(SENDS_AN_END.as_bytes());
        let mut events = Counted::new(FOUR_EVENTS.as_bytes());
        let mut writer = Page::new(rt.alloc(), 3, failing);
        let detail = Detail::Notable;
        match run_trace(
            rt.alloc(),
            &mut reader,
            entry,
            &mut events,
            detail,
            &mut writer,
        ) {
            Err(RunFault::Write) => {
                assert!(rt; SENDS_AN_END_ANSWER.as_bytes().starts_with(&writer.bytes));
            }
            Err(RunFault::Memory) => return Err(Fail::from("out of memory")),
            Err(_) => assert!(rt; false),
            Ok(_) => {
                assert!(rt; failing > 50);
                assert!(rt; writer.bytes.as_slice() == SENDS_AN_END_ANSWER.as_bytes());
                return Ok(());
            }
        }
    }
    assert!(rt; false);
    Ok(())
}

#[test]
fn nothing_is_traced_if_a_schedule_cannot_be_read(rt: HostRuntime) -> Result<(), Fail> {
    let entry = b"K.Main".as_slice();
    for failing in 1..100 {
        let mut reader = Counted::new(SENDS_AN_END.as_bytes());
        let mut events = Text::new(rt.alloc(), FOUR_EVENTS, 3, failing)?;
        let mut writer = Page::new(rt.alloc(), 1000, NEVER);
        let detail = Detail::Notable;
        match run_trace(
            rt.alloc(),
            &mut reader,
            entry,
            &mut events,
            detail,
            &mut writer,
        ) {
            Err(RunFault::Read(Input::Schedule)) => assert!(rt; writer.bytes.is_empty()),
            Err(RunFault::Memory) => return Err(Fail::from("out of memory")),
            Err(_) => assert!(rt; false),
            Ok(_) => {
                assert!(rt; failing > 5);
                assert!(rt; writer.bytes.as_slice() == SENDS_AN_END_ANSWER.as_bytes());
                return Ok(());
            }
        }
    }
    assert!(rt; false);
    Ok(())
}
