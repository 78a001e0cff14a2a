//! Whole runs on worked texts, and on devices and memory that fail.

use crate::failing_devices::{Card, Page, Text};
use singcheck::laws::one_answer;
use singcheck::{Counted, Input, RunFault, Status, run_bounds};
use std::alloc::Global;
use std::test::Fail;

const PING: &str =
    "contract Ping { in message Req(); out message Rep(); state Start: Req? -> Pend; state Pend: Rep! -> Start; }";

const PING_ANSWER: &str = "Ping: to Exp 1, to Imp 1\nok: 1 contracts\n";

const BACKWARDS: &str = "contract A { in message X(); state S: X! -> T; state T: ; }";

const BACKWARDS_ANSWER: &str = "1:39 C01 X against its direction\nfindings: 1\n";

const BURST: &str =
    "contract Burst { out message A(); out message B(); in message Ok(); state S: A! -> B! -> W; state W: Ok? -> S; }";

const LOOP: &str = "contract L { out message A(); state S: ; state U: A! -> A! -> U; }";

const MIXED: &str =
    "contract M { out message A(); in message B(); state S: one { A! -> T; B? -> T; A! -> T; } state T: one { } }";

const NEVER: u64 = 0;

/// Returns the status of a run on this text, and what it writes.
fn answer_to(alloc: Global, text: &str) -> Result<(Status, Vec<u8>), Fail> {
    let mut reader = Counted::new(text.as_bytes());
    let mut writer = Counted::new(Vec::new(alloc));
    let status = run_bounds(alloc, &mut reader, &mut writer)?;
    Ok((status, writer.device))
}

#[test]
fn bounds_as_worked_out(rt: HostRuntime) -> Result<(), Fail> {
    let rows = [
        ("", "ok: 0 contracts\n"),
        (PING, PING_ANSWER),
        (BURST, "Burst: to Exp 1, to Imp 2\nok: 1 contracts\n"),
    ];
    for (text, wanted) in rows.iter() {
        let (status, bytes) = answer_to(rt.alloc(), text)?;
        assert!(rt; status == Status::Empty, "{text}");
        assert!(rt; bytes.as_slice() == wanted.as_bytes(), "{text}");
    }
    Ok(())
}

#[test]
fn findings_as_worked_out(rt: HostRuntime) -> Result<(), Fail> {
    let rows = [
        (BACKWARDS, BACKWARDS_ANSWER),
        (
            LOOP,
            "1:48 C04 one direction round U\n1:57 C04 one direction round (A)\nfindings: 2\n",
        ),
        (
            MIXED,
            "1:53 C03 both directions in S\n1:80 C02 A twice in a state\nfindings: 2\n",
        ),
        ("/* a", "1:1 S02 comment not closed\nfindings: 1\n"),
        ("2147483648", "1:1 S06 number too large\nfindings: 1\n"),
        ("contract K {", "1:13 S05 unexpected end\nfindings: 1\n"),
    ];
    for (text, wanted) in rows.iter() {
        let (status, bytes) = answer_to(rt.alloc(), text)?;
        assert!(rt; status == Status::Found, "{text}");
        assert!(rt; bytes.as_slice() == wanted.as_bytes(), "{text}");
    }
    Ok(())
}

/// Runs with each allocation refused in turn. The writer allocates nothing.
#[test]
fn answers_or_wants_memory(rt: HostRuntime) {
    let rows = [
        (PING, Status::Empty, PING_ANSWER),
        (BACKWARDS, Status::Found, BACKWARDS_ANSWER),
        (
            "contract K {",
            Status::Found,
            "1:13 S05 unexpected end\nfindings: 1\n",
        ),
    ];
    for (text, status, answer) in rows.iter() {
        let mut reader = Counted::new(text.as_bytes());
        let mut writer = Card::new();
        match run_bounds(rt.alloc(), &mut reader, &mut writer) {
            Ok(answered) => {
                assert!(rt; answered == *status, "{text}");
                assert!(rt; writer.bytes() == answer.as_bytes(), "{text}");
            }
            Err(fault) => {
                assert!(rt; fault == RunFault::Memory, "{text}");
                assert!(rt; writer.bytes().is_empty(), "{text}");
            }
        }
    }
}

#[test]
fn takes_and_gives_one_byte_a_call(rt: HostRuntime) -> Result<(), Fail> {
    let mut reader = Text::new(rt.alloc(), PING, 1, NEVER)?;
    let mut writer = Page::new(rt.alloc(), 1, NEVER);
    let status = run_bounds(rt.alloc(), &mut reader, &mut writer)?;
    assert!(rt; status == Status::Empty);
    assert!(rt; writer.bytes.as_slice() == PING_ANSWER.as_bytes());
    one_answer();
    Ok(())
}

#[test]
fn writes_nothing_where_a_read_fails(rt: HostRuntime) -> Result<(), Fail> {
    for failing in 1..100 {
        let mut reader = Text::new(rt.alloc(), BACKWARDS, 10, failing)?;
        let mut writer = Page::new(rt.alloc(), 100, NEVER);
        match run_bounds(rt.alloc(), &mut reader, &mut writer) {
            Err(RunFault::Read(Input::Text)) => assert!(rt; writer.bytes.is_empty()),
            Err(RunFault::Memory) => return Err(Fail::from("out of memory")),
            Err(_) => assert!(rt; false),
            Ok(_) => {
                assert!(rt; failing > 5);
                return Ok(());
            }
        }
    }
    assert!(rt; false);
    Ok(())
}

#[test]
fn writes_a_beginning_where_a_write_fails(rt: HostRuntime) -> Result<(), Fail> {
    for failing in 1..100 {
        let mut reader = Text::new(rt.alloc(), PING, 100, NEVER)?;
        let mut writer = Page::new(rt.alloc(), 7, failing);
        match run_bounds(rt.alloc(), &mut reader, &mut writer) {
            Err(RunFault::Write) => {
                assert!(rt; PING_ANSWER.as_bytes().starts_with(&writer.bytes));
            }
            Err(RunFault::Memory) => return Err(Fail::from("out of memory")),
            Err(_) => assert!(rt; false),
            Ok(_) => {
                assert!(rt; failing > 5);
                return Ok(());
            }
        }
    }
    assert!(rt; false);
    Ok(())
}
