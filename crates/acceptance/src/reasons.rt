//! Runs of `why` on worked texts, and on devices and memory that fail.

use crate::failing_devices::{Card, Page, Text};
use crate::texts::FREED_ON_ONE_WAY;
use singcheck::{Counted, Input, Place, RunFault, Status, run_why};
use std::test::Fail;

const FREED_ANSWER: &str =
    "6:1 A08 p still owned\n  4:14 p new\n  5:1 condition false\nfindings: 1\n";

const FREED_ELSEWHERE: &str = "6:1 A08 p still owned\nfindings: 1\n";

const CLEAN: &str = "class K { static void F() { } }";

const CLEAN_ANSWER: &str = "ok: 0 contracts, 1 methods\n";

const BACKWARDS: &str = "contract A { in message X(); state S: X! -> T; state T: ; }";

const BACKWARDS_ANSWER: &str =
    "1:39 C01 X against its direction\n  1:39 an in message is followed by ?\nfindings: 1\n";

const ROUND: &str = "contract A { in message X(); state S: X? -> S; }";

const ROUND_ANSWER: &str = "1:36 C04 one direction round S\n  1:39 X? -> S\nfindings: 1\n";

const BOTH: &str =
    "contract A { in message X(); out message Y(); state S: one { X? -> S; Y! -> S; X? -> S; } }";

const BOTH_ANSWER: &str =
    "1:53 C03 both directions in S\n  1:71 Y! -> S\n  1:62 X? -> S\n1:53 C04 one direction round S\n  1:71 Y! -> S
1:80 C02 X twice in a state\n  1:62 X? -> S\nfindings: 3\n";

const CUT: &str = "class K {";

const CUT_ANSWER: &str =
    "1:10 S05 unexpected end\n  1:10 expected an access modifier, static or }\n  1:9 { is not closed\nfindings: 1\n";

const CUT_ELSEWHERE: &str = "1:10 S05 unexpected end\nfindings: 1\n";

const NEVER: u64 = 0;

/// Runs with each allocation refused in turn. The writer allocates nothing.
#[test]
fn reasons_as_worked_out(rt: HostRuntime) {
    let there = Some(Place { line: 6, col: 1 });
    let elsewhere = Some(Place { line: 6, col: 2 });
    let rows = [
        (FREED_ON_ONE_WAY, None, Status::Found, FREED_ANSWER),
        (FREED_ON_ONE_WAY, there, Status::Found, FREED_ANSWER),
        (FREED_ON_ONE_WAY, elsewhere, Status::Found, FREED_ELSEWHERE),
        (CLEAN, None, Status::Empty, CLEAN_ANSWER),
        (BACKWARDS, None, Status::Found, BACKWARDS_ANSWER),
        (ROUND, None, Status::Found, ROUND_ANSWER),
        (BOTH, None, Status::Found, BOTH_ANSWER),
        (CUT, None, Status::Found, CUT_ANSWER),
        (CUT, elsewhere, Status::Found, CUT_ELSEWHERE),
    ];
    for (text, named, status, answer) in rows.iter() {
        let mut reader = Counted::new(text.as_bytes());
        let mut writer = Card::new();
        match run_why(rt.alloc(), &mut reader, &mut writer, *named) {
            Ok(answered) => {
                assert!(rt; answered == *status, "{text}");
                assert!(rt; writer.bytes() == answer.as_bytes(), "{text}");
            }
            Err(fault) => {
                assert!(rt; fault == RunFault::Memory, "{text}");
                assert!(rt; writer.bytes().is_empty(), "{text}");
            }
        }
    }
}

#[test]
fn writes_nothing_where_a_read_of_why_fails(rt: HostRuntime) -> Result<(), Fail> {
    let mut reader = Text::new(rt.alloc(), FREED_ON_ONE_WAY, 10, 3)?;
    let mut writer = Page::new(rt.alloc(), 100, NEVER);
    let answered = run_why(rt.alloc(), &mut reader, &mut writer, None);
    assert!(rt; answered == Err(RunFault::Read(Input::Text)));
    assert!(rt; writer.bytes.is_empty());
    Ok(())
}

#[test]
fn writes_a_beginning_where_a_write_of_why_fails(rt: HostRuntime) -> Result<(), Fail> {
    let mut reader = Text::new(rt.alloc(), FREED_ON_ONE_WAY, 100, NEVER)?;
    let mut writer = Page::new(rt.alloc(), 7, 3);
    let answered = run_why(rt.alloc(), &mut reader, &mut writer, None);
    assert!(rt; answered == Err(RunFault::Write));
    assert!(rt; FREED_ANSWER.as_bytes().starts_with(&writer.bytes));
    Ok(())
}
