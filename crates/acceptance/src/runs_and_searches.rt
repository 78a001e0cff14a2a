//! Random runs and searches of all runs, on worked texts, and on devices and memory that fail.

use crate::failing_devices::{Card, Page};
use crate::texts::READS_WHAT_IT_SENT;
use singcheck::{Counted, Detail, RunFault, RunOptions, Status, run_explore, run_random};
use std::alloc::Global;
use std::test::Fail;

/// A process that waits at one end of a channel while it owns the other.
const LOCKS: &str = "contract W { out message M(); state S: M! -> E; state E: ; }
class K {
static void Main() {
W.Imp i; W.Exp e;
W.NewChannel(out i, out e);
switch receive {
case i.M(): break;
case i.ChannelClosed(): break;
}
delete e; delete i;
}
static void Take(int n) { }
}";

const LOCKS_LINES: &str = "P0 5:3 makes the channel i (block 0), e (block 1)
end: deadlock, after 1 events
P0 6:1 waits on i (block 0; peer 1, owner process 0)
block 0 W.Imp S owner process 0 queue []
block 1 W.Exp S owner process 0 queue []
chosen: 0 conditions
";

const LOCKS_TABLE: &str = "seed: 7\n3 runs: deadlock, the shortest after 1 events with seed 7\n";

/// A process that makes a block and frees it.
const ENDS: &str = "rep struct D { int n; }
class K {
static void Main() {
D* in ExHeap p = new[ExHeap] D();
delete p;
}
}";

const ENDS_LINES: &str = "P0 4:14 makes p (block 0)
P0 5:8 deletes p (block 0)
P0 6:1 ended
end: every process has ended, after 3 events
chosen: 0 conditions
";

const ENDS_TABLE: &str =
    "seed: 9\n3 runs: every process has ended, the shortest after 3 events with seed 7\n";

const STOPPED_LINES: &str = "P0 4:14 makes p (block 0)
P0 5:8 deletes p (block 0)
end: still running, after 2 events
P0 6:1 runs
chosen: 0 conditions
";

const STOPPED_TABLE: &str =
    "seed: 0\n2 runs: still running, the shortest after 2 events with seed 18446744073709551615\n";

const READS_LINES: &str = "P0 6:5 makes the channel i (block 0), e (block 1)
P0 7:14 makes p (block 2)
P0 8:3 sends X(2) on e
end: fault F1 at 9:9 in process 0, after 3 events
P0 9:9 runs
block 0 Put.Imp S owner process 0 queue [X(2)]
block 1 Put.Exp E owner process 0 queue []
block 2 D owner queue 0
chosen: 0 conditions
";

const READS_TABLE: &str = "seed: 7\n3 runs: fault, the shortest after 3 events with seed 7\n";

const OPTIONS: RunOptions = RunOptions {
    seed: 7,
    runs: 3,
    steps: 100,
    detail: Detail::Notable,
};

/// Two runs of at most two events, with the greatest seed and then the least.
const SHORT_OPTIONS: RunOptions = RunOptions {
    seed: 18_446_744_073_709_551_615,
    runs: 2,
    steps: 2,
    detail: Detail::Notable,
};

/// Returns the status of random runs from `K.Main`, what is written of them, and the schedule of the printed one.
fn run_of(
    alloc: Global,
    text: &str,
    options: &RunOptions,
) -> Result<(Status, Vec<u8>, Option<Vec<u8>>), Fail> {
    let mut reader = Counted::new(text.as_bytes());
    let mut writer = Counted::new(Vec::new(alloc));
    let entry = b"K.Main".as_slice();
    let (status, schedule) = run_random(alloc, &mut reader, entry, options, &mut writer)?;
    Ok((status, writer.device, schedule))
}

/// Returns whether these bytes are the lines of a run and then those of its seed and its table.
fn is_answer(bytes: &[u8], lines: &str, rest: &str) -> bool {
    bytes
        .strip_prefix(lines.as_bytes())
        .is_some_and(|end| end == rest.as_bytes())
}

/// Returns the status of a search of the runs from `K.Main`, what it writes, and its schedule.
fn search_of(
    alloc: Global,
    text: &str,
    worlds: usize,
) -> Result<(Status, Vec<u8>, Option<Vec<u8>>), Fail> {
    let mut reader = Counted::new(text.as_bytes());
    let mut writer = Counted::new(Vec::new(alloc));
    let entry = b"K.Main".as_slice();
    let (status, schedule) = run_explore(alloc, &mut reader, entry, worlds, &mut writer)?;
    Ok((status, writer.device, schedule))
}

/// Returns why a random run of `LOCKS` from this entry gives up, if it does. It fails if it is out of memory.
fn fault_of(alloc: Global, entry: &str) -> Result<Option<RunFault>, Fail> {
    let mut reader = Counted::new(LOCKS.as_bytes());
    let mut writer = Counted::new(Vec::new(alloc));
    match run_random(alloc, &mut reader, entry.as_bytes(), &OPTIONS, &mut writer) {
        Ok(_) => Ok(None),
        Err(RunFault::Memory) => Err(Fail::from("out of memory")),
        Err(fault) => Ok(Some(fault)),
    }
}

#[test]
fn runs_as_worked_out(rt: HostRuntime) -> Result<(), Fail> {
    let alloc = rt.alloc();
    let one = RunOptions { runs: 1, ..OPTIONS };
    let (status, bytes, schedule) = run_of(alloc, LOCKS, &one)?;
    assert!(rt; status == Status::Found);
    assert!(rt; is_answer(&bytes, LOCKS_LINES, "seed: 7\n"));
    assert!(rt; schedule.is_some_and(|events| events.as_slice() == b"0 0\n".as_slice()));
    let (status, bytes, schedule) = run_of(alloc, ENDS, &one)?;
    assert!(rt; status == Status::Empty);
    assert!(rt; is_answer(&bytes, ENDS_LINES, "seed: 7\n"));
    assert!(rt; schedule.is_some_and(|events| events.as_slice() == b"0 0\n0 0\n0 0\n".as_slice()));
    Ok(())
}

/// All runs of these texts are the same but for their seeds. So the first of those that fail is printed, and else the last.
#[test]
fn tables_as_worked_out(rt: HostRuntime) -> Result<(), Fail> {
    let rows = [
        (LOCKS, OPTIONS, Status::Found, LOCKS_LINES, LOCKS_TABLE),
        (
            READS_WHAT_IT_SENT,
            OPTIONS,
            Status::Found,
            READS_LINES,
            READS_TABLE,
        ),
        (ENDS, OPTIONS, Status::Empty, ENDS_LINES, ENDS_TABLE),
        (
            ENDS,
            SHORT_OPTIONS,
            Status::Empty,
            STOPPED_LINES,
            STOPPED_TABLE,
        ),
    ];
    for (text, options, status, lines, rest) in rows.iter() {
        let (given, bytes, _) = run_of(rt.alloc(), text, options)?;
        assert!(rt; given == *status, "{rest}");
        assert!(rt; is_answer(&bytes, lines, rest), "{rest}");
    }
    Ok(())
}

#[test]
fn searches_as_worked_out(rt: HostRuntime) -> Result<(), Fail> {
    let alloc = rt.alloc();
    let (status, bytes, schedule) = search_of(alloc, LOCKS, 10)?;
    assert!(rt; status == Status::Found);
    assert!(rt; bytes.as_slice() == LOCKS_LINES.as_bytes());
    assert!(rt; schedule.is_some_and(|events| events.as_slice() == b"0 0\n".as_slice()));
    let (status, bytes, schedule) = search_of(alloc, ENDS, 10)?;
    assert!(rt; status == Status::Empty);
    assert!(rt; bytes.as_slice() == b"no deadlock in all 4 worlds\n".as_slice());
    assert!(rt; schedule.is_none());
    let (status, bytes, _) = search_of(alloc, ENDS, 2)?;
    assert!(rt; status == Status::Empty);
    assert!(rt; bytes.as_slice() == b"no deadlock within 2 worlds\n".as_slice());
    Ok(())
}

#[test]
fn runs_begin_with_entries_alone(rt: HostRuntime) -> Result<(), Fail> {
    let alloc = rt.alloc();
    assert!(rt; fault_of(alloc, "K.None")? == Some(RunFault::Entry));
    assert!(rt; fault_of(alloc, "K.Take")? == Some(RunFault::Entry));
    assert!(rt; fault_of(alloc, "K.Main")? == None);
    Ok(())
}

/// Runs and searches with each allocation refused in turn.
#[test]
fn runs_and_searches_or_wants_memory(rt: HostRuntime) {
    let mut reader = Counted::new(LOCKS.as_bytes());
    let mut writer = Card::new();
    let entry = b"K.Main".as_slice();
    match run_random(rt.alloc(), &mut reader, entry, &OPTIONS, &mut writer) {
        Ok((status, _)) => {
            assert!(rt; status == Status::Found);
            assert!(rt; is_answer(writer.bytes(), LOCKS_LINES, LOCKS_TABLE));
        }
        Err(fault) => {
            assert!(rt; fault == RunFault::Memory);
            assert!(rt; writer.bytes().is_empty());
        }
    }
    let mut reader = Counted::new(LOCKS.as_bytes());
    let mut writer = Card::new();
    match run_explore(rt.alloc(), &mut reader, entry, 10, &mut writer) {
        Ok((status, _)) => {
            assert!(rt; status == Status::Found);
            assert!(rt; writer.bytes() == LOCKS_LINES.as_bytes());
        }
        Err(fault) => {
            assert!(rt; fault == RunFault::Memory);
            assert!(rt; writer.bytes().is_empty());
        }
    }
}

#[test]
fn a_page_that_fails_has_a_beginning_of_the_run(rt: HostRuntime) -> Result<(), Fail> {
    let entry = b"K.Main".as_slice();
    for failing in 1..300 {
        let mut reader = Counted::new(LOCKS.as_bytes());
        let mut writer = Page::new(rt.alloc(), 3, failing);
        match run_explore(rt.alloc(), &mut reader, entry, 10, &mut writer) {
            Err(RunFault::Write) => assert!(rt; LOCKS_LINES.as_bytes().starts_with(&writer.bytes)),
            Err(RunFault::Memory) => return Err(Fail::from("out of memory")),
            Err(_) => assert!(rt; false),
            Ok(_) => {
                assert!(rt; failing > 50);
                assert!(rt; writer.bytes.as_slice() == LOCKS_LINES.as_bytes());
                return Ok(());
            }
        }
    }
    assert!(rt; false);
    Ok(())
}
