//! Which methods enter a gate, in which order, and what a gate sees while others work.

use crate::texts::{ASKED, FOUR};
use shelf::Shelf;
use shelf::laws::threads_share_a_shelf;
use singcheck::{Gate, MOST_SLOTS, MOST_WORKERS, Status, check, check_onto};
use std::sync::atomic::{AtomicU64, Ordering};
use std::test::Fail;

const ASKED_ANSWER: &str = "ok: 1 contracts, 2 methods\n";

const FOUR_ANSWER: &str =
    "3:59 A01 p not owned\n4:59 A01 p not owned\n5:59 A01 p not owned\n6:59 A01 p not owned\nfindings: 4\n";

/// How often a gate checks whether it may let a method pass before it gives up: some seconds.
const TURNS: u64 = 50_000_000;

/// Counts how often each method enters, and how often method 1 enters after method 0.
#[derive(Drop)]
struct Entries {
    first: AtomicU64,
    second: AtomicU64,
    other: AtomicU64,
    in_order: AtomicU64,
}

impl Entries {
    /// Returns a gate that nothing has entered yet.
    fn new() -> Entries {
        Entries {
            first: AtomicU64::new(0),
            second: AtomicU64::new(0),
            other: AtomicU64::new(0),
            in_order: AtomicU64::new(0),
        }
    }

    /// Returns whether each of the two methods has entered once, and nothing else has.
    fn is_each_once(&self) -> bool {
        self.first.load(Ordering::SeqCst) == 1
            && self.second.load(Ordering::SeqCst) == 1
            && self.other.load(Ordering::SeqCst) == 0
    }
}

impl Gate for Entries {
    fn enter(&self, task: u32) {
        match task {
            0 => self.first.fetch_add(1, Ordering::SeqCst),
            1 => {
                let before = self.first.load(Ordering::SeqCst);
                self.in_order.fetch_add(before, Ordering::SeqCst);
                self.second.fetch_add(1, Ordering::SeqCst)
            }
            _ => self.other.fetch_add(1, Ordering::SeqCst),
        };
    }
}

/// Returns how many verdicts of this method on a shelf have no finding.
fn clean_of(shelf: &Shelf, method: u32) -> u64 {
    let mut count = 0u64;
    for verdict in shelf.so_far() {
        if verdict.method().0 == method && verdict.findings().is_empty() {
            count = count.wrapping_add(1);
        }
    }
    count
}

/// Returns how many verdicts are on a shelf.
fn all_on(shelf: &Shelf) -> u64 {
    let mut count = 0u64;
    for _ in shelf.so_far() {
        count = count.wrapping_add(1);
    }
    count
}

/// Looks at a shelf before each of two methods.
#[derive(Drop)]
struct Onlooker<'a> {
    shelf: &'a Shelf,
    at_first: AtomicU64,
    at_second: AtomicU64,
    of_first: AtomicU64,
}

impl Gate for Onlooker<'_> {
    fn enter(&self, task: u32) {
        let seen = all_on(self.shelf);
        if task == 0 {
            self.at_first.fetch_add(seen, Ordering::SeqCst);
        } else {
            self.at_second.fetch_add(seen, Ordering::SeqCst);
            self.of_first
                .fetch_add(clean_of(self.shelf, 0), Ordering::SeqCst);
        }
    }
}

/// Holds method 0 until a clean verdict of method 1 is on a shelf, and counts how often it gave up waiting.
#[derive(Drop)]
struct SecondJudged<'a> {
    shelf: &'a Shelf,
    late: AtomicU64,
}

impl SecondJudged<'_> {
    /// Returns whether the verdict comes in time.
    fn comes(&self) -> bool {
        for _ in 0..TURNS {
            if clean_of(self.shelf, 1) == 1 {
                return true;
            }
        }
        false
    }
}

impl Gate for SecondJudged<'_> {
    fn enter(&self, task: u32) {
        if task == 0 && !self.comes() {
            self.late.fetch_add(1, Ordering::SeqCst);
        }
    }
}

/// Holds some methods until another one has entered, and counts how often it gave up waiting.
#[derive(Drop)]
struct Holding<'a> {
    held: &'a [u32],
    awaited: u32,
    entered: AtomicU64,
    late: AtomicU64,
}

impl Holding<'_> {
    /// Returns a gate that nothing has entered yet.
    fn new<'a>(held: &'a [u32], awaited: u32) -> Holding<'a> {
        Holding {
            held,
            awaited,
            entered: AtomicU64::new(0),
            late: AtomicU64::new(0),
        }
    }

    /// Returns whether the awaited method enters in time.
    fn enters(&self) -> bool {
        for _ in 0..TURNS {
            if self.entered.load(Ordering::SeqCst) == 1 {
                return true;
            }
        }
        false
    }
}

impl Gate for Holding<'_> {
    fn enter(&self, task: u32) {
        if task == self.awaited {
            self.entered.store(1, Ordering::SeqCst);
        } else if self.held.contains(&task) && !self.enters() {
            self.late.fetch_add(1, Ordering::SeqCst);
        }
    }
}

#[test]
fn each_method_enters_the_gate_once(rt: HostRuntime) -> Result<(), Fail> {
    for workers in [1, 2, MOST_WORKERS] {
        let gate = Entries::new();
        let report = check(&rt, ASKED.as_bytes(), workers, MOST_SLOTS, &gate)?;
        assert!(rt; report.status == Status::Empty);
        assert!(rt; report.bytes.as_slice() == ASKED_ANSWER.as_bytes());
        assert!(rt; gate.is_each_once(), "{workers} workers");
        if workers == 1 {
            assert_eq!(rt; gate.in_order.load(Ordering::SeqCst), 1);
        }
        let unknown = b"class K { static void F() { k = 1; } }".as_slice();
        let none = check(&rt, unknown, workers, 1, &gate)?;
        assert!(rt; none.status == Status::Found);
        assert!(rt; gate.is_each_once(), "{workers} workers");
    }
    Ok(())
}

#[test]
fn one_worker_puts_each_verdict_before_the_next_method(rt: HostRuntime) -> Result<(), Fail> {
    threads_share_a_shelf();
    let shelf = Shelf::new(rt.alloc())?;
    let gate = Onlooker {
        shelf: &shelf,
        at_first: AtomicU64::new(0),
        at_second: AtomicU64::new(0),
        of_first: AtomicU64::new(0),
    };
    let report = check_onto(&rt, ASKED.as_bytes(), 1, 64, &gate, &shelf)?;
    assert!(rt; report.bytes.as_slice() == ASKED_ANSWER.as_bytes());
    assert_eq!(rt; gate.at_first.load(Ordering::SeqCst), 0);
    assert_eq!(rt; gate.at_second.load(Ordering::SeqCst), 1);
    assert_eq!(rt; gate.of_first.load(Ordering::SeqCst), 1);
    assert_eq!(rt; all_on(&shelf), 2);
    Ok(())
}

#[test]
fn verdicts_are_read_while_a_worker_waits(rt: HostRuntime) -> Result<(), Fail> {
    threads_share_a_shelf();
    let shelf = Shelf::new(rt.alloc())?;
    let gate = SecondJudged {
        shelf: &shelf,
        late: AtomicU64::new(0),
    };
    let report = check_onto(&rt, ASKED.as_bytes(), 2, 64, &gate, &shelf)?;
    assert_eq!(rt; gate.late.load(Ordering::SeqCst), 0);
    assert!(rt; report.status == Status::Empty);
    assert!(rt; report.bytes.as_slice() == ASKED_ANSWER.as_bytes());
    Ok(())
}

#[test]
fn two_workers_are_at_work_at_once(rt: HostRuntime) -> Result<(), Fail> {
    let gate = Holding::new([0].as_slice(), 1);
    let report = check(&rt, ASKED.as_bytes(), 2, 64, &gate)?;
    assert_eq!(rt; gate.late.load(Ordering::SeqCst), 0);
    assert!(rt; report.bytes.as_slice() == ASKED_ANSWER.as_bytes());
    Ok(())
}

#[test]
fn a_worker_that_waits_holds_nobody_up(rt: HostRuntime) -> Result<(), Fail> {
    let gate = Holding::new([0, 2].as_slice(), 3);
    let report = check(&rt, FOUR.as_bytes(), 2, 64, &gate)?;
    assert!(rt; gate.late.load(Ordering::SeqCst) == 0);
    assert!(rt; report.bytes.as_slice() == FOUR_ANSWER.as_bytes());
    Ok(())
}
