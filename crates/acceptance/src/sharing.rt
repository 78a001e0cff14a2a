//! Tasks shared out over workers.

ghost use Rattle.std.specs.Prelude.{◌≡◌, ⊤};

use analyse::{Task, tasks};
use names::{MOST_CONTRACTS, resolve};
use pool::{Done, Gate, Job, Open, PoolFault, share_out};
use program::Methods;
use rules::Program;
use source::{Memory, lex};
use std::alloc::Global;
use std::sync::atomic::{AtomicU64, Ordering};
use std::test::Fail;
use syntax::parse;
use wellformed::well_formed_methods;

/// Seven methods.
const SEVEN: &str =
    "class K { static void A() { } static void B() { } static void C() { } static void D() { } \
static void E() { } static void F() { } static void G() { } }";

/// A number that none of their tasks has.
const NONE: u32 = 7;

/// How often a gate checks whether it may let a task pass before it gives up: some seconds.
const TURNS: u64 = 5_000_000_000;

/// Returns the methods of that text.
fn methods(alloc: Global) -> Result<Methods, Fail> {
    let tokens = lex(alloc, SEVEN.as_bytes())?;
    let tree = parse(alloc, &tokens)?;
    let contracts = resolve(alloc, &tree, SEVEN.as_bytes())?;
    if contracts.contracts.len() > MOST_CONTRACTS {
        return Err(Fail::from("too many contracts"));
    }
    Ok(well_formed_methods(alloc, &tree, SEVEN.as_bytes(), contracts)?)
}

/// Returns their tasks.
fn seven(alloc: Global) -> Result<Vec<Task>, Fail> {
    let methods = methods(alloc)?;
    if !methods.contracts().contracts.is_empty() {
        return Err(Fail::from("contracts"));
    }
    let sounds = Vec::new(alloc);
    let program = Program::new(alloc, methods, sounds)?;
    if program.methods().len() != 7 {
        return Err(Fail::from("not seven methods"));
    }
    Ok(tasks(alloc, &program)?)
}

/// Gives the number of each task, but `Memory` for one. A seat counts the tasks that were run in it.
#[derive(Drop)]
struct Numbers {
    refused: u32,
}

impl Job for Numbers {
    type Seat = u64;

    type Out = u32;

    ghost takes = { λ job task. ⊤ };

    ghost seats = { λ job seat. ⊤ };

    ghost gives = { λ job number out. out ≡ number };

    fn run(&self, task: Task, thread: &mut u64) -> Result<u32, (Task, Memory)> {
        let number = task.method().0;
        if number == self.refused {
            return Err((task, Memory));
        }
        *thread = thread.wrapping_add(1);
        task.give_up();
        Ok(number)
    }
}

/// Counts how often it was entered.
#[derive(Drop)]
struct Count {
    entered: AtomicU64,
}

impl Gate for Count {
    fn enter(&self, _task: u32) {
        self.entered.fetch_add(1, Ordering::SeqCst);
    }
}

/// Holds tasks 0 and 2 until task 3 has entered, and counts how often it gave up waiting.
#[derive(Drop)]
struct Third {
    entered: AtomicU64,
    late: AtomicU64,
}

impl Third {
    /// Returns whether task 3 enters in time.
    fn enters(&self) -> bool {
        for _ in 0..TURNS {
            if self.entered.load(Ordering::SeqCst) == 1 {
                return true;
            }
        }
        false
    }
}

impl Gate for Third {
    fn enter(&self, task: u32) {
        match task {
            0 | 2 => {
                if !self.enters() {
                    self.late.fetch_add(1, Ordering::SeqCst);
                }
            }
            3 => self.entered.store(1, Ordering::SeqCst),
            _ => {}
        }
    }
}

/// Returns whether each of the seven methods has one result, which is its number.
fn is_each_once(done: &[Done<u32>]) -> bool {
    let mut seen = [false; 7];
    for one in done {
        let number = one.method.0 as usize;
        if number >= 7 || seen[number] || one.out != one.method.0 {
            return false;
        }
        seen[number] = true;
    }
    seen == [true; 7]
}

/// Returns seats that show their indices: each counts up from a thousand times its index.
fn numbers_of_seats(alloc: Global, count: u64) -> Result<Vec<u64>, Fail> {
    let mut seats = Vec::new(alloc);
    for index in 0..count {
        seats.push(index.wrapping_mul(1000))?;
    }
    Ok(seats)
}

/// Returns how many tasks were run in such seats; `None` if one of them is not at its index.
fn run_in(seats: &[u64]) -> Option<u64> {
    let mut count = 0u64;
    for (index, seat) in seats.iter().enumerate() {
        if seat / 1000 != index as u64 {
            return None;
        }
        count = count.wrapping_add(seat % 1000);
    }
    Some(count)
}

#[test]
fn each_task_is_run_once(rt: HostRuntime) -> Result<(), Fail> {
    for count in [1usize, 2, 5, 64] {
        let gate = Count {
            entered: AtomicU64::new(0),
        };
        let job = Numbers { refused: NONE };
        let begun = numbers_of_seats(rt.alloc(), count as u64)?;
        let tasks = seven(rt.alloc())?;
        let Ok((seats, done)) = share_out(&rt, rt.alloc(), tasks, begun, &job, &gate) else {
            return Err(Fail::from("not shared out"));
        };
        assert_eq!(rt; seats.len(), count);
        assert_eq!(rt; run_in(&seats), Some(7));
        assert_eq!(rt; gate.entered.load(Ordering::SeqCst), 7);
        assert!(rt; is_each_once(&done), "{count} workers");
    }
    Ok(())
}

#[test]
fn a_refusal_leaves_the_others_at_work(rt: HostRuntime) -> Result<(), Fail> {
    let gate = Count {
        entered: AtomicU64::new(0),
    };
    let job = Numbers { refused: 5 };
    let begun = vec![in rt.alloc(); 0u64; 3]?;
    let tasks = seven(rt.alloc())?;
    let answer = share_out(&rt, rt.alloc(), tasks, begun, &job, &gate);
    assert!(rt; matches!(answer, Err(PoolFault::Memory)));
    assert_eq!(rt; gate.entered.load(Ordering::SeqCst), 7);
    Ok(())
}

#[test]
fn workers_have_their_limits(rt: HostRuntime) -> Result<(), Fail> {
    for count in [0usize, 65] {
        let job = Numbers { refused: NONE };
        let begun = vec![in rt.alloc(); 0u64; count]?;
        let tasks = seven(rt.alloc())?;
        let answer = share_out(&rt, rt.alloc(), tasks, begun, &job, &Open);
        assert!(rt;
            matches!(answer, Err(PoolFault::Workers)),
            "{count} workers"
        );
    }
    Ok(())
}

#[test]
fn the_second_worker_begins_with_its_own(rt: HostRuntime) -> Result<(), Fail> {
    let gate = Third {
        entered: AtomicU64::new(0),
        late: AtomicU64::new(0),
    };
    let job = Numbers { refused: NONE };
    let begun = vec![in rt.alloc(); 0u64; 2]?;
    let tasks = seven(rt.alloc())?;
    let Ok((_, done)) = share_out(&rt, rt.alloc(), tasks, begun, &job, &gate) else {
        return Err(Fail::from("not shared out"));
    };
    assert!(rt; is_each_once(&done));
    assert_eq!(rt; gate.late.load(Ordering::SeqCst), 0);
    Ok(())
}
