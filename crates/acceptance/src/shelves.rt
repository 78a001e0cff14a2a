//! Verdicts on a shelf, and threads that share one.

ghost use Rattle.std.specs.Prelude.{◌≡◌, IfOk, length};
ghost use Rattle.rules.specs.Programs.{model_of};
ghost use Rattle.tasks.specs.Tasks.{task_program};
ghost use Rattle.analyse.specs.Workers.{IsWorkerOf};

use analyse::{Task, Verdict, Worker, analyse, give_up_all, tasks};
use intern::Rows;
use names::{MOST_CONTRACTS, resolve};
use program::{MethodId, Methods};
use rules::Program;
use shelf::Shelf;
use shelf::laws::threads_share_a_shelf;
use source::lex;
use std::alloc::Global;
use std::sync::Wait;
use std::test::Fail;
use std::thread;
use syntax::parse;
use wellformed::well_formed_methods;

/// Three methods without findings.
const THREE: &str = "class K { static void A() { } static void B() { } static void C() { } }";

/// How often a thread looks at a shelf before it gives up.
const TURNS: u64 = 10_000_000;

/// Returns the methods of that text.
fn methods(alloc: Global) -> Result<Methods, Fail> {
    let tokens = lex(alloc, THREE.as_bytes())?;
    let tree = parse(alloc, &tokens)?;
    let contracts = resolve(alloc, &tree, THREE.as_bytes())?;
    if contracts.contracts.len() > MOST_CONTRACTS {
        return Err(Fail::from("too many contracts"));
    }
    Ok(well_formed_methods(alloc, &tree, THREE.as_bytes(), contracts)?)
}

/// Returns the program of that text.
fn three(alloc: Global) -> Result<Program, Fail>
    ensures { IfOk result (λ p. length (model_of p).methods ≡ 3) }
{
    let methods = methods(alloc)?;
    if !methods.contracts().contracts.is_empty() {
        return Err(Fail::from("contracts"));
    }
    let sounds = Vec::new(alloc);
    let program = Program::new(alloc, methods, sounds)?;
    if program.methods().len() != 3 {
        return Err(Fail::from("not three methods"));
    }
    Ok(program)
}

/// Adds the verdict of a task's method.
fn add(
    alloc: Global,
    program: &Program,
    task: Task,
    rows: &Rows,
    worker: &mut Worker,
    verdicts: &mut Vec<Verdict>,
) -> Result<(), Fail>
    requires program { task_program task ≡ program.now }
    requires worker { IsWorkerOf rows.now worker.old }
    ensures { IsWorkerOf rows.now worker.new }
{
    match analyse(alloc, task, program, rows, worker) {
        Ok(verdict) => {
            verdicts.push(verdict)?;
            Ok(())
        }
        Err((task, _)) => {
            task.give_up();
            Err(Fail::from("out of memory"))
        }
    }
}

/// Returns the verdicts of its methods, in order.
fn verdicts_of(alloc: Global, program: &Program) -> Result<Vec<Verdict>, Fail>
    requires { length (model_of program.now).methods ≡ 3 }
{
    let mut verdicts = Vec::new(alloc);
    let Ok((rows, seat)) = Rows::new(alloc, 8) else {
        return Err(Fail::from("out of memory"));
    };
    let mut worker = Worker::new(alloc, seat);
    let mut left = tasks(alloc, program)?.into_iter();
    while let Some(task) = left.next() {
        if let Err(fault) = add(alloc, program, task, &rows, &mut worker, &mut verdicts) {
            give_up_all(left);
            return Err(fault);
        }
    }
    left.destroy_empty();
    Ok(verdicts)
}

/// Returns whether it is the verdict of this method, without findings.
fn is_clean(verdict: Option<&Verdict>, method: u32) -> bool {
    match verdict {
        Some(verdict) => verdict.method() == MethodId(method) && verdict.findings().is_empty(),
        None => false,
    }
}

/// Returns how many verdicts are on the shelf so far; `None` if one is of no method of the three, or has a finding.
fn clean_so_far(shelf: &Shelf) -> Option<u64> {
    let mut count = 0u64;
    for verdict in shelf.so_far() {
        if verdict.method().0 >= 3 || !verdict.findings().is_empty() {
            return None;
        }
        count = count.wrapping_add(1);
    }
    Some(count)
}

/// Puts all of them, and returns whether none came back.
fn put_all<R: Wait>(rt: &R, shelf: &Shelf, verdicts: Vec<Verdict>) -> bool {
    let mut all = true;
    for verdict in verdicts {
        all &= shelf.put(rt, verdict).is_ok();
    }
    all
}

/// Looks at a shelf until `count` verdicts are on it. Returns what it saw last.
fn watch(shelf: &Shelf, count: u64) -> Option<u64> {
    let mut seen = Some(0);
    for _ in 0..TURNS {
        seen = clean_so_far(shelf);
        if seen.is_none() || seen == Some(count) {
            break;
        }
    }
    seen
}

#[test]
fn reads_each_verdict_by_its_receipt(rt: HostRuntime) -> Result<(), Fail> {
    let program = three(rt.alloc())?;
    let mut verdicts = verdicts_of(rt.alloc(), &program)?;
    let (Some(last), Some(second), Some(first)) = (verdicts.pop(), verdicts.pop(), verdicts.pop())
    else {
        return Err(Fail::from("not three verdicts"));
    };
    let shelf = Shelf::new(rt.alloc())?;
    assert!(rt; shelf.so_far().next().is_none());
    let Ok(of_first) = shelf.put(&rt, first) else {
        return Err(Fail::from("out of memory"));
    };
    match shelf.put(&rt, second) {
        Ok(of_second) => assert!(rt; is_clean(Some(shelf.read(&of_second)), 1)),
        Err(back) => assert!(rt; is_clean(Some(&back), 1)),
    }
    let Ok(of_last) = shelf.put(&rt, last) else {
        assert!(rt; is_clean(Some(shelf.read(&of_first)), 0));
        return Err(Fail::from("out of memory"));
    };
    assert!(rt; is_clean(Some(shelf.read(&of_last)), 2));
    assert!(rt; is_clean(Some(shelf.read(&of_first)), 0));
    Ok(())
}

#[test]
fn goes_over_all_that_was_put(rt: HostRuntime) -> Result<(), Fail> {
    let program = three(rt.alloc())?;
    let verdicts = verdicts_of(rt.alloc(), &program)?;
    let shelf = Shelf::new(rt.alloc())?;
    if !put_all(&rt, &shelf, verdicts) {
        return Err(Fail::from("out of memory"));
    }
    let mut so_far = shelf.so_far();
    assert!(rt; so_far.receipt().is_none());
    assert!(rt; is_clean(so_far.next(), 0));
    assert!(rt; is_clean(so_far.next(), 1));
    let Some(last) = so_far.next() else {
        return Err(Fail::from("no third verdict"));
    };
    assert!(rt; is_clean(Some(last), 2));
    match so_far.receipt() {
        Some(receipt) => assert!(rt; is_clean(Some(shelf.read(receipt)), 2)),
        None => assert!(rt; false),
    }
    assert!(rt; so_far.next().is_none());
    Ok(())
}

#[test]
fn threads_put_and_look(rt: HostRuntime) -> Result<(), Fail> {
    threads_share_a_shelf();
    let program = three(rt.alloc())?;
    let shelf = Shelf::new(rt.alloc())?;
    let mut verdicts = verdicts_of(rt.alloc(), &program)?;
    for _ in 0..99 {
        verdicts.append(&mut verdicts_of(rt.alloc(), &program)?)?;
    }
    let (runtime, shared) = (&rt, &shelf);
    let seen = thread::scope(thread::scope_env(), runtime, move |scope| {
        match scope.spawn(move || put_all(runtime, shared, verdicts)) {
            Ok(putter) => {
                let seen = watch(shared, 300);
                if putter.join(runtime) { seen } else { None }
            }
            Err(_) => None,
        }
    });
    assert!(rt; seen.is_some());
    assert_eq!(rt; clean_so_far(&shelf), Some(300));
    Ok(())
}
