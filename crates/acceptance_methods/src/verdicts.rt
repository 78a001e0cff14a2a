//! Tasks that come back if an allocation fails, and are analysed again.

ghost use Rattle.std.specs.Prelude.{◌≡◌, length};
ghost use Rattle.rules.specs.Programs.{model_of};
ghost use Rattle.tasks.specs.Tasks.{task_program};
ghost use Rattle.analyse.specs.Workers.{IsWorkerOf};

use crate::texts::{FREED_AND_READ, FREED_ON_ONE_WAY, only};
use analyse::{Task, Verdict, Worker, analyse, give_up_all, tasks};
use intern::Rows;
use program::MethodId;
use rules::Program;
use source::{Code, Finding, Place};
use std::alloc::Global;
use std::test::Fail;

/// Returns the verdict of a task. If an allocation fails, the task comes back, and the same worker analyses it once more.
fn verdict_of_task(
    alloc: Global,
    task: Task,
    program: &Program,
    rows: &Rows,
    worker: &mut Worker,
) -> Result<Verdict, Fail>
    requires program { task_program task ≡ program.now }
    requires worker { IsWorkerOf rows.now worker.old }
    ensures { IsWorkerOf rows.now worker.new }
{
    match analyse(alloc, task, program, rows, worker) {
        Ok(verdict) => Ok(verdict),
        Err((task, _)) => match analyse(alloc, task, program, rows, worker) {
            Ok(verdict) => Ok(verdict),
            Err((task, _)) => {
                task.give_up();
                Err(Fail::from("refused twice"))
            }
        },
    }
}

/// Returns the verdict of a program's only method.
pub(crate) fn verdict_of(
    alloc: Global,
    program: &Program,
    rows: &Rows,
    worker: &mut Worker,
) -> Result<Verdict, Fail>
    requires one { length (model_of program.now).methods ≡ 1 }
    requires worker { IsWorkerOf rows.now worker.old }
    ensures { IsWorkerOf rows.now worker.new }
{
    let mut left = tasks(alloc, program)?.into_iter();
    match left.next() {
        Some(task) => {
            give_up_all(left);
            if task.method().0 != 0 {
                task.give_up();
                return Err(Fail::from("another method"));
            }
            verdict_of_task(alloc, task, program, rows, worker)
        }
        None => {
            give_up_all(left);
            Err(Fail::from("no task"))
        }
    }
}

/// Returns whether these texts are found, each once or more, with this code and at this place, and nothing else is.
fn are(findings: &[Finding], code: Code, place: Place, texts: &[&str]) -> bool {
    let all = findings.iter().all(|finding| {
        finding.code == code
            && finding.place == place
            && texts.iter().any(|text| finding.text.as_str() == *text)
    });
    all && texts.iter().all(|text| {
        findings
            .iter()
            .any(|finding| finding.text.as_str() == *text)
    })
}

/// Runs with each allocation refused in turn. With a table of one slot the worker keeps the rows itself.
#[test]
fn a_task_that_comes_back_is_analysed_again(rt: HostRuntime) -> Result<(), Fail> {
    let alloc = rt.alloc();
    let branches = only(alloc, FREED_ON_ONE_WAY)?;
    let straight = only(alloc, FREED_AND_READ)?;
    for slots in [1usize, 64] {
        let Ok((rows, seat)) = Rows::new(alloc, slots) else {
            return Err(Fail::from("no table"));
        };
        let mut worker = Worker::new(alloc, seat);
        let verdict = verdict_of(alloc, &branches, &rows, &mut worker)?;
        let left = ["p still owned", "q still owned", "r still owned"];
        let end = Place { line: 7, col: 1 };
        assert!(rt; verdict.method() == MethodId(0));
        assert!(rt;
            are(verdict.findings(), Code::A08, end, &left),
            "{slots} slots"
        );
        let verdict = verdict_of(alloc, &straight, &rows, &mut worker)?;
        let read = Place { line: 3, col: 22 };
        assert!(rt;
            are(verdict.findings(), Code::A01, read, &["q not owned"]),
            "{slots} slots"
        );
    }
    Ok(())
}
