//! The job of a worker.

ghost use Rattle.std.specs.Prelude.{◌≡◌};
ghost use Rattle.tasks.specs.Tasks.{task_program};
ghost use Rattle.analyse.specs.Workers.{IsWorkerOf};
ghost use Rattle.singcheck.specs.Verdicts.{HasVerdict};

use analyse::{Task, Verdict, Worker, analyse};
use intern::Rows;
use pool::Job;
use rules::Program;
use shelf::{Receipt, Shelf};
use source::Memory;
use std::alloc::Global;
use std::sync::Wait;

/// A job on methods: it judges a method and puts the verdict on the shelf. Its result is the receipt, or the verdict
/// itself, which the shelf hands back if it has no room.
#[derive(Drop)]
pub(crate) struct Judging<'a, R> {
    pub(crate) rt: &'a R,
    pub(crate) alloc: Global,
    pub(crate) program: &'a Program,
    pub(crate) rows: &'a Rows,
    pub(crate) shelf: &'a Shelf,
}

impl<'a, R: Wait + Sync> Job for Judging<'a, R> {
    type Seat = Worker;

    type Out = Result<Receipt, Verdict>;

    ghost takes = { λ job task. task_program task ≡ job.program.now };

    ghost seats = { λ job worker. IsWorkerOf job.rows.now worker };

    ghost gives = { λ job number out. HasVerdict job.program.now job.shelf.now number out };

    fn run(
        &self,
        task: Task,
        worker: &mut Worker,
    ) -> Result<Result<Receipt, Verdict>, (Task, Memory)> {
        let verdict = analyse(self.alloc, task, self.program, self.rows, worker)?;
        Ok(self.shelf.put(self.rt, verdict))
    }
}
