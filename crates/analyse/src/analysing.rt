//! The analysis of a method.

ghost use Rattle.std.specs.Prelude.{◌≡◌, IfOk, IfErr, map};
ghost use Rattle.std.specs.List.Sorted.{IsStrictlySortedBy};
ghost use Rattle.source.specs.Findings.{finding_model};
ghost use Rattle.reports.specs.Orders.{report_cmp};
ghost use Rattle.intern.specs.View.{ViewGrows};
ghost use Rattle.rules.specs.Programs.{model_of};
ghost use Rattle.tasks.specs.Tasks.{number_of, task_program};
ghost use Rattle.analyse.specs.VerdictParts.{findings_of, program_of, verdict_number};
ghost use Rattle.analyse.specs.Verdicts.{HasTooMany, IsMethodVerdict};
ghost use Rattle.analyse.specs.Workers.{HasLeftTable, HaveIds, IsAtTable, IsWorkerOf, ReachesFar, view_of};

use crate::searching::verdict_of;
use crate::verdict::Verdict;
use crate::worker::Worker;
use intern::Rows;
use rules::Program;
use source::Memory;
use std::alloc::Global;
use tasks::Task;

/// The most pairs of a point and a row that may be reached in a method.
pub const MOST_PAIRS: usize = 20_000;

/// Returns the verdict of the method of a task of this program: the findings at the pairs that can be reached from
/// its entry, or, if there are more than `MOST_PAIRS`, that finding alone. All pairs are examined, and no two rows
/// are joined. Each finding occurs once, in the order of a report.
///
/// Rows are kept in the shared table. Once that has no near slot for a row, the worker leaves the table: it keeps all
/// rows of this method and of each later one itself. The verdict is the same.
///
/// # Errors
/// `Memory` if out of memory, with the task. The worker's seat still knows all that the worker has seen.
pub fn analyse(
    alloc: Global,
    task: Task,
    program: &Program,
    rows: &Rows,
    worker: &mut Worker,
) -> Result<Verdict, (Task, Memory)>
    requires program { task_program task ≡ program.now }
    requires worker { IsWorkerOf rows.now worker.old }
    ensures worker { IsWorkerOf rows.now worker.new }
    ensures grows { ViewGrows (view_of worker.old) (view_of worker.new) }
    ensures program { IfOk result (λ v. program_of v ≡ program.now) }
    ensures method { IfOk result (λ v. verdict_number v ≡ number_of task) }
    ensures found { IfOk result (λ v. IsMethodVerdict (model_of program.now) (number_of task) (map finding_model (findings_of v))) }
    ensures ordered { IfOk result (λ v. IsStrictlySortedBy report_cmp (map finding_model (findings_of v))) }
    ensures left { HasLeftTable worker.old → HasLeftTable worker.new }
    ensures given_up { IsAtTable worker.old → HasLeftTable worker.new
        → ReachesFar (model_of program.now) (number_of task) rows.now worker.new }
    ensures named { IfOk result (λ v. IsAtTable worker.new → (HasTooMany (model_of program.now) (number_of task) → ⊥)
        → HaveIds (model_of program.now) (number_of task) (view_of worker.new)) }
    ensures kept { IfErr result (λ e. e.0 ≡ task) }
{
    match verdict_of(alloc, program, task.method(), rows, worker) {
        Ok(findings) => {
            let (method, program) = task.spend();
            Ok(Verdict {
                method,
                program,
                findings,
            })
        }
        Err(memory) => Err((task, memory)),
    }
}
