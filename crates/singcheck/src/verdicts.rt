//! Findings in the methods of a program.

ghost use Rattle.std.specs.Prelude.{◌≡◌, ◌<◌, ◌^◌, ◌++◌, All, IfOk, OnOk, length, map};
ghost use Rattle.source.specs.Findings.{finding_model};
ghost use Rattle.contracts.specs.Conditions.{AreExactly};
ghost use Rattle.rules.specs.Programs.{model_of};
ghost use Rattle.analyse.specs.Verdicts.{IsMethodVerdict};
ghost use Rattle.pool.specs.Counts.{method_of};
ghost use Rattle.singcheck.specs.Checks.{IsWrong};
ghost use Rattle.singcheck.specs.Verdicts.{AddsVerdict, AreOfMethods, HasVerdict};

use crate::judging::Judging;
use crate::seats::{table, workers_at};
use crate::tools::Tools;
use analyse::{Verdict, tasks};
use intern::laws::threads_share_rows;
use pool::{Done, Gate, share_out};
use rules::Program;
use rules::laws::threads_share_a_program;
use shelf::laws::threads_share_a_shelf;
use shelf::{Receipt, Shelf};
use source::{Finding, Memory};
use std::alloc::Global;
use std::sync::Wait;
use std::thread::Threads;

/// Returns the findings of all methods, in no order. Workers share the methods and put their verdicts on the shelf.
/// With one method or one worker, no thread is started.
///
/// # Errors
/// `Memory` if out of memory or if a thread could not be started.
pub(crate) fn analyse_methods<R: Threads + Wait + Sync, G: Gate>(
    tools: &Tools<'_, R, G>,
    program: &Program,
) -> Result<Vec<Finding>, Memory>
    ensures { IfOk result (λ found. AreExactly (IsWrong (model_of program.now)) (map finding_model found.items)) }
{
    threads_share_a_program();
    threads_share_rows();
    threads_share_a_shelf();
    let alloc = tools.alloc;
    let (rows, seat) = table(alloc, tools.slots)?;
    let most = tools.workers.min(program.methods().len());
    let workers = workers_at(alloc, &rows, seat, most.saturating_sub(1))?;
    let job = Judging {
        rt: tools.rt,
        alloc,
        program,
        rows: &rows,
        shelf: tools.shelf,
    };
    let all = tasks(alloc, program)?;
    match share_out(tools.rt, alloc, all, workers, &job, tools.gate) {
        Ok((_, done)) => found_in(alloc, tools.shelf, program, &done),
        Err(_) => Err(Memory),
    }
}

/// Returns the findings of the methods that these workers are done with.
///
/// # Errors
/// `Memory` if out of memory.
fn found_in(
    alloc: Global,
    shelf: &Shelf,
    program: &Program,
    done: &[Done<Result<Receipt, Verdict>>],
) -> Result<Vec<Finding>, Memory>
    requires each { All (λ d. HasVerdict program.now shelf.now (method_of d) d.out) done.now }
    ensures { IfOk result (λ found. AreOfMethods (model_of program.now) (map method_of done.now) (map finding_model found.items)) }
{
    let mut found = Vec::new(alloc);
    for one in done {
        add_copies(alloc, findings_of(shelf, program, one), &mut found)?;
    }
    Ok(found)
}

/// Returns the findings of a method: those of its verdict on the shelf or, if the shelf had no room for it, of the verdict that came back.
fn findings_of<'s>(
    shelf: &'s Shelf,
    _program: &Program,
    done: &'s Done<Result<Receipt, Verdict>>,
) -> &'s [Finding]
    requires has { HasVerdict _program.now shelf.now (method_of done.now) done.now.out }
    ensures { IsMethodVerdict (model_of _program.now) (method_of done.now) (map finding_model result.now) }
{
    match &done.out {
        Ok(receipt) => shelf.read(receipt).findings(),
        Err(verdict) => verdict.findings(),
    }
}

/// Adds copies of these findings.
fn add_copies(alloc: Global, findings: &[Finding], found: &mut Vec<Finding>) -> Result<(), Memory>
    ensures { OnOk result (map finding_model found.new.items
        ≡ map finding_model found.old.items ++ map finding_model findings.now) }
{
    for finding in findings {
        let copy = Finding {
            place: finding.place,
            code: finding.code,
            text: String::from_str(alloc, finding.text.as_str())?,
        };
        found.push(copy)?;
    }
    Ok(())
}
