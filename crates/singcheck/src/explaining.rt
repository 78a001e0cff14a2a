//! The report with a trace under each finding.

ghost use Rattle.std.specs.Prelude.{◌≡◌, ◌↔◌, ◌++◌, All, Contains, IfOk, OnOk, map};
ghost use Rattle.std.specs.List.Sorted.{IsStrictlySortedBy};
ghost use Rattle.contracts.specs.Conditions.{AreExactly};
ghost use Rattle.program.specs.Parts.{contract_model};
ghost use Rattle.reports.specs.Orders.{report_cmp};
ghost use Rattle.rules.specs.Programs.{model_of};
ghost use Rattle.source.specs.Findings.{FindingModel, finding_model};
ghost use Rattle.explanations.specs.Explained.{explained_model};
ghost use Rattle.explanations.specs.declared.line.Explained.{Explained as ExplainedModel};
ghost use Rattle.singcheck.specs.Checks.{IsWrong};
ghost use Rattle.singcheck.specs.Broken.{IsBrokenIn, found_of};
ghost use Rattle.singcheck.specs.Explains.{IsExplainedIn, IsShownIn, explained_bytes, explained_lines};

use crate::lines::{add_count, add_finding, add_line};
use crate::seats::table;
use crate::soundness::BrokenContract;
use analyse::Worker;
use contract_traces::show_faults;
use contracts::edges;
use explanations::Explained;
use program::{MethodId, Resolved};
use rules::Program;
use source::{Memory, Place, compare};
use std::alloc::Global;
use traces::explain;

/// The number of slots of the table of rows.
const SLOTS: usize = 65_536;

/// Returns the findings of all methods with their traces, in no order. If a place is named, only findings there have
/// a trace.
///
/// # Errors
/// `Memory` if out of memory.
pub(crate) fn explain_methods(
    alloc: Global,
    program: &Program,
    named: Option<Place>,
) -> Result<Vec<Explained>, Memory>
    ensures found { IfOk result (λ found. AreExactly (IsWrong (model_of program.now)) (map (λ e. finding_model e.finding) found.items)) }
    ensures each { IfOk result (λ found. All (λ e. IsExplainedIn named (model_of program.now) (explained_model e)) found.items) }
{
    let (rows, seat) = table(alloc, SLOTS)?;
    let mut worker = Worker::new(alloc, seat);
    let mut found = Vec::new(alloc);
    for number in 0..program.methods().len() as u32 {
        let method = MethodId(number);
        let mut more = explain(alloc, program, method, named, &rows, &mut worker)?;
        found.append(&mut more)?;
    }
    Ok(found)
}

/// Returns the findings of these contracts with edges that show them. If a place is named, only findings there have lines.
///
/// # Errors
/// `Memory` if out of memory.
pub(crate) fn explain_contracts(
    alloc: Global,
    resolved: &Resolved,
    broken: Vec<BrokenContract>,
    named: Option<Place>,
) -> Result<Vec<Explained>, Memory>
    requires each { All (IsBrokenIn (map contract_model resolved.now.contracts.items)) broken.items }
    ensures same { IfOk result (λ found. map (λ e. finding_model e.finding) found.items ≡ found_of broken.items) }
    ensures each { IfOk result (λ found.
        All (λ e. IsShownIn named (map contract_model resolved.now.contracts.items) (explained_model e)) found.items) }
{
    let mut found = Vec::new(alloc);
    for one in broken {
        let contract = edges(resolved, one.contract);
        let mut more = show_faults(alloc, contract, one.findings, named)?;
        found.append(&mut more)?;
    }
    Ok(found)
}

/// Sorts findings with their lines in the order of a report and keeps each finding once.
///
/// # Errors
/// `Memory` if out of memory.
pub(crate) fn explained_in_order(explained: Vec<Explained>) -> Result<Vec<Explained>, Memory>
    ensures same { IfOk result (λ listed. (f : FindingModel) → Contains (map (λ e. finding_model e.finding) listed.items) f
        ↔ Contains (map (λ e. finding_model e.finding) explained.items) f) }
    ensures among { IfOk result (λ listed. (e : ExplainedModel) → Contains listed.items e → Contains explained.items e) }
    ensures ordered { IfOk result (λ listed. IsStrictlySortedBy report_cmp (map (λ e. finding_model e.finding) listed.items)) }
{
    let mut listed = explained;
    listed.sort_by(|a, b| compare(&a.finding, &b.finding))?;
    listed.dedup_by(|later, earlier| compare(&later.finding, &earlier.finding).is_eq());
    Ok(listed)
}

/// Returns a line for each finding with its trace below, in the given order, and then their number.
pub(crate) fn explained_report(alloc: Global, listed: &[Explained]) -> Result<Vec<u8>, Memory>
    ensures { IfOk result (λ bytes. bytes.items ≡ explained_bytes (map explained_model listed.now)) }
{
    let mut answer = Vec::new(alloc);
    for explained in listed {
        add_explained(&mut answer, explained)?;
    }
    add_count(&mut answer, listed.len())?;
    Ok(answer)
}

/// Adds the line of a finding and those of its trace.
fn add_explained(answer: &mut Vec<u8>, explained: &Explained) -> Result<(), Memory>
    ensures { OnOk result (answer.new.items ≡ answer.old.items ++ explained_lines (explained_model explained.now)) }
{
    add_finding(answer, &explained.finding)?;
    for line in &explained.lines {
        add_line(answer, line)?;
    }
    Ok(())
}
