//! The report of findings.

ghost use Rattle.std.specs.Prelude.{◌≡◌, map, length, IfOk};
ghost use Rattle.source.specs.Findings.{finding_model};
ghost use Rattle.rules.specs.Programs.{model_of};
ghost use Rattle.singcheck.specs.Lines.{clear_line};
ghost use Rattle.singcheck.specs.Reports.{IsReport, report_bytes};

use crate::lines::{add_clear, add_count, add_finding};
use devices::Status;
use reports::in_report_order;
use rules::Program;
use source::{Finding, Memory};
use std::alloc::Global;

/// The report of a text: its bytes, and whether it has findings.
#[derive(Debug, Drop)]
pub struct Report {
    pub bytes: Vec<u8>,
    pub status: Status,
}

/// Returns the report of findings, with status `Found`.
pub(crate) fn finding_report(alloc: Global, findings: Vec<Finding>) -> Result<Report, Memory>
    ensures bytes { IfOk result (λ r. IsReport (map finding_model findings.items) r.bytes.items) }
    ensures status { IfOk result (λ r. r.status ≡ Status.Found) }
{
    Ok(Report {
        bytes: report_of(alloc, findings)?,
        status: Status::Found,
    })
}

/// Returns the report of a program without findings: `ok: C contracts, M methods`, with status `Empty`.
pub(crate) fn clear(alloc: Global, program: &Program) -> Result<Report, Memory>
    ensures bytes { IfOk result (λ r. r.bytes.items
        ≡ clear_line (length (model_of program.now).contracts) (length (model_of program.now).methods)) }
    ensures status { IfOk result (λ r. r.status ≡ Status.Empty) }
{
    let mut bytes = Vec::new(alloc);
    let contracts = program.contracts().len();
    let methods = program.methods().len();
    add_clear(&mut bytes, contracts, methods)?;
    Ok(Report {
        bytes,
        status: Status::Empty,
    })
}

/// Returns the bytes of a report: a line for each finding, sorted by line, column, code and text, each once, and then
/// their number.
pub(crate) fn report_of(alloc: Global, findings: Vec<Finding>) -> Result<Vec<u8>, Memory>
    ensures { IfOk result (λ bytes. IsReport (map finding_model findings.items) bytes.items) }
{
    let listed = in_report_order(findings)?;
    report_bytes(alloc, &listed)
}

/// Returns a line for each finding, in the given order, and then their number.
fn report_bytes(alloc: Global, findings: &[Finding]) -> Result<Vec<u8>, Memory>
    ensures { IfOk result (λ bytes. bytes.items ≡ report_bytes (map finding_model findings.now)) }
{
    let mut answer = Vec::new(alloc);
    for finding in findings {
        add_finding(&mut answer, finding)?;
    }
    add_count(&mut answer, findings.len())?;
    Ok(answer)
}
