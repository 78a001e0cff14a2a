//! The order of findings in a report.

ghost use Rattle.std.specs.Prelude.{◌↔◌, Contains, IfOk, map};
ghost use Rattle.std.specs.List.Sorted.{IsStrictlySortedBy};
ghost use Rattle.source.specs.Findings.{FindingModel, finding_model};
ghost use Rattle.reports.specs.Orders.{report_cmp};

use source::{Finding, Memory, compare};

/// Returns the same findings in report order, by line, column, code and text, each once.
///
/// # Errors
/// `Memory` if an allocation was refused.
pub fn in_report_order(findings: Vec<Finding>) -> Result<Vec<Finding>, Memory>
    ensures same { IfOk result (λ listed. (f : FindingModel)
        → Contains (map finding_model listed.items) f ↔ Contains (map finding_model findings.items) f) }
    ensures ordered { IfOk result (λ listed. IsStrictlySortedBy report_cmp (map finding_model listed.items)) }
{
    let mut listed = findings;
    listed.sort_by(|a, b| compare(a, b))?;
    listed.dedup_by(|later, earlier| compare(later, earlier).is_eq());
    Ok(listed)
}
