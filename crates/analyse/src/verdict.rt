//! Verdicts of methods.

ghost use Rattle.std.specs.Prelude.{◌≡◌, map};
ghost use Rattle.std.specs.List.Sorted.{IsStrictlySortedBy};
ghost use Rattle.source.specs.Findings.{finding_model};
ghost use Rattle.reports.specs.Orders.{report_cmp};
ghost use Rattle.rules.specs.Programs.{model_of};
ghost use Rattle.analyse.specs.Verdicts.{IsMethodVerdict, listed_once};

use program::MethodId;
use rules::Program;
use source::Finding;
use std::snapshot::Snapshot;

/// The verdict of a method: all findings of steps at the pairs that can be reached from its entry, or that these are
/// too many. It remembers the program of the method.
#[derive(Drop)]
pub struct Verdict {
    pub(crate) method: MethodId,
    pub(crate) program: Snapshot<Program>,
    pub(crate) findings: Vec<Finding>,
    ghost judged: { ∥ IsMethodVerdict (model_of program.value) method.0 (map finding_model findings.items) ∥₁ },
    ghost ordered: { IsStrictlySortedBy report_cmp (map finding_model findings.items) } by { listed_once findings.items },
}

impl Verdict {
    ghost use Rattle.analyse.specs.VerdictParts.{findings_of, program_of, verdict_number};

    /// Returns the method.
    pub fn method(&self) -> MethodId
        ensures { result.0 ≡ verdict_number self.now }
    {
        self.method
    }

    /// Returns the findings, each once, in the order of a report.
    pub fn findings(&self) -> &[Finding]
        ensures findings { result.now ≡ findings_of self.now }
        ensures judged { ∥ IsMethodVerdict (model_of (program_of self.now)) (verdict_number self.now) (map finding_model result.now) ∥₁ }
        ensures ordered { IsStrictlySortedBy report_cmp (map finding_model result.now) }
    {
        &self.findings
    }

    /// Returns the findings, each once, in the order of a report.
    pub fn into_findings(self) -> Vec<Finding>
        ensures findings { result.items ≡ findings_of self }
        ensures judged { ∥ IsMethodVerdict (model_of (program_of self)) (verdict_number self) (map finding_model result.items) ∥₁ }
        ensures ordered { IsStrictlySortedBy report_cmp (map finding_model result.items) }
    {
        self.findings
    }
}
