//! The findings of a text that has no program.

ghost use Rattle.std.specs.Prelude.{◌≡◌, ◌≢◌, ◌∷◌, [], ℕ, List, IfOk, OnOk, map, slice_get};
ghost use Rattle.source.specs.Findings.{fault_findings, finding_model};
ghost use Rattle.source.specs.Marks.{body_of};
ghost use Rattle.source.specs.Places.{place_of};
ghost use Rattle.singcheck.specs.Answers.{AreFindings, wrong_token};
ghost use Rattle.singcheck.specs.Fronts.{IsRefused};
ghost use Rattle.singcheck.specs.Reports.{IsReportOf};

use crate::front::Refused;
use crate::report::{Report, finding_report};
use crate::soundness::findings_in;
use devices::Status;
use source::{Finding, Memory, TextFault, Token, Tokens, texts};
use std::alloc::Global;

/// Returns the report of a text that has no program, with status `Found`.
///
/// # Errors
/// `Memory` if out of memory, also while the text was read.
pub(crate) fn refused_report(alloc: Global, text: &[u8], refused: Refused) -> Result<Report, Memory>
    requires refused { IsRefused text.now refused }
    ensures bytes { IfOk result (λ r. IsReportOf (AreFindings text.now) r.bytes.items) }
    ensures status { IfOk result (λ r. r.status ≡ Status.Found) }
{
    let findings = findings_of(alloc, text, refused)?;
    finding_report(alloc, findings)
}

/// Returns all findings of the first stage that has any, in no order. The tree or the methods are dropped before the
/// findings are written, so that these can use their memory.
fn findings_of(alloc: Global, text: &[u8], refused: Refused) -> Result<Vec<Finding>, Memory>
    requires refused { IsRefused text.now refused }
    ensures { IfOk result (λ found. AreFindings text.now (map finding_model found.items)) }
{
    match refused {
        Refused::Text(fault) => one(alloc, fault_finding(alloc, fault)?),
        Refused::Syntax(tokens, number) => one(alloc, finding_at(alloc, &tokens, number)?),
        Refused::Names(tree, mistakes) => {
            drop(tree);
            Ok(declarations::findings_of(alloc, text, &mistakes)?)
        }
        Refused::Contracts(methods, broken) => {
            drop(methods);
            findings_in(alloc, broken)
        }
        Refused::Memory => Err(Memory),
    }
}

/// Returns the finding of a fault.
pub(crate) fn fault_finding(alloc: Global, fault: TextFault) -> Result<Finding, Memory>
    ensures fault { OnOk result (fault ≢ TextFault.Memory) }
    ensures told { IfOk result (λ finding. finding_model finding ∷ [] ≡ fault_findings fault) }
{
    match texts::finding_of(alloc, fault)? {
        Some(finding) => Ok(finding),
        None => Err(Memory),
    }
}

/// Returns the finding of the token of that number, or of the end if there is none.
pub(crate) fn finding_at(alloc: Global, tokens: &Tokens, number: usize) -> Result<Finding, Memory>
    ensures { (text : List ℕ) → tokens.now.end ≡ place_of (body_of text) → IfOk result (λ finding. finding_model finding
        ≡ wrong_token text (slice_get tokens.now.list.items number)) }
{
    match token_at(tokens, number) {
        Some(token) => texts::unexpected_token(alloc, token.span.place),
        None => texts::unexpected_end(alloc, tokens.end),
    }
}

/// Returns the token of that number, if there is one.
pub(crate) fn token_at(tokens: &Tokens, number: usize) -> Option<Token>
    ensures { result ≡ slice_get tokens.now.list.items number }
{
    tokens.list.get(number).copied()
}

/// Returns a list of one finding.
fn one(alloc: Global, finding: Finding) -> Result<Vec<Finding>, Memory>
    ensures { IfOk result (λ found. map finding_model found.items ≡ finding_model finding ∷ []) }
{
    let mut findings = Vec::new(alloc);
    findings.push(finding)?;
    Ok(findings)
}
