//! The findings of a method.

ghost use Rattle.std.specs.Prelude.{◌≡◌, ◌<◌, ◌↔◌, ◌∷◌, [], Contains, IfOk, length, map};
ghost use Rattle.std.specs.List.Sorted.{IsStrictlySortedBy};
ghost use Rattle.source.specs.Findings.{FindingModel, finding_model};
ghost use Rattle.reports.specs.Orders.{report_cmp};
ghost use Rattle.rules.specs.Breaches.{breach_in};
ghost use Rattle.rules.specs.Programs.{model_of};
ghost use Rattle.analyse.specs.Found.{breaches_of};
ghost use Rattle.analyse.specs.Verdicts.{place_of_method, too_many_pairs};

use crate::breaches::Breaches;
use program::MethodId;
use reports::in_report_order;
use rules::Program;
use source::{Finding, Memory, Place, texts};
use std::alloc::Global;

/// Returns the findings of these breaches in a method, in the order of a report, each once.
///
/// # Errors
/// `Memory` if out of memory.
pub(crate) fn findings_of(
    alloc: Global,
    program: &Program,
    method: MethodId,
    found: Breaches,
) -> Result<Vec<Finding>, Memory>
    requires there { method.0 < length (model_of program.now).methods }
    ensures same { IfOk result (λ findings. (f : FindingModel) → Contains (map finding_model findings.items) f
        ↔ Contains (map (breach_in (model_of program.now) method.0) (breaches_of found)) f) }
    ensures ordered { IfOk result (λ findings. IsStrictlySortedBy report_cmp (map finding_model findings.items)) }
{
    let mut findings = Vec::new(alloc);
    for breach in &found.into_different()? {
        findings.push(program.finding(alloc, method, *breach)?)?;
    }
    in_report_order(findings)
}

/// Returns the one finding of a method in which too many pairs are reached, at the method's name.
pub(crate) fn too_many(
    alloc: Global,
    program: &Program,
    method: MethodId,
) -> Result<Vec<Finding>, Memory>
    requires there { method.0 < length (model_of program.now).methods }
    ensures { IfOk result (λ findings. map finding_model findings.items
        ≡ too_many_pairs (place_of_method (model_of program.now) method.0) ∷ []) }
{
    let mut alone = Vec::new(alloc);
    alone.push(texts::too_many_pairs(alloc, place_of(program, method))?)?;
    Ok(alone)
}

/// Returns the place of the name of a method.
fn place_of(program: &Program, method: MethodId) -> Place
    requires there { method.0 < length (model_of program.now).methods }
    ensures { result ≡ place_of_method (model_of program.now) method.0 }
{
    program.methods()[method.0 as usize].name
}
