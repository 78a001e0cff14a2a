//! The variables that a finding is about.

ghost use Rattle.std.specs.Prelude.{◌≡◌, ◌++◌, IfOk, OnOk, map, option_map};
ghost use Rattle.flow.specs.Graphs.{instruction_model};
ghost use Rattle.traces.specs.Watched as about;

use flow::Instr;
use program::VarId;
use rules::Reason;
use source::Memory;
use std::alloc::Global;

/// Returns the variables that a finding with this reason is about, if its step fails at this instruction.
///
/// # Errors
/// `Memory` if out of memory.
pub(crate) fn watched_variables(
    alloc: Global,
    reason: Reason,
    at: Option<&Instr>,
) -> Result<Vec<VarId>, Memory>
    ensures { IfOk result (λ them. map (λ v. v.0) them.items
        ≡ about.variables_of_reason reason (option_map (λ i. instruction_model i.now) at.entry)) }
{
    let mut variables = Vec::new(alloc);
    match reason {
        Reason::NotOwned(v) | Reason::WrongForCall(v) | Reason::Overwritten(v) => variables.push(
            v,
        )?,
        Reason::StillOwned(v) | Reason::NotBack(v) | Reason::Lent(v) => variables.push(v)?,
        Reason::Twice(v) | Reason::WrongForResult(v) => variables.push(v)?,
        Reason::WrongForField(v) => variables.push(v)?,
        Reason::NotSent { endpoint, .. } | Reason::NotCovered { endpoint, .. } => {
            variables.push(endpoint)?;
        }
        Reason::WrongFor {
            variable,
            endpoint,
            ..
        } => {
            variables.push(variable)?;
            variables.push(endpoint)?;
        }
        Reason::NothingToReceive => add_endpoints(at, &mut variables)?,
        Reason::NoResult => {}
    }
    Ok(variables)
}

/// Adds the endpoints of a switch.
fn add_endpoints(at: Option<&Instr>, variables: &mut Vec<VarId>) -> Result<(), Memory>
    ensures { OnOk result (map (λ v. v.0) variables.new.items ≡ map (λ v. v.0) variables.old.items
        ++ about.endpoints_at (option_map (λ i. instruction_model i.now) at.entry)) }
{
    let Some(Instr::Switch { cases, .. }) = at else {
        return Ok(());
    };
    for endpoint in cases.endpoints() {
        variables.push(endpoint.variable)?;
    }
    Ok(())
}
