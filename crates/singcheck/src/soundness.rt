//! The stage of the contracts.

ghost use Rattle.std.specs.Prelude.{◌≡◌, ◌++◌, ◌<◌, ◌^◌, All, IfOk, OnOk, Some, length, map, slice_get};
ghost use Rattle.program.specs.Parts.{ContractModel, IsWhole, contract_model};
ghost use Rattle.source.specs.Findings.{finding_model};
ghost use Rattle.singcheck.specs.Broken.{IsBrokenIn, found_of};
ghost use Rattle.singcheck.specs.Judgements.{IsJudgement, JudgesContract};

use contracts::{Judged, Sound, edges};
use program::{ContractId, Resolved};
use source::{Finding, Memory};
use std::alloc::Global;

/// What the four conditions say of the contracts of a text.
#[derive(Drop)]
pub(crate) enum Judgement {
    /// The contracts with findings, at least one, in order of the text.
    Broken(Vec<BrokenContract>),
    /// No findings: the contracts as sound ones, in order of the text.
    Sound(Vec<Sound>),
}

/// A contract with its findings, at least one.
#[derive(Drop)]
pub(crate) struct BrokenContract {
    pub(crate) contract: ContractId,
    pub(crate) findings: Vec<Finding>,
}

/// Returns the contracts as sound ones, or the findings of those that are not sound.
pub(crate) fn judge_contracts(alloc: Global, resolved: &Resolved) -> Result<Judgement, Memory>
    requires whole { All (λ c. IsWhole c.parts) (map contract_model resolved.now.contracts.items) }
    requires few { length resolved.now.contracts.items < 2 ^ 32 }
    ensures { IfOk result (IsJudgement (map contract_model resolved.now.contracts.items)) }
{
    let mut judging = Judging {
        sounds: Vec::new(alloc),
        broken: Vec::new(alloc),
    };
    for number in 0..resolved.contracts.len() as u32 {
        judge(alloc, resolved, ContractId(number), &mut judging)?;
    }
    let Judging { sounds, broken } = judging;
    if broken.is_empty() {
        Ok(Judgement::Sound(sounds))
    } else {
        Ok(Judgement::Broken(broken))
    }
}

/// What has been judged so far.
#[derive(Drop)]
struct Judging {
    sounds: Vec<Sound>,
    broken: Vec<BrokenContract>,
}

/// Returns the findings of these contracts, in no order.
pub(crate) fn findings_in(
    alloc: Global,
    broken: Vec<BrokenContract>,
) -> Result<Vec<Finding>, Memory>
    ensures { IfOk result (λ found. map finding_model found.items ≡ found_of broken.items) }
{
    let mut found = Vec::new(alloc);
    for contract in broken {
        add_found(&mut found, contract.findings)?;
    }
    Ok(found)
}

/// Appends findings. If there are none yet, the new ones are moved, which saves a copy.
fn add_found(findings: &mut Vec<Finding>, mut found: Vec<Finding>) -> Result<(), Memory>
    ensures { OnOk result (findings.new.items ≡ findings.old.items ++ found.items) }
{
    if findings.is_empty() {
        *findings = found;
        return Ok(());
    }
    findings.append(&mut found)?;
    Ok(())
}

/// Adds a contract if it is sound, else the contract with its findings.
fn judge(
    alloc: Global,
    resolved: &Resolved,
    id: ContractId,
    judging: &mut Judging,
) -> Result<(), Memory>
    requires there { id.0 < length resolved.now.contracts.items }
    requires whole { All (λ c. IsWhole c.parts) (map contract_model resolved.now.contracts.items) }
    ensures judged { OnOk result ((c : ContractModel)
        → slice_get (map contract_model resolved.now.contracts.items) id.0 ≡ Some c
        → JudgesContract c judging.old judging.new) }
    ensures each { OnOk result (All (IsBrokenIn (map contract_model resolved.now.contracts.items)) judging.old.broken.items
        → All (IsBrokenIn (map contract_model resolved.now.contracts.items)) judging.new.broken.items) }
{
    match Sound::judge(alloc, edges(resolved, id))? {
        Judged::Sound(sound) => judging.sounds.push(sound)?,
        Judged::Broken(findings) => judging.broken.push(BrokenContract {
            contract: id,
            findings,
        })?,
    }
    Ok(())
}
