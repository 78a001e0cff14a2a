//! Queue bounds of the contracts of a text.

ghost use Rattle.std.specs.Prelude.{◌≡◌, ◌≢◌, ◌<◌, ◌^◌, ℕ, All, List, IfErr, IfOk, IfSome, IsErrOf, OnOk, OnErr, length, map, string_bytes};
ghost use Rattle.std.specs.Io.KnownBytes.{Keeps};
ghost use Rattle.contracts.specs.Sounds.{sound_parts};
ghost use Rattle.devices.specs.RunFaults.{IsBoundsFault};
ghost use Rattle.devices.specs.Runs.{Writes, BeginsAnswer, LeavesRest, TakesAtMost};
ghost use Rattle.program.specs.Parts.{IsWhole, contract_model};
ghost use Rattle.singcheck.specs.Answers.{Answers, IsBoundsReport, IsResolved};
ghost use Rattle.singcheck.specs.Judgements.{AddsLine, IsClean};

use crate::front::resolved_of;
use crate::lines::{add_bounds, add_contracts};
use crate::refusals::refused_report;
use crate::report::{Report, finding_report};
use crate::soundness::{Judgement, findings_in, judge_contracts};
use contracts::Sound;
use devices::{Input, MAX_READ, RunFault, Sink, Source, Status, read_text, write_all};
use program::{Contract, Resolved, Side};
use source::Memory;
use std::alloc::Global;

/// Reads a program text and writes the greatest length of each queue of its contracts, or its findings.
///
/// If there are no findings, it writes a line `NAME: to Exp N, to Imp N` for each contract in order of the text and
/// then a line `ok: C contracts`, with status `Empty`; otherwise the report of the first stage that has findings (the
/// text, its names, its contracts), with status `Found`. At most `MAX_READ` bytes are read, and the rest is left
/// unread. That queues have bounds at all is a condition of Fähndrich et al., EuroSys 2006.
///
/// # Errors
/// `Read` and `Write` only if that device failed, `Memory` only if out of memory. Nothing is written before the whole
/// answer is known. After `Write`, a beginning of it was written.
pub fn run_bounds<R: Source, W: Sink>(
    alloc: Global,
    reader: &mut R,
    writer: &mut W,
) -> Result<Status, RunFault>
    ensures written { IfOk result (λ status. IfSome (R.remaining reader.old) (λ text.
        Writes Answers text (W.contents writer.old) (W.contents writer.new) status)) }
    ensures begun { IsErrOf result RunFault.Write → IfSome (R.remaining reader.old) (λ text.
        BeginsAnswer Answers text (W.contents writer.old) (W.contents writer.new)) }
    ensures rest { OnOk result (LeavesRest MAX_READ (R.remaining reader.old) (R.remaining reader.new)) }
    ensures most { TakesAtMost MAX_READ (R.remaining reader.old) (R.remaining reader.new) }
    ensures read { IsErrOf result (RunFault.Read Input.Text) → R.failed reader.new ≢ R.failed reader.old }
    ensures write { IsErrOf result RunFault.Write → W.failed writer.new ≢ W.failed writer.old }
    ensures unwritten { OnErr result ((IsErrOf result RunFault.Write → ⊥) → Keeps (W.contents writer.old) (W.contents writer.new)) }
    ensures fault { IfErr result IsBoundsFault }
{
    let text = read_text(alloc, reader)?;
    let answer = bounds_report(alloc, &text)?;
    write_all(&answer.bytes, writer)?;
    Ok(answer.status)
}

/// The contracts of a text with their names resolved, and a sound one for each, in order of the text.
#[derive(Drop)]
struct Clean {
    resolved: Resolved,
    sounds: Vec<Sound>,
}

/// Returns the answer to a text. Its tree is dropped before the contracts are judged, so that these can use its memory.
fn bounds_report(alloc: Global, text: &[u8]) -> Result<Report, Memory>
    ensures { IfOk result (λ answer. Answers text.now answer.bytes.items answer.status) }
{
    match resolved_of(alloc, text) {
        Ok((resolved, tree)) => {
            drop(tree);
            contracts_report(alloc, resolved)
        }
        Err(refused) => refused_report(alloc, text, refused),
    }
}

/// Returns the bounds of these contracts, or the report of their findings.
fn contracts_report(alloc: Global, resolved: Resolved) -> Result<Report, Memory>
    requires whole { All (λ c. IsWhole c.parts) (map contract_model resolved.contracts.items) }
    requires few { length resolved.contracts.items < 2 ^ 32 }
    ensures { IfOk result (λ answer. (text : List ℕ) → IsResolved text (map contract_model resolved.contracts.items)
        → Answers text answer.bytes.items answer.status) }
{
    match judge_contracts(alloc, &resolved)? {
        Judgement::Broken(broken) => {
            drop(resolved);
            finding_report(alloc, findings_in(alloc, broken)?)
        }
        Judgement::Sound(sounds) => Ok(Report {
            bytes: bounds_lines(alloc, &Clean { resolved, sounds })?,
            status: Status::Empty,
        }),
    }
}

/// Returns a line for each contract, and then their number.
fn bounds_lines(alloc: Global, clean: &Clean) -> Result<Vec<u8>, Memory>
    ensures { IfOk result (λ bytes. (text : List ℕ) → IsClean text clean.now → IsBoundsReport text bytes.items) }
{
    let mut answer = Vec::new(alloc);
    for (contract, sound) in clean.resolved.contracts.iter().zip(&clean.sounds) {
        add_bounds_of(&mut answer, contract, sound)?;
    }
    add_contracts(&mut answer, clean.resolved.contracts.len())?;
    Ok(answer)
}

/// Adds the line of a contract.
fn add_bounds_of(answer: &mut Vec<u8>, contract: &Contract, sound: &Sound) -> Result<(), Memory>
    ensures { OnOk result (AddsLine (record { name = string_bytes contract.now.name; parts = sound_parts sound.now })
        answer.old.items answer.new.items) }
{
    let to_exp = sound.bound(Side::Exp);
    let to_imp = sound.bound(Side::Imp);
    add_bounds(answer, contract.name.as_str(), to_exp, to_imp)
}
