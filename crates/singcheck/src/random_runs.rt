//! A run that is chosen at random.

ghost use Rattle.std.specs.Prelude.{◌≡◌, ◌≢◌, ◌<◌, ◌++◌, [], ℕ, List, IfErr, IfOk, IfSome, IsErrOf, None, OnErr, OnOk, length};
ghost use Rattle.std.specs.Option.{option_map_or};
ghost use Rattle.std.specs.Io.KnownBytes.{Keeps};
ghost use Rattle.rules.specs.Programs.{model_of};
ghost use Rattle.replays.specs.RunLines.{seed_line};
ghost use Rattle.runs.specs.Tallies.{tallies_lines};
ghost use Rattle.devices.specs.Runs.{BeginsAnswer, LeavesRest, TakesAtMost, Writes};
ghost use Rattle.singcheck.specs.Entered.{IsBegun};
ghost use Rattle.singcheck.specs.PrintedRuns.{IsRunningFault, IsSeededRun, IsTextRunFault, RunsAtRandom, RunsFaultless};
ghost use Rattle.singcheck.specs.Replays.{LacksEntry};
ghost use Rattle.singcheck.specs.Safety.{HasEmptyReport};

use crate::entering::{Begun, enter};
use crate::laws::{
    each_program_has_bounds, each_program_is_well_formed, findings_or_program, one_program,
};
use crate::printed_runs::{Ran, printed_run, tracer_of};
use crate::refusals::refused_report;
use devices::{Input, MAX_READ, RunFault, Sink, Source, Status, read_text, write_all};
use replays::laws::lines_are_of_runs;
use replays::{Detail, add_seed};
use runs::{Plan, Tallies, random_run};
use semantics::laws::events_agree;
use sound::laws::{empty_report_is_safe, runs_are_bounded};
use source::Memory;
use std::alloc::Global;

/// What a random run is asked for: the seed of the first one, how many there are, how many events each has at most, and which of them have
/// lines.
#[derive(Clone, Copy, Debug)]
pub struct RunOptions {
    pub seed: u64,
    pub runs: u64,
    pub steps: u64,
    pub detail: Detail,
}

/// Reads a program text, runs it from an entry at random, and writes the lines of that run.
///
/// If the text, its names or its contracts have findings, the report of the first of these stages with findings is written, with status
/// `Found`; findings in methods do not matter. Otherwise the entry is looked up, and a run of it is chosen: each next event is one of
/// those that can be taken, all alike likely, except that a condition is true three times in four. If more than one run is asked for,
/// the shortest of those that end in a deadlock or a fault is taken, or else the last. Written are a line for each of its events of the
/// wanted detail, how it ends, a line for each process that has not ended and each block that is not freed, how many conditions it chose,
/// and its seed; then, if more than one run is asked for, how many ended in each way, and the length and the seed of the shortest of
/// these. The status is `Found` if the run ends in a deadlock or a fault, else `Empty`.
///
/// If `check` finds nothing in the text, no run ends with a fault.
///
/// Returns the status, and a schedule with which `replay` takes the same events, the fault at the end included; `None` if the text has
/// findings, or if no schedule is that long.
///
/// # Errors
/// `Entry` if no method is called `entry` (`Class.Method`), or if the first one that is gives something or takes something, numbers
/// included. `Read` and `Write` only if that device failed, `Memory` only if out of memory. Nothing is written before the whole answer
/// is known. After `Write`, a beginning of it was written.
pub fn run_random<R: Source, W: Sink>(
    alloc: Global,
    reader: &mut R,
    entry: &[u8],
    options: &RunOptions,
    writer: &mut W,
) -> Result<(Status, Option<Vec<u8>>), RunFault>
    ensures written { IfOk result (λ ran. IfSome (R.remaining reader.old) (λ text.
        Writes (RunsAtRandom entry.now options.now.detail ran.1) text (W.contents writer.old) (W.contents writer.new) ran.0)) }
    ensures safe { IfOk result (λ ran. IfSome (R.remaining reader.old) (λ text. HasEmptyReport text
        → Writes (RunsFaultless entry.now options.now.detail ran.1) text (W.contents writer.old) (W.contents writer.new) ran.0)) }
    ensures begun { IsErrOf result RunFault.Write → IfSome (R.remaining reader.old) (λ text.
        BeginsAnswer (RunsAtRandom entry.now options.now.detail None) text (W.contents writer.old) (W.contents writer.new)) }
    ensures entry { IsErrOf result RunFault.Entry → IfSome (R.remaining reader.old) (λ text. LacksEntry text entry.now) }
    ensures rest { OnOk result (LeavesRest MAX_READ (R.remaining reader.old) (R.remaining reader.new)) }
    ensures most { TakesAtMost MAX_READ (R.remaining reader.old) (R.remaining reader.new) }
    ensures read { IsErrOf result (RunFault.Read Input.Text) → R.failed reader.new ≢ R.failed reader.old }
    ensures write { IsErrOf result RunFault.Write → W.failed writer.new ≢ W.failed writer.old }
    ensures unwritten { OnErr result ((IsErrOf result RunFault.Write → ⊥) → Keeps (W.contents writer.old) (W.contents writer.new)) }
    ensures fault { IfErr result IsRunningFault }
{
    let text = read_text(alloc, reader)?;
    let ran = run_text(alloc, &text, entry, options)?;
    write_all(&ran.report.bytes, writer)?;
    Ok((ran.report.status, ran.schedule))
}

/// Returns the answer to a text and an entry.
fn run_text(alloc: Global, text: &[u8], entry: &[u8], options: &RunOptions) -> Result<Ran, RunFault>
    ensures runs { IfOk result (λ ran.
        RunsAtRandom entry.now options.now.detail ran.schedule text.now ran.report.bytes.items ran.report.status) }
    ensures safe { IfOk result (λ ran. HasEmptyReport text.now
        → RunsFaultless entry.now options.now.detail ran.schedule text.now ran.report.bytes.items ran.report.status) }
    ensures entry { IsErrOf result RunFault.Entry → LacksEntry text.now entry.now }
    ensures fault { IfErr result IsTextRunFault }
{
    one_program();
    each_program_has_bounds();
    each_program_is_well_formed();
    findings_or_program();
    empty_report_is_safe();
    runs_are_bounded();
    events_agree();
    lines_are_of_runs();
    match enter(alloc, text, entry) {
        Ok(Some(begun)) => Ok(run_begun(alloc, &begun, options)?),
        Ok(None) => Err(RunFault::Entry),
        Err(refused) => Ok(Ran {
            report: refused_report(alloc, text, refused)?,
            schedule: None,
        }),
    }
}

/// Runs a method at random and returns the lines of the run.
fn run_begun(alloc: Global, begun: &Begun, options: &RunOptions) -> Result<Ran, Memory>
    requires there { begun.now.method.0 < length (model_of begun.now.program).methods }
    ensures { IfOk result (λ ran. (text entry : List ℕ) → IsBegun text entry begun.now
        → IsSeededRun entry options.now.detail ran.schedule text ran.report.bytes.items ran.report.status) }
{
    events_agree();
    lines_are_of_runs();
    let tracer = tracer_of(alloc, begun, options.detail)?;
    let plan = Plan {
        method: begun.method,
        seed: options.seed,
        runs: options.runs,
        steps: options.steps,
    };
    let random = random_run(alloc, &tracer, &plan)?;
    let seed = random.seed;
    let tallies = shown_tallies(options.runs, random.tallies);
    let mut ran = printed_run(alloc, &tracer, random.run)?;
    add_seed_and_tallies(&mut ran.report.bytes, seed, tallies)?;
    Ok(ran)
}

/// Returns the tallies if there were several runs.
fn shown_tallies(runs: u64, tallies: Tallies) -> Option<Tallies>
    ensures { IfSome result (λ shown. shown ≡ tallies) }
{
    if runs > 1 { Some(tallies) } else { None }
}

/// Adds the line of a seed, and those of tallies if there are any.
fn add_seed_and_tallies(
    answer: &mut Vec<u8>,
    seed: u64,
    tallies: Option<Tallies>,
) -> Result<(), Memory>
    ensures { OnOk result (answer.new.items ≡ answer.old.items ++ (seed_line seed ++ option_map_or tallies_lines tallies [])) }
{
    add_seed(answer, seed)?;
    match tallies {
        Some(tallies) => tallies.add_to(answer),
        None => Ok(()),
    }
}
