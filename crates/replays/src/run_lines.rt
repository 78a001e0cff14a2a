//! The lines of a run.

ghost use Rattle.std.specs.Prelude.{◌≡◌, ◌++◌, IfOk, OnOk, length};
ghost use Rattle.machine.specs.Views.{world_model};
ghost use Rattle.replays.specs.RunLines as lines;
ghost use Rattle.replays.specs.Telling.{tracer_words};

use crate::end::{EndKind, RunEnd};
use crate::journal::Journal;
use crate::leftover::add_left;
use crate::processes::add_halt;
use crate::texts::{add, add_number};
use crate::tracer::Tracer;
use crate::waits::add_waits;
use machine::Halt;
use source::Memory;

/// Adds how runs end that end in this way.
fn add_kind(answer: &mut Vec<u8>, ending: EndKind) -> Result<(), Memory>
    ensures { OnOk result (answer.new.items ≡ answer.old.items ++ lines.kind_text ending) }
{
    match ending {
        EndKind::Ended => add(answer, b"every process has ended"),
        EndKind::Deadlock => add(answer, b"deadlock"),
        EndKind::Fault => add(answer, b"fault"),
        EndKind::Running => add(answer, b"still running"),
    }
}

/// Adds how a run ends.
fn add_end_text(answer: &mut Vec<u8>, end: RunEnd) -> Result<(), Memory>
    ensures { OnOk result (answer.new.items ≡ answer.old.items ++ lines.end_text end) }
{
    match end {
        RunEnd::Ended => add_kind(answer, EndKind::Ended),
        RunEnd::Deadlock => add_kind(answer, EndKind::Deadlock),
        RunEnd::Fault(event, fault, place) => add_halt(answer, event, Halt::Fault(fault, place)),
        RunEnd::Running => add_kind(answer, EndKind::Running),
    }
}

/// Adds the line of the end of a run of this many events.
fn add_end(answer: &mut Vec<u8>, end: RunEnd, events: usize) -> Result<(), Memory>
    ensures { OnOk result (answer.new.items ≡ answer.old.items ++ lines.end_line end events) }
{
    add(answer, b"end: ")?;
    add_end_text(answer, end)?;
    add(answer, b", after ")?;
    add_number(answer, events as u64)?;
    add(answer, b" events\n")
}

/// Adds the line of the number of conditions that a run chose.
///
/// # Errors
/// `Memory` if out of memory.
pub fn add_conditions(answer: &mut Vec<u8>, conditions: usize) -> Result<(), Memory>
    ensures { OnOk result (answer.new.items ≡ answer.old.items ++ lines.conditions_line conditions) }
{
    add(answer, b"chosen: ")?;
    add_number(answer, conditions as u64)?;
    add(answer, b" conditions\n")
}

/// Adds the line of the seed of a run.
///
/// # Errors
/// `Memory` if out of memory.
pub fn add_seed(answer: &mut Vec<u8>, seed: u64) -> Result<(), Memory>
    ensures { OnOk result (answer.new.items ≡ answer.old.items ++ lines.seed_line seed) }
{
    add(answer, b"seed: ")?;
    add_number(answer, seed)?;
    add(answer, b"\n")
}

/// Adds the line of runs that end in this way: how many they are, and the number of events and the seed of the shortest.
///
/// # Errors
/// `Memory` if out of memory.
pub fn add_tally(
    answer: &mut Vec<u8>,
    ending: EndKind,
    count: u64,
    events: usize,
    seed: u64,
) -> Result<(), Memory>
    ensures { OnOk result (answer.new.items ≡ answer.old.items ++ lines.tally_line ending count events seed) }
{
    add_number(answer, count)?;
    add(answer, b" runs: ")?;
    add_kind(answer, ending)?;
    add(answer, b", the shortest after ")?;
    add_number(answer, events as u64)?;
    add(answer, b" events with seed ")?;
    add_number(answer, seed)?;
    add(answer, b"\n")
}

impl Tracer<'_> {
    /// Adds the lines of a run that ends so: those of its events, its end, a line for each process that has not ended and for
    /// each block that is not freed, and the number of conditions that it chose. Which blocks are lost is given by their
    /// addresses.
    ///
    /// # Errors
    /// `Memory` if out of memory.
    pub fn add_run(
        &self,
        answer: &mut Vec<u8>,
        journal: &Journal,
        end: RunEnd,
        lost: &[bool],
    ) -> Result<(), Memory>
        ensures { OnOk result (answer.new.items ≡ answer.old.items
            ++ lines.run_lines (tracer_words self.now) (world_model journal.now.world) (length journal.now.events.items)
            journal.now.lines.items journal.now.conditions end lost.now) }
    {
        add(answer, &journal.lines)?;
        add_end(answer, end, journal.events.len())?;
        add_waits(answer, &self.naming, &journal.world)?;
        add_left(answer, &self.naming, journal.world.blocks(), lost)?;
        add_conditions(answer, journal.conditions)?;
        Ok(())
    }
}
