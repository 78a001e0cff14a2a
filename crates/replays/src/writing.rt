//! Events as the text of a schedule.

ghost use Rattle.std.specs.Prelude.{◌≡◌, IfOk, IfSome, true};
ghost use Rattle.replays.specs.Schedules.{IsSchedule};

use crate::fault::ScheduleFault;
use crate::schedule::read_schedule;
use crate::texts::{add, add_number};
use machine::Event;
use source::Memory;
use std::alloc::Global;

/// Returns the lines of these events: the number of a process and a choice each.
fn event_lines(alloc: Global, events: &[Event]) -> Result<Vec<u8>, Memory> {
    let mut lines = Vec::new(alloc);
    for event in events {
        add_number(&mut lines, event.process)?;
        add(&mut lines, b" ")?;
        add_number(&mut lines, event.choice)?;
        add(&mut lines, b"\n")?;
    }
    Ok(lines)
}

/// Returns whether two lists of events are the same.
fn are_same(left: &[Event], right: &[Event]) -> bool
    ensures { result ≡ true → left.now ≡ right.now }
{
    if left.len() != right.len() {
        return false;
    }
    for index in 0..left.len() {
        if left[index].process != right[index].process
            || left[index].choice != right[index].choice
        {
            return false;
        }
    }
    true
}

/// Returns a schedule of these events. `None` if no schedule has them: it would be longer than `MOST_SCHEDULE`, or a number is
/// greater than `MOST_NUMBER`.
///
/// # Errors
/// `Memory` if out of memory.
pub fn schedule_of(alloc: Global, events: &[Event]) -> Result<Option<Vec<u8>>, Memory>
    ensures { IfOk result (λ schedule. IfSome schedule (λ bytes. IsSchedule bytes.items events.now)) }
{
    let lines = event_lines(alloc, events)?;
    // Reading the lines back is cheap, and shows that `replay` takes them for these events.
    match read_schedule(alloc, &lines) {
        Ok(read) if are_same(&read, events) => Ok(Some(lines)),
        Ok(_) | Err(ScheduleFault::Malformed(_)) => Ok(None),
        Err(ScheduleFault::Memory) => Err(Memory),
    }
}
