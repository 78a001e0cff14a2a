//! The text of a schedule.

ghost use Rattle.std.specs.Prelude.{IfErr, OnOk};
ghost use Rattle.replays.specs.Fronts.{AddsTold, IsFaultOf};
ghost use Rattle.replays.specs.Schedules.{ReadsSchedule};

use crate::events::event_of;
use crate::fault::ScheduleFault;
use crate::fronts::{first_line, without_comment, without_return};
use crate::limits::MOST_SCHEDULE;
use machine::Event;
use std::alloc::Global;

/// Adds the event of a line, if the line is not empty. `number` is the number of the line.
fn add_event(line: &[u8], number: u32, events: &mut Vec<Event>) -> Result<(), ScheduleFault>
    ensures told { OnOk result (AddsTold line.now events.old.items events.new.items) }
    ensures fault { IfErr result (IsFaultOf line.now number) }
{
    if line.is_empty() {
        return Ok(());
    }
    match event_of(line) {
        Some(event) => {
            events.push(event)?;
            Ok(())
        }
        None => Err(ScheduleFault::Malformed(number)),
    }
}

/// Returns the events of a schedule, in order.
///
/// Each line names a process and a choice, `PROCESS CHOICE`: decimal digits, one or more spaces, decimal digits.
/// A comment goes from a `#` to the end of the line; it is skipped, with the spaces before it. Empty lines are skipped.
///
/// # Errors
/// `Malformed` with the number of the first line of another form. If the schedule has more than `MOST_SCHEDULE`
/// bytes, the line with the first byte past them is malformed. `Memory` if out of memory.
pub fn read_schedule(alloc: Global, bytes: &[u8]) -> Result<Vec<Event>, ScheduleFault>
    ensures { ReadsSchedule bytes.now result }
{
    let mut rest = &bytes[..MOST_SCHEDULE.min(bytes.len())];
    let mut events = Vec::new(alloc);
    let mut number = 1;
    'lines: while let Some((line, behind)) = first_line(rest) {
        add_event(without_comment(without_return(line)), number, &mut events)?;
        rest = behind;
        number += 1;
    }
    if bytes.len() > MOST_SCHEDULE {
        return Err(ScheduleFault::Malformed(number));
    }
    add_event(without_comment(rest), number, &mut events)?;
    Ok(events)
}
