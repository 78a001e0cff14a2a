//! Lines of events.

ghost use Rattle.std.specs.Prelude.{◌≡◌, ◌<◌, IfErr, IfNone, IfSome, OnOk};
ghost use Rattle.machine.specs.declared.halts.Event.{Event};
ghost use Rattle.replays.specs.Fronts.{AddsTold};
ghost use Rattle.replays.specs.Schedules.{IsEventLine};

use crate::fronts::{number_at, spaces_at};
use machine::Event;

/// Returns the event of a line: the number of a process, spaces, and a choice. `None` if the line is not of that form.
pub(crate) fn event_of(line: &[u8]) -> Option<Event>
    ensures some { IfSome result (IsEventLine line.now) }
    ensures none { IfNone result ((e : Event) → ¬ IsEventLine line.now e) }
{
    let (process, rest) = number_at(line)?;
    let spaces = spaces_at(rest);
    if spaces == 0 {
        return None;
    }
    let (choice, behind) = number_at(&rest[spaces..])?;
    if behind.is_empty() {
        Some(Event { process, choice })
    } else {
        None
    }
}
