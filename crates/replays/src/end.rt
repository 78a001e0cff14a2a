//! How a run ends.

ghost use Rattle.std.specs.Prelude.{◌≡◌};
ghost use Rattle.replays.specs.RunLines as lines;

use machine::{Event, Fault};
use source::Place;

/// How a run ends.
#[derive(Clone, Copy, Debug, PartialEq, Eq)]
pub enum RunEnd {
    /// Every process has ended.
    Ended,
    /// Some process has not ended, and each of those waits.
    Deadlock,
    /// This event is a fault, at this place.
    Fault(Event, Fault, Place),
    /// Some process can go on.
    Running,
}

/// The way in which a run ends: as `RunEnd`, without the event of a fault.
#[derive(Clone, Copy, Debug, PartialEq, Eq)]
pub enum EndKind {
    Ended,
    Deadlock,
    Fault,
    Running,
}

impl RunEnd {
    /// Returns the way in which the run ends.
    pub fn kind(self) -> EndKind
        ensures { result ≡ lines.kind_of self }
    {
        match self {
            RunEnd::Ended => EndKind::Ended,
            RunEnd::Deadlock => EndKind::Deadlock,
            RunEnd::Fault(..) => EndKind::Fault,
            RunEnd::Running => EndKind::Running,
        }
    }
}
