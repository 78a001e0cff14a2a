//! Events, and why an event is no step.

use source::Place;
use std::alloc::{AllocError, AllocFailed};

/// One instruction of a process. The choice is 0, except for two instructions: for a condition, 1 selects the false
/// branch; for a switch, it is the index of one of its endpoints, in the order in which its cases first name them.
#[derive(Clone, Copy, Debug, PartialEq, Eq)]
pub struct Event {
    pub process: u64,
    pub choice: u64,
}

/// A fault of a process.
#[derive(Clone, Copy, Debug, PartialEq, Eq)]
pub enum Fault {
    /// It uses a block that it does not own: reads, writes, moves or lends it, or sends or receives on it.
    F1,
    /// It frees a block that it does not own.
    F2,
    /// It gives away a block that it does not own.
    F3,
    /// It sends a message for which no edge leaves the state of its endpoint, which is not cut off.
    F4,
    /// Its switch has no case for the message or close that arrives.
    F5,
    /// It sends to a queue that is full.
    F6,
    /// It ends and still owns a block.
    F7,
}

/// Why an event was no step.
#[derive(Clone, Copy, Debug, PartialEq, Eq)]
pub enum Halt {
    /// There is no such process, or it has ended.
    NoSuchProcess,
    /// The instruction of the process has no such choice.
    NoSuchChoice,
    /// The process commits a fault, at the place of its instruction.
    Fault(Fault, Place),
    /// The queue of the chosen endpoint is empty, and its peer is not freed.
    Waits,
    /// Out of memory.
    Memory,
}

/// Why an instruction was not run.
#[derive(Clone, Copy)]
pub(crate) enum Refusal {
    /// The process has ended.
    Ended,
    Fault(Fault),
    Waits,
    Memory,
}

impl From<AllocError> for Refusal {
    ghost use Rattle.std.specs.Prelude.{◌≡◌};
    ghost use Rattle.machine.specs.declared.halts.Refusal.TheVariants.{Memory};

    ghost from_gives = { λ _ e. e ≡ Memory };

    fn from(_e: AllocError) -> Refusal {
        Refusal::Memory
    }
}

impl<T: Drop> From<AllocFailed<T>> for Refusal {
    ghost use Rattle.std.specs.Prelude.{◌≡◌};
    ghost use Rattle.machine.specs.declared.halts.Refusal.TheVariants.{Memory};

    ghost from_gives = { λ _ e. e ≡ Memory };

    fn from(_e: AllocFailed<T>) -> Refusal {
        Refusal::Memory
    }
}
