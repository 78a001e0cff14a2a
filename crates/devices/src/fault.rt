//! How a run ends.

use source::Memory;
use std::alloc::{AllocError, AllocFailed};
use thiserror::Error;

/// The status of an answer.
#[derive(Clone, Copy, Debug, PartialEq, Eq)]
pub enum Status {
    /// Nothing was found, or a replay came to the end of its schedule.
    Empty,
    /// There are findings, or a replay stopped at an event that is no step.
    Found,
}

/// Which input could not be read.
#[derive(Clone, Copy, Debug, PartialEq, Eq)]
pub enum Input {
    Text,
    Schedule,
}

/// Why a check failed.
#[derive(Clone, Copy, Debug, PartialEq, Eq, Error)]
pub enum CheckFault {
    /// The workers are not 1 to 64. This is tested first.
    #[error("workers not 1 to 64")]
    Workers,
    /// The slots are not 1 to 16,777,216. This is tested after the workers, and before anything is read.
    #[error("slots not 1 to 16777216")]
    Slots,
    /// Out of memory.
    #[error("out of memory")]
    Memory,
}

/// Why a run failed.
#[derive(Clone, Copy, Debug, PartialEq, Eq, Error)]
pub enum RunFault {
    /// The device of this input failed. Nothing was written.
    #[error("cannot read")]
    Read(Input),
    /// The writer failed. A beginning of the answer was written.
    #[error("cannot write")]
    Write,
    /// The workers are not 1 to 64. Nothing was read or written.
    #[error("workers not 1 to 64")]
    Workers,
    /// The slots are not 1 to 16,777,216. Nothing was read or written.
    #[error("slots not 1 to 16777216")]
    Slots,
    /// The text has no method of the entry's name, or a run may not begin with it. Nothing was read of the schedule, and nothing was
    /// written.
    #[error("no such entry")]
    Entry,
    /// This line of the schedule, counted from 1, is the first malformed one. Nothing was written.
    #[error("malformed line of the schedule")]
    Schedule(u32),
    /// Out of memory. Nothing was written.
    #[error("out of memory")]
    Memory,
}

impl From<Memory> for RunFault {
    ghost use Rattle.std.specs.Prelude.{◌≡◌};
    ghost use Rattle.devices.specs.declared.fault.RunFault.TheVariants as faults;

    ghost from_gives = { λ _ e. e ≡ faults.Memory };

    fn from(_e: Memory) -> RunFault {
        RunFault::Memory
    }
}

impl From<AllocError> for RunFault {
    ghost use Rattle.std.specs.Prelude.{◌≡◌};
    ghost use Rattle.devices.specs.declared.fault.RunFault.TheVariants as faults;

    ghost from_gives = { λ _ e. e ≡ faults.Memory };

    fn from(_e: AllocError) -> RunFault {
        RunFault::Memory
    }
}

impl<T: Drop> From<AllocFailed<T>> for RunFault {
    ghost use Rattle.std.specs.Prelude.{◌≡◌};
    ghost use Rattle.devices.specs.declared.fault.RunFault.TheVariants as faults;

    ghost from_gives = { λ _ e. e ≡ faults.Memory };

    fn from(_e: AllocFailed<T>) -> RunFault {
        RunFault::Memory
    }
}

impl From<Memory> for CheckFault {
    ghost use Rattle.std.specs.Prelude.{◌≡◌};
    ghost use Rattle.devices.specs.declared.fault.CheckFault.TheVariants as faults;

    ghost from_gives = { λ _ e. e ≡ faults.Memory };

    fn from(_e: Memory) -> CheckFault {
        CheckFault::Memory
    }
}

impl From<AllocError> for CheckFault {
    ghost use Rattle.std.specs.Prelude.{◌≡◌};
    ghost use Rattle.devices.specs.declared.fault.CheckFault.TheVariants as faults;

    ghost from_gives = { λ _ e. e ≡ faults.Memory };

    fn from(_e: AllocError) -> CheckFault {
        CheckFault::Memory
    }
}

impl<T: Drop> From<AllocFailed<T>> for CheckFault {
    ghost use Rattle.std.specs.Prelude.{◌≡◌};
    ghost use Rattle.devices.specs.declared.fault.CheckFault.TheVariants as faults;

    ghost from_gives = { λ _ e. e ≡ faults.Memory };

    fn from(_e: AllocFailed<T>) -> CheckFault {
        CheckFault::Memory
    }
}

impl From<CheckFault> for RunFault {
    ghost use Rattle.std.specs.Prelude.{◌≡◌};
    ghost use Rattle.devices.specs.RunFaults.{run_fault_of};

    ghost from_gives = { λ fault e. e ≡ run_fault_of fault };

    fn from(fault: CheckFault) -> RunFault {
        match fault {
            CheckFault::Workers => RunFault::Workers,
            CheckFault::Slots => RunFault::Slots,
            CheckFault::Memory => RunFault::Memory,
        }
    }
}
