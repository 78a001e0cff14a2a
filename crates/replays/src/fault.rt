//! Errors of reading a schedule.

use std::alloc::{AllocError, AllocFailed};
use thiserror::Error;

/// Why a schedule has no events.
#[derive(Clone, Copy, Debug, PartialEq, Eq, Error)]
pub enum ScheduleFault {
    /// The line of this number, counted from 1, is the first malformed one.
    #[error("malformed line")]
    Malformed(u32),
    /// Out of memory.
    #[error("out of memory")]
    Memory,
}

impl From<AllocError> for ScheduleFault {
    ghost use Rattle.std.specs.Prelude.{◌≡◌};
    ghost use Rattle.replays.specs.declared.fault.ScheduleFault.TheVariants.{Memory};

    ghost from_gives = { λ _ e. e ≡ Memory };

    fn from(_e: AllocError) -> ScheduleFault {
        ScheduleFault::Memory
    }
}

impl<T: Drop> From<AllocFailed<T>> for ScheduleFault {
    ghost use Rattle.std.specs.Prelude.{◌≡◌};
    ghost use Rattle.replays.specs.declared.fault.ScheduleFault.TheVariants.{Memory};

    ghost from_gives = { λ _ e. e ≡ Memory };

    fn from(_e: AllocFailed<T>) -> ScheduleFault {
        ScheduleFault::Memory
    }
}
