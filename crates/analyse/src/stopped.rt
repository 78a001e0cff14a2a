//! Why a search stopped early.

use source::Memory;
use std::alloc::{AllocError, AllocFailed};

/// Why a search stopped early.
pub(crate) enum Stopped {
    /// The shared table has no near slot for a row: the search for one of its words passed as many slots as it may, or all.
    Far,
    /// Out of memory.
    Memory,
}

impl From<Memory> for Stopped {
    ghost use Rattle.std.specs.Prelude.{◌≡◌};
    ghost use Rattle.analyse.specs.declared.stopped.Stopped.TheVariants as stops;

    ghost from_gives = { λ _ e. e ≡ stops.Memory };

    fn from(_e: Memory) -> Stopped {
        Stopped::Memory
    }
}

impl From<AllocError> for Stopped {
    ghost use Rattle.std.specs.Prelude.{◌≡◌};
    ghost use Rattle.analyse.specs.declared.stopped.Stopped.TheVariants as stops;

    ghost from_gives = { λ _ e. e ≡ stops.Memory };

    fn from(_e: AllocError) -> Stopped {
        Stopped::Memory
    }
}

impl<T: Drop> From<AllocFailed<T>> for Stopped {
    ghost use Rattle.std.specs.Prelude.{◌≡◌};
    ghost use Rattle.analyse.specs.declared.stopped.Stopped.TheVariants as stops;

    ghost from_gives = { λ _ e. e ≡ stops.Memory };

    fn from(_e: AllocFailed<T>) -> Stopped {
        Stopped::Memory
    }
}
