//! Why a program is not resolved.

use source::{Finding, Memory};
use std::alloc::{AllocError, AllocFailed};
use thiserror::Error;

/// Why a program is not resolved.
#[derive(Debug, Drop, Error)]
pub enum NameFaults {
    /// All findings about its names and types, at least one.
    #[error("names or types are wrong")]
    Found(Vec<Finding>),
    /// An allocation failed.
    #[error("out of memory")]
    Memory,
}

impl From<Memory> for NameFaults {
    ghost use Rattle.std.specs.Prelude.{◌≡◌};
    ghost use Rattle.names.specs.declared.fault.NameFaults.TheVariants as faults;

    ghost from_gives = { λ _ e. e ≡ faults.Memory };

    fn from(_e: Memory) -> NameFaults {
        NameFaults::Memory
    }
}

impl From<AllocError> for NameFaults {
    ghost use Rattle.std.specs.Prelude.{◌≡◌};
    ghost use Rattle.names.specs.declared.fault.NameFaults.TheVariants as faults;

    ghost from_gives = { λ _ e. e ≡ faults.Memory };

    fn from(_e: AllocError) -> NameFaults {
        NameFaults::Memory
    }
}

impl<T: Drop> From<AllocFailed<T>> for NameFaults {
    ghost use Rattle.std.specs.Prelude.{◌≡◌};
    ghost use Rattle.names.specs.declared.fault.NameFaults.TheVariants as faults;

    ghost from_gives = { λ _ e. e ≡ faults.Memory };

    fn from(_e: AllocFailed<T>) -> NameFaults {
        NameFaults::Memory
    }
}
