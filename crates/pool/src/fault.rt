//! Why tasks were not shared out.

use source::Memory;
use std::alloc::{AllocError, AllocFailed};
use thiserror::Error;

/// Why tasks were not shared out. Those that were not done are given up.
#[derive(Clone, Copy, Debug, PartialEq, Eq, Error)]
pub enum PoolFault {
    /// The number of seats is not 1 to 64. This is checked first.
    #[error("workers not 1 to 64")]
    Workers,
    /// An allocation or a thread was refused.
    #[error("out of memory")]
    Memory,
}
