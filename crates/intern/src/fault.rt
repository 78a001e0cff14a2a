//! The errors of interning.

use thiserror::Error;

/// Why a row got no id.
#[derive(Clone, Copy, Debug, PartialEq, Eq, Error)]
pub enum InternFault {
    /// Each slot of the table has a word, and no id names the row.
    #[error("the table of rows is full")]
    Full,
    /// An allocation was refused.
    #[error("out of memory")]
    Memory,
}

/// A word of the row has no place near the beginning of its search.
#[derive(Clone, Copy, Debug, PartialEq, Eq, Error)]
#[error("a word of the row has no place near")]
pub struct Far;

/// Why no table was made.
#[derive(Clone, Copy, Debug, PartialEq, Eq, Error)]
pub enum InternNew {
    /// There are no slots, or more than `MOST_SLOTS`.
    #[error("slots not 1 to 16777216")]
    Slots,
    /// An allocation was refused.
    #[error("out of memory")]
    Memory,
}
