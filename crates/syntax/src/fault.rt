//! Why tokens have no tree.

use thiserror::Error;

/// Why a list of tokens has no tree.
#[derive(Clone, Copy, Debug, PartialEq, Eq, Error)]
pub enum SyntaxFault {
    /// No program continues with the token of this index, counted from 0. The number of all tokens means the end of
    /// the text.
    #[error("no program goes on with token {0}")]
    At(usize),
    /// An allocation was refused.
    #[error("out of memory")]
    Memory,
}
