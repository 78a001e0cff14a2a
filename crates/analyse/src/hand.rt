//! The row that a search works on.

use intern::Token;
use rules::Row;

/// The row that a search works on, and its name while that is known. The next pair usually has the same row, which is
/// then not read from the table.
#[derive(Drop)]
pub(crate) struct RowInHand {
    pub(crate) row: Row,
    pub(crate) name: Option<Token>,
}
