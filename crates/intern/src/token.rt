//! The ids of rows.

/// The id of a row in one table, and no token of a text: that of the empty row, or the slot of the row's word. Two tokens that are known
/// under one seat are equal exactly if their rows are.
#[derive(Clone, Copy, Debug, PartialEq, Eq, PartialOrd, Ord)]
pub enum Token {
    /// The row of no leaves, which has no word.
    Empty,
    /// The row whose word is at this slot.
    At(u32),
}
