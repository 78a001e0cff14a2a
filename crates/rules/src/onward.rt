//! The outcome of a step in place.

use crate::breach::Breach;
use rows::Row;

/// The outcome of a step in place. The step works on the row that it is given, which is then the row of `Changed`.
#[derive(Drop)]
pub enum Onward {
    /// The method ends.
    Ends,
    /// It continues at this point, with the row as it was.
    Same(usize),
    /// It continues at one of these two points, with the row as it was.
    Both(usize, usize),
    /// It continues at this point, with the row as it is now.
    Changed(usize),
    /// It continues at one of these points, each with its row.
    Ways(Vec<(usize, Row)>),
    /// A check failed. The method does not continue.
    Found(Breach),
}
