//! The outcome of a step.

use crate::breach::Breach;
use rows::Row;

/// The outcome of a step.
#[derive(Drop)]
pub enum Outcome {
    /// The method continues at one of these points, each with its row; if there are none, it ends.
    Next(Vec<(usize, Row)>),
    /// A check failed. The method does not continue.
    Found(Breach),
}
