//! Where a step is taken.

use crate::lowered::Program;
use crate::repeats::Repeats;
use program::Method;
use rows::Row;

/// The program, the method and the point at which a step is taken, and the repeated arguments of the method's calls and starts.
#[derive(Clone, Copy)]
pub(crate) struct Site<'a> {
    pub(crate) program: &'a Program,
    pub(crate) method: &'a Method,
    pub(crate) point: usize,
    pub(crate) repeats: &'a Repeats,
}

/// Where a step is taken, and what the variables of the method have there.
#[derive(Clone, Copy)]
pub(crate) struct Here<'a> {
    pub(crate) site: Site<'a>,
    pub(crate) row: &'a Row,
}
