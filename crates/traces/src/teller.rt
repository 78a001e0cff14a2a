//! The method that lines are about.

use flow::Graph;
use program::Method;
use rules::Program;
use std::alloc::Global;

/// The method that lines are about, and its program.
#[derive(Clone, Copy)]
pub(crate) struct Teller<'a> {
    pub(crate) alloc: Global,
    pub(crate) program: &'a Program,
    pub(crate) method: &'a Method,
    pub(crate) graph: &'a Graph,
}
