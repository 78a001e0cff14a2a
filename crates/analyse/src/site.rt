//! The site of a search.

use intern::Rows;
use program::MethodId;
use rules::Program;
use std::alloc::Global;

/// What a search is about: the allocator, the program, the method, and the shared table of rows.
#[derive(Clone, Copy)]
pub(crate) struct SearchSite<'a> {
    pub(crate) alloc: Global,
    pub(crate) program: &'a Program,
    pub(crate) method: MethodId,
    pub(crate) rows: &'a Rows,
}
