//! What the check of methods needs.

use shelf::Shelf;
use std::alloc::Global;

/// What the check of methods needs: the runtime that starts threads and waits for them, the allocator, the requested
/// numbers of workers and slots, the gate that is entered before each method, and the shelf for the verdicts.
#[derive(Drop)]
pub(crate) struct Tools<'a, R, G> {
    pub(crate) rt: &'a R,
    pub(crate) alloc: Global,
    pub(crate) workers: usize,
    pub(crate) slots: usize,
    pub(crate) gate: &'a G,
    pub(crate) shelf: &'a Shelf,
}
