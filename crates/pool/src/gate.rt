//! The gate before the work on each task.

/// A call before the work on each task, which may wait. The threads of all workers share the gate.
pub trait Gate: Sync {
    /// Called once before the task of this number is run, by the worker that runs it.
    fn enter(&self, task: u32);
}

/// A gate that never waits.
#[derive(Clone, Copy, PartialEq, Eq, Drop)]
pub struct Open;

impl Gate for Open {
    fn enter(&self, _task: u32) {}
}
