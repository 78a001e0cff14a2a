//! What is in a deque, and what a pass of it knows.

ghost use Rattle.std.specs.Prelude.{◌≡◌};

use std::collections::LinkedList;
use tasks::Task;

/// A task in a deque. Dropping it gives the task up, so a deque that is dropped gives up all that is left in it.
pub struct HeldTask {
    pub(crate) task: Task,
}

impl HeldTask {
    /// Returns the task, which is then no longer given up.
    pub(crate) fn into_task(self) -> Task
        ensures { result ≡ self.task }
    {
        let HeldTask { task } = self;
        task
    }
}

impl Drop for HeldTask {
    fn drop(self) {
        let HeldTask { task } = self;
        task.give_up();
    }
}

/// What a pass knows: its parts of the right to know the whole, the tasks that were put, and those that it has taken.
pub struct Hand {
    pub(crate) parts: u64,
    pub(crate) put: LinkedList<HeldTask>,
    pub(crate) taken: LinkedList<HeldTask>,
}
