//! The result of a task.

use program::MethodId;

/// The result of a task.
#[derive(Drop)]
pub struct Done<X> {
    /// The task's method.
    pub method: MethodId,
    /// The result of the job for it.
    pub out: X,
}
