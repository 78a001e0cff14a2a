//! What workers do with a task.

ghost use Rattle.std.specs.Prelude.{◌≡◌, ℕ, IfErr, IfOk};
ghost use Rattle.tasks.specs.Tasks.{number_of};
ghost use Rattle.tasks.specs.declared.task.Task.{Task};

use source::Memory;
use tasks::Task;

/// What workers do with a task. A job holds what it needs, and defines which tasks and seats it accepts and what its result promises.
pub trait Job: Sync {
    /// What a worker keeps from task to task.
    type Seat: Send + Drop;

    /// The result of a task.
    type Out: Send + Drop;

    /// The tasks that may be run.
    ghost takes: { Self → Task → Type 0 };

    /// The seats in which a task may be run.
    ghost seats: { Self → Self.Seat → Type 0 };

    /// What the result for the task of a number promises.
    ghost gives: { Self → ℕ → Self.Out → Type 0 };

    /// Runs a task in a seat, in which tasks may still be run afterwards.
    ///
    /// # Errors
    /// `Memory` if out of memory, with the task.
    fn run(&self, task: Task, seat: &mut Self::Seat) -> Result<Self::Out, (Task, Memory)>
        requires task { takes self.now task }
        requires seat { seats self.now seat.old }
        ensures seat { seats self.now seat.new }
        ensures done { IfOk result (λ out. gives self.now (number_of task) out) }
        ensures back { IfErr result (λ refused. refused.0 ≡ task) };
}
