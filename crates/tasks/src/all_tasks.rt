//! The tasks of a program.

ghost use Rattle.std.specs.Prelude.{◌≡◌, ◌<◌, ◌^◌, All, IfOk, length, map};
ghost use Rattle.rules.specs.Programs.{model_of};
ghost use Rattle.tasks.specs.Tasks.{numbers_below, number_of, task_program};

use crate::task::Task;
use program::MethodId;
use rules::Program;
use source::Memory;
use std::alloc::Global;
use std::snapshot::Snapshot;
use std::vec::IntoIter;

/// Gives up all remaining tasks.
pub fn give_up_all(mut tasks: IntoIter<Task, Global>) {
    while let Some(task) = tasks.next() {
        task.give_up();
    }
    tasks.destroy_empty();
}

/// Makes a task for each method of a program, in order of the text. Each remembers the program.
///
/// # Errors
/// `Memory` if out of memory; the tasks made so far are given up.
pub fn tasks(alloc: Global, program: &Program) -> Result<Vec<Task>, Memory>
    ensures each { IfOk result (λ tasks. map number_of tasks.items ≡ numbers_below (length (model_of program.now).methods)) }
    ensures program { IfOk result (λ tasks. All (λ task. task_program task ≡ program.now) tasks.items) }
{
    let count = program.methods().len();
    let mut tasks = Vec::with_capacity(alloc, count)?;
    for number in 0..count as u32 {
        let method = MethodId(number);
        let task = Task {
            method,
            program: Snapshot::of(program),
        };
        if let Err(refused) = tasks.push(task) {
            refused.value.give_up();
            give_up_all(tasks.into_iter());
            return Err(Memory);
        }
    }
    Ok(tasks)
}
