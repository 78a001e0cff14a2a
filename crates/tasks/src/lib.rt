//! Tasks: one for each method of a program, which can neither be copied nor dropped.
#![tactic(auto)]

mod all_tasks;
mod task;

pub use all_tasks::{give_up_all, tasks};
pub use task::Task;
