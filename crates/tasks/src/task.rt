//! A method that has yet to be analysed.

ghost use Rattle.std.specs.Prelude.{◌≡◌, ◌<◌, length};
ghost use Rattle.rules.specs.Programs.{model_of};

use program::MethodId;
use rules::Program;
use std::snapshot::Snapshot;

/// A method that has yet to be analysed, and its program. A task cannot be copied, so each method is analysed once, and it cannot be
/// dropped: whoever analyses the method spends it, or it is given up by a call.
pub struct Task {
    pub(crate) method: MethodId,
    pub(crate) program: Snapshot<Program>,
    ghost there: { method.0 < length (model_of program.value).methods },
}

impl Task {
    ghost use Rattle.tasks.specs.Tasks.{number_of, task_program};

    /// Returns the method.
    pub fn method(&self) -> MethodId
        ensures value { result.0 ≡ number_of self.now }
        ensures there { result.0 < length (model_of (task_program self.now)).methods }
    {
        self.method
    }

    /// Spends the task. Returns its method and the program that it remembers. Nobody can make the task again.
    pub fn spend(self) -> (MethodId, Snapshot<Program>)
        ensures method { result.0.0 ≡ number_of self }
        ensures program { result.1.value ≡ task_program self }
    {
        let Task { method, program } = self;
        (method, program)
    }

    /// Gives up the task: its method is not analysed.
    pub fn give_up(self) {
        let Task {
            method: _,
            program: _,
        } = self;
    }
}
