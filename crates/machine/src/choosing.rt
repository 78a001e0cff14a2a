//! The choices of a process.

ghost use Rattle.std.specs.Prelude.{◌≡◌, ◌≤◌};
ghost use Rattle.rules.specs.Programs.{model_of};
ghost use Rattle.machine.specs.Choices.{IsNoEvent, choices_at};
ghost use Rattle.machine.specs.Machine.{event_outcome};
ghost use Rattle.machine.specs.Outcomes.{QueueBounds};
ghost use Rattle.machine.specs.Views.{world_model};
ghost use Rattle.machine.specs.declared.halts.Event as events;

use crate::instructing::choices;
use crate::standing::instruction_at;
use crate::worlds::World;
use rules::Program;

impl World {
    /// Returns the number of choices that a process has at its current instruction. It is 0 if there is no such process
    /// or it has ended. No event of the process has this choice or a later one.
    pub fn choices(&self, program: &Program, process: usize) -> usize
        ensures count { result ≡ choices_at (model_of program.now) (world_model self.now) process }
        ensures all { (bound : QueueBounds) (e : events.Event) → e.process ≡ process → result ≤ e.choice
            → IsNoEvent (event_outcome (model_of program.now) bound (world_model self.now) e) }
    {
        let Some(frame) = self.innermost(process) else {
            return 0;
        };
        let Some(instr) = instruction_at(program, frame) else {
            return 0;
        };
        choices(instr)
    }
}
