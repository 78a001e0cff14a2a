//! Journals of runs.

ghost use Rattle.std.specs.Prelude.{◌≡◌, ◌≤◌, ◌+◌, ◌∷◌, ◌++◌, [], OnOk, if◌then◌else◌, length};
ghost use Rattle.rules.specs.Programs.{model_of};
ghost use Rattle.machine.specs.Views.{world_model};
ghost use Rattle.replays.specs.EventLines as lines;

use flow::{Branches, Instr};
use machine::{Event, World, instruction_at};
use rules::Program;
use source::Memory;

/// A run so far: the events from the beginning of a method on, the world to which they lead, their lines, and how many of
/// them are conditions that may go either way.
#[derive(Drop)]
pub struct Journal {
    pub world: World,
    pub events: Vec<Event>,
    pub lines: Vec<u8>,
    pub conditions: usize,
    ghost few: { conditions ≤ length events.items },
}

impl Journal {
    /// Adds an event that the world has taken, its line, and whether it is a condition that may go either way.
    pub(crate) fn add(&mut self, event: Event, line: &[u8], is_open: bool) -> Result<(), Memory>
        ensures world { self.new.world ≡ self.old.world }
        ensures events { OnOk result (self.new.events.items ≡ self.old.events.items ++ event ∷ []) }
        ensures lines { OnOk result (self.new.lines.items ≡ self.old.lines.items ++ line.now) }
        ensures conditions { OnOk result (self.new.conditions ≡ self.old.conditions + (if is_open then 1 else 0)) }
    {
        self.events.push(event)?;
        self.lines.extend_from_slice(line)?;
        if is_open {
            self.conditions += 1;
        }
        Ok(())
    }
}

/// Returns whether a process of a world is at a condition that may go either way.
pub fn is_open_condition(program: &Program, world: &World, process: usize) -> bool
    ensures { result ≡ lines.is_open_at (model_of program.now) (world_model world.now) process }
{
    let Some(process) = world.processes().get(process) else {
        return false;
    };
    let Some(frame) = process.innermost() else {
        return false;
    };
    match instruction_at(program, frame) {
        Some(Instr::Branch { branches, .. }) => match branches {
            Branches::Either { .. } => true,
            Branches::Only(_) => false,
        },
        _ => false,
    }
}
