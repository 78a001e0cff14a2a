//! Where a process is in the text, and what can be read of a world.

ghost use Rattle.std.specs.Prelude.{◌≡◌, length, map, option_map, slice_get};
ghost use Rattle.flow.specs.Graphs.{instruction_model};
ghost use Rattle.rules.specs.Programs.{model_of};
ghost use Rattle.machine.specs.Heaps.{FieldsHold};
ghost use Rattle.machine.specs.Places as told;
ghost use Rattle.machine.specs.Places.{stack_place};
ghost use Rattle.machine.specs.Views.{blocks_model, frame_model, stack_model, world_model};

use crate::standing::instruction_at;
use crate::worlds::{Block, Frame, Process, World};
use flow::Instr;
use program::Action;
use rules::Program;
use source::Place;

/// Returns the place of an action.
fn action_place(action: &Action) -> Place
    ensures { result ≡ told.action_place action.now }
{
    match action {
        Action::Use(at) | Action::Delete(at) => at.place,
        Action::Move { target, .. } => target.place,
        Action::Exchange(exchange) => exchange.place,
        Action::NewChannel(channel) => channel.place,
    }
}

/// Returns the place of an instruction.
pub fn place_of(instr: &Instr) -> Place
    ensures { result ≡ told.place_of (instruction_model instr.now) }
{
    match instr {
        Instr::Act { action, .. } => action_place(action),
        Instr::New { target, .. } => target.place,
        Instr::Send(sending) => sending.place,
        Instr::Forget { forget, .. } => forget.place,
        Instr::Call(calling) => calling.place,
        Instr::Start(starting) => starting.place,
        Instr::Return(returning) => returning.place,
        Instr::Switch { place, .. } | Instr::Branch { place, .. } | Instr::Stop { place } => *place,
    }
}

impl Process {
    /// Returns the innermost frame. `None` if the process has ended.
    pub fn innermost(&self) -> Option<&Frame>
        ensures { option_map (λ f. frame_model f.now) result ≡ slice_get (stack_model self.now) 0 }
    {
        match &self.top {
            Some(frame) => Some(frame),
            None => None,
        }
    }

    /// Returns the number of frames, 0 if the process has ended.
    pub fn frame_count(&self) -> usize
        ensures { result ≡ length (stack_model self.now) }
    {
        match &self.top {
            Some(_) => self.waiting.len() + 1,
            None => 0,
        }
    }

    /// Returns the place of the current instruction. `None` if the process has ended, or its frame is at no instruction.
    pub fn place(&self, program: &Program) -> Option<Place>
        ensures { result ≡ stack_place (model_of program.now) (stack_model self.now) }
    {
        let frame = self.innermost()?;
        let instr = instruction_at(program, frame)?;
        Some(place_of(instr))
    }
}

impl World {
    /// Returns the processes, by their numbers.
    pub fn processes(&self) -> &[Process]
        ensures { map stack_model result.now ≡ (world_model self.now).processes }
    {
        &self.processes
    }

    /// Returns the blocks, by their addresses. The fields of a block hold exactly what is directly inside it, and
    /// each chain of owners ends after finitely many steps.
    pub fn blocks(&self) -> &[Block]
        ensures seen { blocks_model result.now ≡ (world_model self.now).blocks }
        ensures held { FieldsHold (blocks_model result.now) }
    {
        self.heap.blocks()
    }
}
