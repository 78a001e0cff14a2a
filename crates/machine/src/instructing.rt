//! One instruction of a process.

ghost use Rattle.std.specs.Prelude.{◌≡◌, ◌<◌, OnErr, length};
ghost use Rattle.flow.specs.Graphs.{instruction_model};
ghost use Rattle.rules.specs.Programs.{model_of};
ghost use Rattle.machine.specs.Frames as told;
ghost use Rattle.machine.specs.Outcomes.{QueueBounds};
ghost use Rattle.machine.specs.Runs.{AreBounds};
ghost use Rattle.machine.specs.Views.{world_model};
ghost use Rattle.machine.specs.Answers.{TellsWorld};

use crate::acting::act;
use crate::calling::call;
use crate::halts::Refusal;
use crate::owning::new;
use crate::quiet::{branch, forget_};
use crate::returning::{end, return_};
use crate::sending::send;
use crate::starting::start;
use crate::switching::switch;
use crate::worlds::World;
use flow::{Branches, Instr};
use rules::Program;
use std::alloc::Global;

/// Returns the number of choices at an instruction.
pub(crate) fn choices(instr: &Instr) -> usize
    ensures { result ≡ told.choices (instruction_model instr.now) }
{
    match instr {
        Instr::Switch { cases, .. } => cases.endpoints().len(),
        Instr::Branch { branches, .. } => match branches {
            Branches::Either { .. } => 2,
            Branches::Only(_) => 1,
        },
        _ => 1,
    }
}

/// What an instruction needs besides a world: the allocator, the program, and the process that runs it.
#[derive(Clone, Copy)]
pub(crate) struct Turn<'a> {
    pub(crate) alloc: Global,
    pub(crate) program: &'a Program,
    pub(crate) process: usize,
}

impl World {
    /// Runs one instruction of a process with this choice. An error leaves the world unchanged.
    pub(crate) fn run(
        &mut self,
        turn: &Turn<'_>,
        instr: &Instr,
        choice: usize,
    ) -> Result<(), Refusal>
        requires there { turn.now.process < length self.old.processes.items }
        requires choice { choice < told.choices (instruction_model instr.now) }
        ensures tells { (bound : QueueBounds) → AreBounds (model_of turn.now.program.now) bound
            → TellsWorld (model_of turn.now.program.now) bound turn.now.process
            (instruction_model instr.now) choice result (world_model self.old)
            (world_model self.new) }
        ensures same { OnErr result (world_model self.new ≡ world_model self.old) }
    {
        let stack = &mut self.processes[turn.process];
        let heap = &mut self.heap;
        let Some(frame) = &mut stack.top else {
            return Err(Refusal::Ended);
        };
        match instr {
            Instr::Act { action, next } => act(turn, frame, heap, *action, *next),
            Instr::New {
                target,
                arguments,
                next,
            } => new(turn, frame, heap, *target, arguments, *next),
            Instr::Send(sending) => send(turn, frame, heap, sending),
            Instr::Switch { cases, .. } => switch(turn, frame, heap, cases, choice),
            Instr::Branch { branches, .. } => {
                branch(frame, *branches, choice);
                Ok(())
            }
            Instr::Forget { forget, next } => {
                forget_(frame, turn.program, *forget, *next);
                Ok(())
            }
            Instr::Call(calling) => call(turn, stack, heap.blocks(), calling),
            Instr::Start(starting) => start(turn, self, starting),
            Instr::Return(returning) => return_(turn, stack, heap, returning.value),
            Instr::Stop { .. } => end(turn, stack, heap, None),
        }
    }
}
