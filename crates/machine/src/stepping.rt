//! One event of a world.

ghost use Rattle.std.specs.Prelude.{◌≡◌, ◌<◌, ◌∷◌, [], IfNone, IfOk, IfSome, OnErr, drop, length};
ghost use Rattle.rules.specs.Programs.{model_of};
ghost use Rattle.machine.specs.Answers as answers;
ghost use Rattle.machine.specs.Machine.{event_outcome};
ghost use Rattle.machine.specs.Outcomes.{QueueBounds, TellsStep};
ghost use Rattle.machine.specs.Places.{process_place};
ghost use Rattle.machine.specs.Runs.{AreBounds, start_of};
ghost use Rattle.machine.specs.Views.{frame_model, world_model};
ghost use Rattle.machine.specs.World.{stack_at};

use crate::calling::enter;
use crate::halts::{Event, Halt, Refusal};
use crate::heaps::BlockHeap;
use crate::instructing::{Turn, choices};
use crate::placing::place_of;
use crate::standing::instruction_at;
use crate::variables::Variables;
use crate::worlds::{Frame, Process, World};
use program::MethodId;
use rules::Program;
use source::{Memory, Place};
use std::alloc::Global;

/// Returns why no step was taken, given why the instruction at a place was refused.
fn halt_of(refusal: Refusal, place: Place) -> Halt
    ensures { result ≡ answers.halt_of refusal place }
{
    match refusal {
        Refusal::Ended => Halt::NoSuchProcess,
        Refusal::Fault(fault) => Halt::Fault(fault, place),
        Refusal::Waits => Halt::Waits,
        Refusal::Memory => Halt::Memory,
    }
}

impl World {
    /// Returns the innermost frame of a process. `None` if there is no such process or it has ended.
    pub(crate) fn innermost(&self, process: usize) -> Option<&Frame>
        ensures there { IfSome result (λ f. process < length self.now.processes.items) }
        ensures stands { IfSome result (λ f. stack_at (world_model self.now).processes process
            ≡ frame_model f.now ∷ drop 1 (stack_at (world_model self.now).processes process)) }
        ensures ended { IfNone result (stack_at (world_model self.now).processes process ≡ []) }
    {
        let stack = self.processes.get(process)?;
        match &stack.top {
            Some(frame) => Some(frame),
            None => None,
        }
    }

    /// Returns a world in which one process begins with a method. Parameters of the exchange heap begin with nothing.
    ///
    /// # Errors
    /// `Memory` if out of memory.
    pub fn start(alloc: Global, program: &Program, method: MethodId) -> Result<World, Memory>
        requires there { method.0 < length (model_of program.now).methods }
        ensures { IfOk result (λ w. world_model w ≡ start_of (model_of program.now) method.0) }
    {
        let nobody = Frame {
            method,
            point: 0,
            variables: Variables::new(alloc),
        };
        let Ok(begun) = enter(alloc, program, &nobody, method, &[]) else {
            return Err(Memory);
        };
        let mut processes = Vec::new(alloc);
        processes.push(Process {
            top: Some(begun),
            waiting: Vec::new(alloc),
        })?;
        Ok(World {
            processes,
            heap: BlockHeap::new(alloc),
        })
    }

    /// Takes one event: runs the current instruction of its process with its choice.
    ///
    /// # Errors
    /// An error leaves the world as it was. It is the first of these that holds:
    /// * `NoSuchProcess`: there is no such process, or it has ended.
    /// * `NoSuchChoice`: the instruction has no such choice.
    /// * `Fault`: the process commits this fault, at this place.
    /// * `Waits`: the queue of the chosen endpoint is empty, and its peer is not freed.
    /// * `Memory`: out of memory; with more memory the event would have been a step.
    pub fn step(&mut self, alloc: Global, program: &Program, event: Event) -> Result<(), Halt>
        ensures tells { (bound : QueueBounds) → AreBounds (model_of program.now) bound →
            TellsStep result (event_outcome (model_of program.now) bound (world_model self.old) event)
            (process_place (model_of program.now) (world_model self.old) event.process) (world_model self.new) }
        ensures same { OnErr result (world_model self.new ≡ world_model self.old) }
    {
        let turn = Turn {
            alloc,
            program,
            process: event.process as usize,
        };
        let choice = event.choice as usize;
        let Some(frame) = self.innermost(turn.process) else {
            return Err(Halt::NoSuchProcess);
        };
        let Some(instr) = instruction_at(program, frame) else {
            return Err(Halt::NoSuchChoice);
        };
        if choice >= choices(instr) {
            return Err(Halt::NoSuchChoice);
        }
        match self.run(&turn, instr, choice) {
            Ok(()) => Ok(()),
            Err(refusal) => Err(halt_of(refusal, place_of(instr))),
        }
    }
}
