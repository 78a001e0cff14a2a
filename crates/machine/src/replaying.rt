//! Replays of events.

ghost use Rattle.std.specs.Prelude.{◌≡◌, ◌<◌, IfOk, Some, length};
ghost use Rattle.rules.specs.Programs.{model_of};
ghost use Rattle.machine.specs.Outcomes.{QueueBounds};
ghost use Rattle.machine.specs.Runs.{AreBounds};
ghost use Rattle.machine.specs.Replays.{MayEndReplay, IsReplay, replay_model};

use crate::halts::{Event, Halt};
use crate::worlds::World;
use program::MethodId;
use rules::Program;
use source::Memory;
use std::alloc::Global;

/// The result of a replay: the world after the last step, the number of steps, and why the next event is no step.
/// There is no such reason if every event was a step.
#[derive(Drop)]
pub struct Replayed {
    pub world: World,
    pub steps: usize,
    pub halt: Option<Halt>,
}

/// Returns the halt as it is, but `Memory` as an error, since running out of memory ends no replay.
fn refuse_memory(halt: Halt) -> Result<Halt, Memory>
    ensures same { IfOk result (λ answer. answer ≡ halt) }
    ensures known { IfOk result (λ answer. MayEndReplay (Some answer)) }
{
    match halt {
        Halt::Memory => Err(Memory),
        Halt::NoSuchProcess | Halt::NoSuchChoice | Halt::Fault(..) | Halt::Waits => Ok(halt),
    }
}

/// Takes these events one by one, from the beginning of a method, until one is no step.
///
/// # Errors
/// `Memory` if out of memory, also in a step: no replay has that as its halt.
pub fn replay(
    alloc: Global,
    program: &Program,
    method: MethodId,
    events: &[Event],
) -> Result<Replayed, Memory>
    requires there { method.0 < length (model_of program.now).methods }
    ensures { IfOk result (λ replayed. (bound : QueueBounds) → AreBounds (model_of program.now) bound
        → IsReplay (model_of program.now) bound method.0 events.now (replay_model replayed)) }
{
    let mut world = World::start(alloc, program, method)?;
    for steps in 0..events.len() {
        match world.step(alloc, program, events[steps]) {
            Ok(()) => {}
            Err(halt) => {
                let halt = refuse_memory(halt)?;
                return Ok(Replayed {
                    world,
                    steps,
                    halt: Some(halt),
                });
            }
        }
    }
    Ok(Replayed {
        world,
        steps: events.len(),
        halt: None,
    })
}
