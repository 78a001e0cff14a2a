//! A replay as lines.

ghost use Rattle.std.specs.Prelude.{◌≡◌, IfOk, map, string_bytes};
ghost use Rattle.rules.specs.Programs.{model_of};
ghost use Rattle.machine.specs.Views.{world_model};
ghost use Rattle.replays.specs.WorldLines.{position, replay_lines};

use crate::blocks::add_blocks;
use crate::naming::Naming;
use crate::processes::{add_processes, add_steps, add_stop};
use machine::{Event, Replayed};
use rules::Program;
use source::Memory;
use std::alloc::Global;

/// Returns the lines of a replay: the number of steps, why it stopped, where each process is, and who owns each block.
///
/// `structs` are the names of the structs in order of the text, since the program knows structs only by number.
///
/// # Errors
/// `Memory` if out of memory.
pub fn lines_of(
    alloc: Global,
    program: &Program,
    structs: &[String],
    events: &[Event],
    replayed: &Replayed,
) -> Result<Vec<u8>, Memory>
    ensures { IfOk result (λ bytes. bytes.items
        ≡ replay_lines (record { program = model_of program.now; structs = map string_bytes structs.now }) events.now replayed.now.steps
        replayed.now.halt (map (position (model_of program.now)) (world_model replayed.now.world).processes)
        (world_model replayed.now.world).blocks) }
{
    let naming = Naming::new(alloc, program, structs)?;
    let mut answer = Vec::new(alloc);
    add_steps(&mut answer, replayed.steps)?;
    add_stop(
        &mut answer,
        events.get(replayed.steps).copied(),
        replayed.halt,
    )?;
    add_processes(&mut answer, program, replayed.world.processes())?;
    add_blocks(&mut answer, &naming, replayed.world.blocks())?;
    Ok(answer)
}
