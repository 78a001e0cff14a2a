//! Instructions that change one frame and no block.

ghost use Rattle.std.specs.Prelude.{◌≡◌, List, OnErr, ℕ};
ghost use Rattle.program.specs.Programs.{ProgramModel};
ghost use Rattle.source.specs.declared.place.Place.{Place};
ghost use Rattle.program.specs.declared.statement.Action.TheVariants as does;
ghost use Rattle.flow.specs.Graphs as graphs;
ghost use Rattle.flow.specs.Graphs.{Act, Branch};
ghost use Rattle.rules.specs.Programs.{model_of};
ghost use Rattle.machine.specs.Answers.{TellsFrame, on_top};
ghost use Rattle.machine.specs.Machine.{outcome_from};
ghost use Rattle.machine.specs.Outcomes.{QueueBounds, Moved};
ghost use Rattle.machine.specs.Views.{blocks_model, frame_model};
ghost use Rattle.machine.specs.World as seen;

use crate::halts::{Fault, Refusal};
use crate::mentions::forgets;
use crate::reading::own;
use crate::worlds::{Block, Frame};
use flow::Branches;
use program::{Forget, Mention};
use rules::Program;

/// Reads or writes a block. `F1` if the process does not own it.
pub(crate) fn use_(
    frame: &mut Frame,
    blocks: &[Block],
    process: usize,
    at: Mention,
    next: usize,
) -> Result<(), Refusal>
    ensures tells { (p : ProgramModel) (bound : QueueBounds)
        → TellsFrame p bound process (Act (does.Use at) next) 0 result
        (frame_model frame.old, blocks_model blocks.now)
        (frame_model frame.new, blocks_model blocks.now) }
    ensures same { OnErr result (frame_model frame.new ≡ frame_model frame.old) }
{
    if own(blocks, process, frame.has(at)).is_none() {
        return Err(Refusal::Fault(Fault::F1));
    }
    frame.point = next;
    Ok(())
}

/// Moves what the source has to the target. `F1` if the process does not own it. An error changes nothing.
pub(crate) fn move_(
    frame: &mut Frame,
    blocks: &[Block],
    process: usize,
    target: Mention,
    source: Mention,
    next: usize,
) -> Result<(), Refusal>
    ensures tells { (p : ProgramModel) (bound : QueueBounds)
        → TellsFrame p bound process (Act (does.Move target source) next) 0 result
        (frame_model frame.old, blocks_model blocks.now)
        (frame_model frame.new, blocks_model blocks.now) }
    ensures same { OnErr result (frame_model frame.new ≡ frame_model frame.old) }
{
    let given = frame.has(source);
    if own(blocks, process, given).is_none() {
        return Err(Refusal::Fault(Fault::F1));
    }
    frame.take(Some(target), given)?;
    frame.put(source, None);
    frame.point = next;
    Ok(())
}

/// Continues at the branch that the choice selects.
pub(crate) fn branch(frame: &mut Frame, branches: Branches, choice: usize)
    ensures { (p : ProgramModel) (bound : QueueBounds) (w : seen.World) (rest : List seen.Frame)
        (process : ℕ) (place : Place)
        → outcome_from p bound w process (frame_model frame.old) rest (Branch place branches) choice
        ≡ Moved (on_top w.processes process rest (frame_model frame.new) w.blocks) }
{
    frame.point = match branches {
        Branches::Only(point) => point,
        Branches::Either { inside, past } => { if choice == 0 { inside } else { past } }
    };
}

/// Empties the variables that go out of scope, and moves the frame on.
pub(crate) fn forget_(frame: &mut Frame, program: &Program, forget: Forget, next: usize)
    ensures { (bound : QueueBounds) (w : seen.World) (rest : List seen.Frame) (process : ℕ)
        → outcome_from (model_of program.now) bound w process (frame_model frame.old) rest
        (graphs.Forget forget next) 0
        ≡ Moved (on_top w.processes process rest (frame_model frame.new) w.blocks) }
{
    if let Some(method) = program.methods().get(frame.method.0 as usize) {
        forgets(
            &mut frame.variables,
            method,
            forget.outer,
            Some(forget.last),
        );
    }
    frame.point = next;
}
