//! Where a frame is in its method.

ghost use Rattle.std.specs.Prelude.{◌≡◌, option_map};
ghost use Rattle.flow.specs.Graphs.{instruction_model};
ghost use Rattle.rules.specs.Programs.{model_of};
ghost use Rattle.machine.specs.Frames as told;
ghost use Rattle.machine.specs.Frames.{call_next, call_target};
ghost use Rattle.machine.specs.Views.{frame_model};

use crate::worlds::Frame;
use flow::Instr;
use program::Mention;
use rules::Program;

/// Returns the current instruction of a frame. `None` if there is no such method or point.
pub fn instruction_at<'a>(program: &'a Program, frame: &Frame) -> Option<&'a Instr>
    ensures { option_map (λ i. instruction_model i.now) result ≡ told.instruction_at (model_of program.now) (frame_model frame.now) }
{
    if frame.method.0 as usize >= program.methods().len() {
        return None;
    }
    let graph = program.graph(frame.method);
    let instruction = graph.instructions.get(frame.point)?;
    Some(instruction)
}

/// How a frame continues after the call at which it waits: the variable that takes the result, and the next point.
#[derive(Clone, Copy)]
pub(crate) struct Behind {
    pub(crate) target: Option<Mention>,
    pub(crate) next: usize,
}

/// Returns how a frame continues after the call at which it waits. Without a call, there is no target and the point is 0.
pub(crate) fn behind_call(program: &Program, frame: &Frame) -> Behind
    ensures target { result.target ≡ call_target (told.instruction_at (model_of program.now) (frame_model frame.now)) }
    ensures next { result.next ≡ call_next (told.instruction_at (model_of program.now) (frame_model frame.now)) }
{
    match instruction_at(program, frame) {
        Some(Instr::Call(calling)) => Behind {
            target: calling.target,
            next: calling.next,
        },
        _ => Behind {
            target: None,
            next: 0,
        },
    }
}
