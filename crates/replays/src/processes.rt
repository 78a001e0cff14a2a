//! The lines of processes, of the number of steps and of why a replay stopped.

ghost use Rattle.std.specs.Prelude.{◌≡◌, ◌++◌, OnOk, map};
ghost use Rattle.std.specs.List.{enumerate_from, flat_map};
ghost use Rattle.rules.specs.Programs.{model_of};
ghost use Rattle.machine.specs.Views.{stack_model};
ghost use Rattle.replays.specs.WorldLines.{fault_name, halt_text, position, process_line, steps_line, stop_line};

use crate::texts::{add, add_number, add_place};
use machine::{Event, Fault, Halt, Process};
use rules::Program;
use source::Memory;

/// Adds `steps N`.
pub(crate) fn add_steps(answer: &mut Vec<u8>, steps: usize) -> Result<(), Memory>
    ensures { OnOk result (answer.new.items ≡ answer.old.items ++ steps_line steps) }
{
    add(answer, b"steps ")?;
    add_number(answer, steps as u64)?;
    add(answer, b"\n")
}

fn fault_name(fault: Fault) -> &'static [u8]
    ensures { result.now ≡ fault_name fault }
{
    match fault {
        Fault::F1 => b"F1",
        Fault::F2 => b"F2",
        Fault::F3 => b"F3",
        Fault::F4 => b"F4",
        Fault::F5 => b"F5",
        Fault::F6 => b"F6",
        Fault::F7 => b"F7",
    }
}

/// Adds why an event was no step.
pub(crate) fn add_halt(answer: &mut Vec<u8>, event: Event, halt: Halt) -> Result<(), Memory>
    ensures { OnOk result (answer.new.items ≡ answer.old.items ++ halt_text event halt) }
{
    match halt {
        Halt::NoSuchProcess => {
            add(answer, b"no process ")?;
            add_number(answer, event.process)
        }
        Halt::NoSuchChoice => {
            add(answer, b"no choice ")?;
            add_number(answer, event.choice)?;
            add(answer, b" of process ")?;
            add_number(answer, event.process)
        }
        Halt::Fault(fault, place) => {
            add(answer, b"fault ")?;
            add(answer, fault_name(fault))?;
            add(answer, b" at ")?;
            add_place(answer, place)?;
            add(answer, b" in process ")?;
            add_number(answer, event.process)
        }
        Halt::Waits => {
            add(answer, b"process ")?;
            add_number(answer, event.process)?;
            add(answer, b" waits")
        }
        Halt::Memory => add(answer, b"out of memory"),
    }
}

/// Adds `stop: ` and why the event was no step, or `end of schedule` if there is no event or no reason.
pub(crate) fn add_stop(
    answer: &mut Vec<u8>,
    event: Option<Event>,
    halt: Option<Halt>,
) -> Result<(), Memory>
    ensures { OnOk result (answer.new.items ≡ answer.old.items ++ stop_line event halt) }
{
    add(answer, b"stop: ")?;
    match (event, halt) {
        (Some(event), Some(halt)) => add_halt(answer, event, halt)?,
        _ => add(answer, b"end of schedule")?,
    }
    add(answer, b"\n")
}

/// Adds `process P at LINE:COL, frames N`, or `process P ended`.
fn add_process(
    answer: &mut Vec<u8>,
    program: &Program,
    number: usize,
    process: &Process,
) -> Result<(), Memory>
    ensures { OnOk result (answer.new.items ≡ answer.old.items
        ++ process_line number (position (model_of program.now) (stack_model process.now))) }
{
    add(answer, b"process ")?;
    add_number(answer, number as u64)?;
    match process.place(program) {
        Some(place) => {
            add(answer, b" at ")?;
            add_place(answer, place)?;
            add(answer, b", frames ")?;
            add_number(answer, process.frame_count() as u64)?;
        }
        None => add(answer, b" ended")?,
    }
    add(answer, b"\n")
}

/// Adds a line for each process.
pub(crate) fn add_processes(
    answer: &mut Vec<u8>,
    program: &Program,
    processes: &[Process],
) -> Result<(), Memory>
    ensures { OnOk result (answer.new.items ≡ answer.old.items
        ++ flat_map (λ q. process_line q.0 q.1)
        (enumerate_from 0 (map (λ process. position (model_of program.now) (stack_model process)) processes.now))) }
{
    for (number, process) in processes.iter().enumerate() {
        add_process(answer, program, number, process)?;
    }
    Ok(())
}
