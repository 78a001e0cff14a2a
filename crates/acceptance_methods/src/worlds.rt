//! Processes of a program, event by event.

ghost use Rattle.std.specs.Prelude.{◌<◌, length};
ghost use Rattle.rules.specs.Programs.{model_of};

use crate::texts::{ANSWERS_AN_ERROR, FREED_ON_ONE_WAY, SERVES, only, with_one_contract};
use machine::{Event, Fault, Halt, Owner, Replayed, World, replay};
use program::MethodId;
use rules::Program;
use source::Place;
use std::alloc::Global;
use std::test::Fail;

/// Replays events of these processes, each with the choice 0, from the beginning of the first method.
fn run_of(alloc: Global, program: &Program, processes: &[u64]) -> Result<Replayed, Fail>
    requires { 0 < length (model_of program.now).methods }
{
    let mut events = Vec::new(alloc);
    for process in processes {
        events.push(Event {
            process: *process,
            choice: 0,
        })?;
    }
    let run = replay(alloc, program, MethodId(0), &events)?;
    Ok(run)
}

/// Returns the owner of each block.
fn owners(alloc: Global, world: &World) -> Result<Vec<Owner>, Fail> {
    let mut owners = Vec::new(alloc);
    for block in world.blocks() {
        owners.push(block.owner)?;
    }
    Ok(owners)
}

/// Returns the number of the state of each block, and of the messages in its queue.
fn states(alloc: Global, world: &World) -> Result<Vec<(u32, usize)>, Fail> {
    let mut states = Vec::new(alloc);
    for block in world.blocks() {
        states.push((block.state.0, block.queue.len()))?;
    }
    Ok(states)
}

/// Returns the place of each process.
fn places(alloc: Global, program: &Program, world: &World) -> Result<Vec<Option<Place>>, Fail> {
    let mut places = Vec::new(alloc);
    for process in world.processes() {
        places.push(process.place(program))?;
    }
    Ok(places)
}

fn at(line: u32, col: u32) -> Place {
    Place { line, col }
}

#[test]
fn a_server_waits(rt: HostRuntime) -> Result<(), Fail> {
    let alloc = rt.alloc();
    let program = with_one_contract(alloc, SERVES)?;
    let run = run_of(alloc, &program, &[0, 0, 1, 1])?;
    assert!(rt; run.steps == 3);
    assert_eq!(rt; run.halt, Some(Halt::Waits));
    let owned = [Owner::Process(0), Owner::Process(1)];
    assert!(rt; owners(alloc, &run.world)?.as_slice() == owned.as_slice());
    let stand = [Some(at(7, 3)), Some(at(16, 1))];
    assert!(rt; places(alloc, &program, &run.world)?.as_slice() == stand.as_slice());
    Ok(())
}

#[test]
fn an_error_has_no_case(rt: HostRuntime) -> Result<(), Fail> {
    let alloc = rt.alloc();
    let program = with_one_contract(alloc, ANSWERS_AN_ERROR)?;
    let run = run_of(alloc, &program, &[0, 0, 0, 0, 0])?;
    assert!(rt; run.steps == 4);
    assert_eq!(rt; run.halt, Some(Halt::Fault(Fault::F5, at(8, 1))));
    assert!(rt; states(alloc, &run.world)?.as_slice() == [(1, 1), (0, 0)].as_slice());
    Ok(())
}

#[test]
fn a_process_has_the_choices_of_its_instruction(rt: HostRuntime) -> Result<(), Fail> {
    let alloc = rt.alloc();
    let program = with_one_contract(alloc, SERVES)?;
    let run = run_of(alloc, &program, &[0, 0])?;
    assert!(rt; run.world.choices(&program, 1) == 1);
    assert!(rt; run.world.choices(&program, 2) == 0);
    let program = only(alloc, FREED_ON_ONE_WAY)?;
    let run = run_of(alloc, &program, &[0])?;
    assert!(rt; run.world.choices(&program, 0) == 2);
    Ok(())
}

#[test]
fn a_copy_goes_on_alone(rt: HostRuntime) -> Result<(), Fail> {
    let alloc = rt.alloc();
    let program = with_one_contract(alloc, SERVES)?;
    let run = run_of(alloc, &program, &[0, 0])?;
    let mut copy = run.world.clone()?;
    let before = run.world.key(alloc)?;
    assert!(rt; copy.key(alloc)?.as_slice() == before.as_slice());
    let event = Event {
        process: 0,
        choice: 0,
    };
    if copy.step(alloc, &program, event).is_err() {
        return Err(Fail::from("no step"));
    }
    assert!(rt; copy.key(alloc)?.as_slice() != before.as_slice());
    assert!(rt; run.world.key(alloc)?.as_slice() == before.as_slice());
    Ok(())
}
