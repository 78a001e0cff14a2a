//! The choice of the next event.

ghost use Rattle.std.specs.Prelude.{◌<◌};

use machine::{Event, World};
use rand_core::utils::NextWord;
use rand_pcg::Pcg32;
use replays::is_open_condition;
use rules::Program;
use source::Memory;
use std::alloc::Global;

/// The stream of the generator, as in the reference program of PCG (O'Neill, 2014).
const STREAM: u64 = 54;

/// A random generator, and the events of a world that were not tried yet.
#[derive(Drop)]
pub(crate) struct Chooser {
    random: Pcg32,
    untried: Vec<Event>,
}

impl Chooser {
    /// Makes a chooser whose choices follow from a seed.
    pub(crate) fn new(alloc: Global, seed: u64) -> Chooser {
        Chooser {
            random: Pcg32::new(seed, STREAM),
            untried: Vec::new(alloc),
        }
    }

    /// Lists the events of a world: each process that has not ended, with each of its choices.
    pub(crate) fn list(&mut self, program: &Program, world: &World) -> Result<(), Memory> {
        self.untried.clear();
        for process in 0..world.processes().len() {
            self.list_process(program, world, process)?;
        }
        Ok(())
    }

    /// Lists the events of a process.
    fn list_process(
        &mut self,
        program: &Program,
        world: &World,
        process: usize,
    ) -> Result<(), Memory> {
        for choice in 0..world.choices(program, process) {
            self.untried.push(Event {
                process: process as u64,
                choice: choice as u64,
            })?;
        }
        Ok(())
    }

    /// Returns the number of events that were not tried yet.
    pub(crate) fn count(&self) -> usize {
        self.untried.len()
    }

    /// Takes one of the events that were not tried yet, each as likely as any other. `None` if there is none.
    ///
    /// A condition that may go either way is true three times in four, whichever of its events was taken, so loops go round
    /// and also end.
    pub(crate) fn pick(&mut self, program: &Program, world: &World) -> Option<Event> {
        let count = self.untried.len();
        if count == 0 {
            return None;
        }
        let index = below(&mut self.random, count);
        let mut event = self.untried.swap_remove(index);
        if is_open_condition(program, world, event.process as usize) {
            event.choice = u64::from(below(&mut self.random, 4) == 3);
        }
        Some(event)
    }
}

/// Returns a random number below `count`, which is not 0.
fn below(random: &mut Pcg32, count: usize) -> usize
    requires some { 0 < count }
    ensures { result < count }
{
    random.next_word() as usize % count
}
