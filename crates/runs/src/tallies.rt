//! How many runs ended in each way.

ghost use Rattle.std.specs.Prelude.{◌≡◌, ◌++◌, ◌⊎◌, ℕ, IsSomeAnd, OnOk};
ghost use Rattle.replays.specs.EventLines.{TraceWords};
ghost use Rattle.runs.specs.Tallies.{HasRun, AreTallies, tallies_lines, tally_text};

use replays::{EndKind, add_tally};
use source::Memory;

/// Runs that ended in one way: how many they are, and the number of events and the seed of the shortest.
#[derive(Clone, Copy, Debug, PartialEq, Eq)]
pub struct Tally {
    pub count: u64,
    pub events: usize,
    pub seed: u64,
}

/// The runs that ended in each way. `None` if no run did.
#[derive(Clone, Copy, Debug, PartialEq, Eq)]
pub struct Tallies {
    pub ended: Option<Tally>,
    pub locked: Option<Tally>,
    pub faulty: Option<Tally>,
    pub running: Option<Tally>,
}

/// Returns a tally with one more run, of this many events and with this seed.
fn one_more(old: Option<Tally>, events: usize, seed: u64) -> Tally
    ensures { (result.events ≡ events) ⊎ IsSomeAnd old (λ tally. result.events ≡ tally.events) }
{
    match old {
        Some(tally) if tally.events <= events => Tally {
            count: tally.count.saturating_add(1),
            ..tally
        },
        Some(tally) => Tally {
            count: tally.count.saturating_add(1),
            events,
            seed,
        },
        None => Tally {
            count: 1,
            events,
            seed,
        },
    }
}

impl Tallies {
    /// Returns the tallies of no run.
    pub(crate) fn new() -> Tallies
        ensures { (t : TraceWords) (m : ℕ) → AreTallies t m result }
    {
        Tallies {
            ended: None,
            locked: None,
            faulty: None,
            running: None,
        }
    }

    /// Adds a run that ended in this way after this many events, and its seed.
    pub(crate) fn count(&mut self, ending: EndKind, events: usize, seed: u64)
        ensures { (t : TraceWords) (m : ℕ) → AreTallies t m self.old → HasRun t m ending events → AreTallies t m self.new }
    {
        match ending {
            EndKind::Ended => self.ended = Some(one_more(self.ended, events, seed)),
            EndKind::Deadlock => self.locked = Some(one_more(self.locked, events, seed)),
            EndKind::Fault => self.faulty = Some(one_more(self.faulty, events, seed)),
            EndKind::Running => self.running = Some(one_more(self.running, events, seed)),
        }
    }

    /// Adds a line for each way in which a run ended.
    ///
    /// # Errors
    /// `Memory` if out of memory.
    pub fn add_to(&self, answer: &mut Vec<u8>) -> Result<(), Memory>
        ensures { OnOk result (answer.new.items ≡ answer.old.items ++ tallies_lines self.now) }
    {
        add_kind(answer, EndKind::Ended, self.ended)?;
        add_kind(answer, EndKind::Deadlock, self.locked)?;
        add_kind(answer, EndKind::Fault, self.faulty)?;
        add_kind(answer, EndKind::Running, self.running)
    }
}

/// Adds the line of the runs that ended in this way, if there is one.
fn add_kind(answer: &mut Vec<u8>, ending: EndKind, tally: Option<Tally>) -> Result<(), Memory>
    ensures { OnOk result (answer.new.items ≡ answer.old.items ++ tally_text ending tally) }
{
    match tally {
        Some(tally) => add_tally(answer, ending, tally.count, tally.events, tally.seed),
        None => Ok(()),
    }
}
