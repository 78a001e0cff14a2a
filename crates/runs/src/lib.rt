//! Runs at random or along given events, and how they end.
#![tactic(auto)]

mod chooser;
mod ending;
mod following;
mod random;
mod tallies;

pub use ending::Simulation;
pub use following::{Trace, follow, trace_of};
pub use random::{Plan, RandomRun, random_run};
pub use tallies::{Tallies, Tally};
