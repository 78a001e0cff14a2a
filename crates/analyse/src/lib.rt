//! The verdict of a method: the findings at the pairs of a point and a row that can be reached.
#![tactic(auto)]

mod analysing;
mod breaches;
mod findings;
mod hand;
mod keys;
pub mod laws;
mod naming;
mod noting;
mod own;
mod pair;
mod recalling;
mod remembered;
mod searching;
mod seating;
mod seen;
mod site;
mod stopped;
mod told;
mod tracing;
mod trail;
mod verdict;
mod worker;

pub use analysing::{MOST_PAIRS, analyse};
pub use tasks::{Task, give_up_all, tasks};
pub use tracing::trails_of;
pub use trail::{Failure, Trails};
pub use verdict::Verdict;
pub use worker::Worker;
