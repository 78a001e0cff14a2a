//! Tasks shared out over workers that steal from each other: each is spent once, whichever worker took it.
#![tactic(auto)]

mod absorbing;
mod bench;
mod cutting;
mod deque;
mod done;
mod fault;
mod filling;
mod gate;
mod gathering;
mod held;
mod job;
pub mod laws;
mod sharing;
mod stealing;
mod stints;
mod threads;
mod working;

pub use done::Done;
pub use fault::PoolFault;
pub use gate::{Gate, Open};
pub use job::Job;
pub use sharing::{MOST_WORKERS, share_out};
