//! Deadlocks: worlds in which some process has not ended, and no event is a step or a fault.
#![tactic(auto)]

mod deciding;
pub mod laws;

pub use deciding::{all_ended, is_deadlock, leads_to_deadlock};
