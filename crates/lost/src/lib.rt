//! Lost blocks: blocks that are not freed, and that no process can reach any more.
#![tactic(auto)]

mod deciding;
pub mod laws;
mod marking;
mod reaching;

pub use deciding::lost_blocks;
