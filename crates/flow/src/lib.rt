//! A method as a graph of instructions.
#![tactic(auto)]

mod cases;
mod graph;
pub mod laws;
mod laying;
mod lowering;

pub use cases::Cases;
pub use graph::{Branches, Calling, Entrance, Graph, Instr, Returning, Sending, Starting};
pub use lowering::lower;
