//! Walks of edges: the four conditions of a contract, and its queue bounds.
#![tactic(auto)]

mod arcs;
mod bounds;
mod components;
mod conditions;
mod drawing;
mod ends;
mod grouping;
mod groups;
mod heights;
mod keys;
pub mod laws;
mod leaving;
mod marking;
mod order;
mod positions;
mod ringing;
mod sound;
mod taking;
mod wholeness;

pub use conditions::faults;
pub use ends::two_ends;
pub use sound::{Judged, Sound, SoundFault};
pub use taking::edges;
pub use wholeness::is_whole;
