//! The names that a method declares before a place, and the one of them that is nearest to a word.
#![tactic(auto)]

mod letters;
mod locals;
mod near;

pub use locals::{is_before, names_before};
pub use near::nearest;
