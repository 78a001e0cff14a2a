//! Verdicts that any thread can read, each from where it was put.
#![tactic(auto)]

pub mod laws;
mod receipt;
mod shelf;
mod so_far;

pub use receipt::Receipt;
pub use shelf::Shelf;
pub use so_far::SoFar;
