//! Lines that explain the findings of methods: for each a shortest path to a step that fails.
#![tactic(auto)]

mod cases;
mod changes;
mod endpoints;
mod explaining;
mod paths;
mod step;
mod teller;
mod watching;

pub use explaining::explain;
