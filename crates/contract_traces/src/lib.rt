//! Lines that explain the findings of a contract: edges that show what is wrong.
#![tactic(auto)]

mod conditions;
mod edges;
mod firsts;
mod reasons;
mod rings;

pub use conditions::show_faults;
