//! The command line: what its words ask for.
#![tactic(auto)]

mod asking;
mod commands;
mod request;

pub use asking::ask;
pub use request::{Ask, Lines, Wanted};
