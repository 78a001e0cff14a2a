//! Rows, and the rule table: what an instruction does to a row, or which check fails.
#![tactic(auto)]

mod arguments;
mod breach;
mod checks;
mod endpoints;
mod fields;
mod findings;
mod here;
pub mod laws;
mod lowered;
mod onward;
mod outcome;
mod payloads;
mod repeats;
mod returning;
mod scopes;
mod sending;
mod stepping;
mod switching;
mod table;
mod transfer;

pub use breach::{Breach, Reason};
pub use lowered::Program;
pub use onward::Onward;
pub use outcome::Outcome;
pub use rows::{Leaf, Row, Spare};
pub use stepping::{condition, entry_pair, step, step_in_place};
pub use transfer::{Transfer, transfer_at};
