//! What several crates need for lists, options and tables, beyond the standard library.
#![tactic(auto)]

mod positions;

pub use positions::first_positions;
