//! Rows: what each variable of a method has.
#![tactic(auto)]

mod row;
mod spare;

pub use row::{Leaf, Row};
pub use spare::Spare;
