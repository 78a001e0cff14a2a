//! Lines that explain findings: what they are, and for which findings they are asked.
#![tactic(auto)]

mod line;
mod states;

pub use line::{Explained, Line, is_asked, line_of};
pub use states::state_name;
