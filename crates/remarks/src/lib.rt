//! Remarks on findings about the text or its names.
#![tactic(auto)]

mod around;
mod candidates;
mod faults;
mod line;
mod listing;
mod mismatches;
mod mistakes;
mod types;
mod unknown;
mod words;

pub use faults::fault_remark;
pub use listing::MAX_NAME;
pub use mistakes::remark;
