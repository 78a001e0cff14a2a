//! Findings in the order of a report.
#![tactic(auto)]

mod in_order;

pub use in_order::in_report_order;
