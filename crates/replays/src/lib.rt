//! Schedules of events, and worlds as lines. Comments in schedules are skipped.
#![tactic(auto)]

mod blocks;
mod detail;
mod end;
mod events;
mod fault;
mod fronts;
mod journal;
pub mod laws;
mod leftover;
mod limits;
mod names;
mod naming;
mod printing;
mod processes;
mod run_lines;
mod schedule;
mod sites;
mod steps;
mod texts;
mod tracer;
mod waits;
mod writing;

pub use detail::Detail;
pub use end::{EndKind, RunEnd};
pub use fault::ScheduleFault;
pub use journal::{Journal, is_open_condition};
pub use limits::{MOST_NUMBER, MOST_SCHEDULE};
pub use printing::lines_of;
pub use run_lines::{add_conditions, add_seed, add_tally};
pub use schedule::read_schedule;
pub use tracer::Tracer;
pub use writing::schedule_of;
