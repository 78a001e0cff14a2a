//! Bytes in, lines out: the library that a user calls.
#![tactic(auto)]

mod bounds;
mod checking;
mod entering;
mod entries;
mod entry_lists;
mod expecting;
mod explaining;
mod explorations;
mod front;
mod judging;
pub mod laws;
mod limits;
mod lines;
mod printed_runs;
mod random_runs;
mod refusals;
mod remarking;
mod replaying;
mod report;
mod running;
mod seats;
mod soundness;
mod tools;
mod traced_replays;
mod verdicts;
mod why;

pub use bounds::run_bounds;
pub use checking::{check, check_onto};
pub use command_line::{Ask, Lines, Wanted, ask};
pub use devices::{
    CheckFault, Counted, Failed, Input, MAX_READ, RunFault, Sink, Source, Status, ending,
};
pub use entry_lists::run_entries;
pub use explorations::run_explore;
pub use limits::{MAX_SCHEDULE_READ, MOST_SLOTS, MOST_WORKERS};
pub use pool::{Gate, Open};
pub use random_runs::{RunOptions, run_random};
pub use replaying::run_replay;
pub use replays::Detail;
pub use report::Report;
pub use running::run_check;
pub use source::Place;
pub use traced_replays::run_trace;
pub use why::run_why;
