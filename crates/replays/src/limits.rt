//! Limits of schedules.

/// The most bytes of a schedule.
pub const MOST_SCHEDULE: usize = 1_048_576;
/// The greatest number of a process or a choice in a schedule.
pub const MOST_NUMBER: u64 = 4_294_967_295;
