//! Limits of calls.

use replays::MOST_SCHEDULE;

/// The most workers of a call.
pub const MOST_WORKERS: usize = pool::MOST_WORKERS;

/// The most slots of the table of rows that the workers share.
pub const MOST_SLOTS: usize = intern::MOST_SLOTS;

/// The most bytes of a schedule that are read: one more than it may have.
pub const MAX_SCHEDULE_READ: usize = MOST_SCHEDULE + 1;

/// The most bytes of a text that are searched for all its nearest names together.
pub const MOST_LOOKED_THROUGH: usize = 1 << 26;
