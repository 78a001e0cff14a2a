//! Requests: what a command line can ask for.

use source::Place;

/// Which random run a command line asks for: the seed of the first one that is tried, how many events each has at most, how many are
/// tried, whether all events have lines, and the file to which the schedule goes, if it is named.
#[derive(Clone, Copy, Debug, PartialEq, Eq)]
pub struct Wanted<'a> {
    pub seed: usize,
    pub steps: usize,
    pub runs: usize,
    pub all: bool,
    pub schedule: Option<&'a str>,
}

/// Which events of a replay have lines.
#[derive(Clone, Copy, Debug, PartialEq, Eq)]
pub enum Lines {
    /// None.
    Silent,
    /// Those that a reader needs to follow the run.
    Notable,
    /// All.
    Everything,
}

/// What a command line asks for.
#[derive(Clone, Copy, Debug, PartialEq, Eq)]
pub enum Ask<'a> {
    /// The queue bounds of the contracts in this file.
    Bounds {
        file: &'a str,
    },
    /// The findings of this file, by this many workers with a table of this many slots.
    Check {
        file: &'a str,
        workers: usize,
        slots: usize,
    },
    /// The findings of this file with their traces, or with the traces of those at one place.
    Why {
        file: &'a str,
        named: Option<Place>,
    },
    /// A random run of this file from an entry, `Class.Method`.
    Run {
        file: &'a str,
        entry: &'a str,
        wanted: Wanted<'a>,
    },
    /// A search of the runs of this file from an entry, `Class.Method`, through at most this many worlds. A schedule that is found goes to
    /// the file `schedule`, if it is named.
    Explore {
        file: &'a str,
        entry: &'a str,
        worlds: usize,
        schedule: Option<&'a str>,
    },
    /// The replay of the events in the file `schedule`, for this file from an entry, `Class.Method`.
    Replay {
        file: &'a str,
        entry: &'a str,
        schedule: &'a str,
        lines: Lines,
    },
}
