//! What a worker keeps from method to method.

use crate::own::OwnRows;
use crate::remembered::Remembered;
use crate::seen::Seen;
use intern::Seat;
use rules::Spare;

/// What a worker keeps from method to method: its seat at the shared table of rows, the results of transfers, and
/// tables of its own, which are emptied for each method and keep their memory.
#[derive(Drop)]
pub struct Worker {
    pub(crate) seat: Seat,
    /// Whether it keeps all rows itself, since the shared table had no near slot for one.
    pub(crate) alone: bool,
    pub(crate) own: OwnRows,
    pub(crate) seen: Seen,
    /// The results of transfers. Those of ids are kept from method to method, since an id names the same row for good.
    pub(crate) remembered: Remembered,
    /// Rows to reuse for the ways of a switch.
    pub(crate) spare: Spare,
}
