//! How a worker takes a seat and gives it back.

ghost use Rattle.std.specs.Prelude.{◌≡◌};
ghost use Rattle.intern.specs.Seats.{IsSeatOf};
ghost use Rattle.intern.specs.declared.row_table.Rows.{Rows};
ghost use Rattle.analyse.specs.Workers.{IsAtTable, IsWorkerOf, seat_of};

use crate::own::OwnRows;
use crate::remembered::Remembered;
use crate::seen::Seen;
use crate::worker::Worker;
use intern::Seat;
use rules::Spare;
use std::alloc::Global;

impl Worker {
    /// Returns a worker with this seat. It allocates nothing before it analyses something.
    pub fn new(alloc: Global, seat: Seat) -> Worker
        ensures seat { seat_of result ≡ seat }
        ensures table { IsAtTable result }
        ensures worker { (rows : Rows) → IsSeatOf rows seat → IsWorkerOf rows result }
    {
        Worker {
            seat,
            alone: false,
            own: OwnRows::new(alloc),
            seen: Seen::new(alloc),
            remembered: Remembered::new(alloc),
            spare: Spare::new(alloc),
        }
    }

    /// Returns the worker's seat, which knows all that the worker has seen.
    pub fn into_seat(self) -> Seat
        ensures { result ≡ seat_of self }
    {
        self.seat
    }
}
