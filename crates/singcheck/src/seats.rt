//! A table of rows, and a worker for each seat at it.

ghost use Rattle.std.specs.Prelude.{◌≡◌, All, IfOk, vec_len};
ghost use Rattle.intern.specs.Seats.{IsSeatOf};
ghost use Rattle.analyse.specs.Workers.{IsWorkerOf};

use analyse::Worker;
use intern::{Rows, Seat};
use source::Memory;
use std::alloc::Global;

/// Returns a table of `slots` slots and its first seat.
///
/// # Errors
/// `Memory` if out of memory.
pub(crate) fn table(alloc: Global, slots: usize) -> Result<(Rows, Seat), Memory>
    ensures { IfOk result (λ made. IsSeatOf made.0 made.1) }
{
    match Rows::new(alloc, slots) {
        Ok(made) => Ok(made),
        Err(_) => Err(Memory),
    }
}

/// Returns `others + 1` workers with seats at this table. Each further seat is split off the first.
///
/// # Errors
/// `Memory` if out of memory.
pub(crate) fn workers_at(
    alloc: Global,
    rows: &Rows,
    seat: Seat,
    others: usize,
) -> Result<Vec<Worker>, Memory>
    requires seat { IsSeatOf rows.now seat }
    ensures each { IfOk result (λ workers. All (IsWorkerOf rows.now) workers.items) }
{
    let mut workers = Vec::new(alloc);
    let mut left = seat;
    for _ in 0..others {
        match rows.split(left) {
            Ok((kept, given)) => {
                left = kept;
                workers.push(Worker::new(alloc, given))?;
            }
            Err(_) => return Err(Memory),
        }
    }
    workers.push(Worker::new(alloc, left))?;
    Ok(workers)
}
