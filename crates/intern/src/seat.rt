//! What one thread knows of a table.

ghost use Rattle.std.specs.Prelude.{◌≡◌, []};
ghost use Rattle.intern.specs.View.{IsInside, IsSoundView};

use crate::table::Knowledge;

/// What one thread knows of a table of rows: the words that it saw there, which stay. A seat takes no memory, and may go to another
/// thread.
#[derive(Drop)]
pub struct Seat {
    pub(crate) inner: atomic_table::Seat<(), Knowledge>,
    ghost sound: { IsSoundView inner.me.0.0 },
    ghost inside: { IsInside inner.table_id.words inner.me.0.0 },
    ghost no_slots: { inner.me.1 ≡ [] },
}
