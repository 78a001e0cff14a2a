//! Laws of shelves.

ghost use Rattle.std.specs.Thread.{IsSend, IsSync};
ghost use Rattle.shelf.specs.contracts.receipt.Receipt as receipt;
ghost use Rattle.shelf.specs.contracts.shelf.Shelf as shelf;

use crate::receipt::Receipt;
use crate::shelf::Shelf;

/// Threads may share a shelf by reference, and send each other receipts.
pub fn threads_share_a_shelf()
    ensures shelf { IsSync shelf.the_row }
    ensures receipt { IsSend receipt.the_row }
{
    shared::<Shelf>();
    sent::<Receipt>();
}

/// Values of this type may be shared.
fn shared<T: Sync>()
    ensures { IsSync T.row }
{}

/// Values of this type may be sent.
fn sent<T: Send>()
    ensures { IsSend T.row }
{}
