//! Remarks on faults of the text.

ghost use Rattle.std.specs.Prelude.{◌≡◌, IfOk, option_map};
ghost use Rattle.remarks.specs.FaultRemarks.{fault_remark};
ghost use Rattle.explanations.specs.Lines.{line_model};

use crate::line::plain;
use explanations::Line;
use source::{Memory, Place, TextFault};
use std::alloc::Global;

/// The place of the first byte of a text.
const START: Place = Place { line: 1, col: 1 };

/// Returns the remark on a fault of the text: what is missing, or how much is allowed. Returns `None` for
/// `TextFault::Memory`, which is no fault of the text. Returns `Memory` if an allocation was refused.
pub fn fault_remark(alloc: Global, fault: TextFault) -> Result<Option<Line>, Memory>
    ensures { IfOk result (λ said. option_map line_model said ≡ fault_remark fault) }
{
    match fault {
        TextFault::Stray(place) => plain(alloc, place, "no token or comment starts here"),
        TextFault::OpenComment(place) => plain(alloc, place, "this comment is not closed with */"),
        TextFault::TooLong => plain(alloc, START, "a text may have at most 4194304 bytes"),
        TextFault::TooDeep(place) => plain(
            alloc,
            place,
            "at most 100 brackets may be open at once",
        ),
        TextFault::TooLarge(place) => plain(alloc, place, "the largest number is 2147483647"),
        TextFault::Memory => Ok(None),
    }
}
