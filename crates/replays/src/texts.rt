//! Texts and numbers, added to what is written.

ghost use Rattle.std.specs.Prelude.{◌≡◌, ◌++◌, OnOk};
ghost use Rattle.std.specs.Fmt.{decimal};
ghost use Rattle.replays.specs.Fronts.{separator};
ghost use Rattle.replays.specs.WorldLines.{place_text};

use itoa::Buffer;
use source::{Memory, Place};

/// Adds a text.
pub(crate) fn add(answer: &mut Vec<u8>, text: &[u8]) -> Result<(), Memory>
    ensures { OnOk result (answer.new.items ≡ answer.old.items ++ text.now) }
{
    answer.extend_from_slice(text)?;
    Ok(())
}

/// Adds a number in decimal.
pub(crate) fn add_number(answer: &mut Vec<u8>, number: u64) -> Result<(), Memory>
    ensures { OnOk result (answer.new.items ≡ answer.old.items ++ decimal number) }
{
    let mut digits = Buffer::new();
    add(answer, digits.format(number).as_bytes())
}

/// Adds `LINE:COL`.
pub(crate) fn add_place(answer: &mut Vec<u8>, place: Place) -> Result<(), Memory>
    ensures { OnOk result (answer.new.items ≡ answer.old.items ++ place_text place) }
{
    add_number(answer, u64::from(place.line))?;
    add(answer, b":")?;
    add_number(answer, u64::from(place.col))
}

/// Adds a separator before a piece, unless it is the first one.
pub(crate) fn separate(answer: &mut Vec<u8>, index: usize, between: u8) -> Result<(), Memory>
    ensures { OnOk result (answer.new.items ≡ answer.old.items ++ separator index between) }
{
    if 0 < index {
        answer.push(between)?;
    }
    Ok(())
}
