//! The line of a remark, and the parts of its text.

ghost use Rattle.std.specs.Prelude.{◌≡◌, ◌++◌, IfOk, OnOk, option_map, string_bytes};
ghost use Rattle.std.specs.Fmt.{decimal};
ghost use Rattle.explanations.specs.Lines.{line_model};
ghost use Rattle.remarks.specs.Remarks.{at};

use explanations::Line;
use itoa::Buffer;
use source::{Memory, Place};
use std::alloc::Global;

/// Returns a remark with this text. Returns `Memory` if an allocation was refused.
pub(crate) fn plain(alloc: Global, place: Place, text: &str) -> Result<Option<Line>, Memory>
    ensures { IfOk result (λ said. option_map line_model said ≡ at place text.now) }
{
    Ok(remark_at(place, String::from_str(alloc, text)?))
}

/// Returns a remark that owns this text.
pub(crate) fn remark_at(place: Place, text: String) -> Option<Line>
    ensures { option_map line_model result ≡ at place (string_bytes text) }
{
    Some(Line {
        place,
        text: text.into_bytes(),
    })
}

/// Appends words to a text. Returns `Memory` if an allocation was refused.
pub(crate) fn add(text: &mut String, words: &str) -> Result<(), Memory>
    ensures { OnOk result (string_bytes text.new ≡ string_bytes text.old ++ words.now) }
{
    text.push_str(words)?;
    Ok(())
}

/// Appends a number in decimal. Returns `Memory` if an allocation was refused.
pub(crate) fn add_number(text: &mut String, number: usize) -> Result<(), Memory>
    ensures { OnOk result (string_bytes text.new ≡ string_bytes text.old ++ decimal number) }
{
    let mut digits = Buffer::new();
    add(text, digits.format(number))
}
