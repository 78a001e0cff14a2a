//! Lines that explain a finding.

ghost use Rattle.std.specs.Prelude.{◌≡◌, ◌++◌, IfOk};
ghost use Rattle.explanations.specs.Explained.{is_asked};

use source::{Finding, Memory, Place};
use std::alloc::Global;

/// A text about a place: one more line about a finding.
#[derive(Drop)]
pub struct Line {
    pub place: Place,
    pub text: Vec<u8>,
}

/// A finding, and the lines that show why it is one.
#[derive(Drop)]
pub struct Explained {
    pub finding: Finding,
    pub lines: Vec<Line>,
}

/// Returns whether lines are asked for at this place: everywhere, unless one place is named.
pub fn is_asked(named: Option<Place>, place: Place) -> bool
    ensures { result ≡ is_asked named place }
{
    match named {
        Some(named) => named == place,
        None => true,
    }
}

/// Makes a line of these three pieces.
///
/// # Errors
/// `Memory` if out of memory.
pub fn line_of(
    alloc: Global,
    place: Place,
    front: &[u8],
    middle: &[u8],
    back: &[u8],
) -> Result<Line, Memory>
    ensures place { IfOk result (λ line. line.place ≡ place) }
    ensures text { IfOk result (λ line. line.text.items ≡ front.now ++ (middle.now ++ back.now)) }
{
    let mut text = Vec::new(alloc);
    text.extend_from_slice(front)?;
    text.extend_from_slice(middle)?;
    text.extend_from_slice(back)?;
    Ok(Line { place, text })
}
