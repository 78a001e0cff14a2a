//! Places in a text.

ghost use Rattle.std.specs.Prelude.{◌≡◌, ◌++◌, ◌+◌, ◌^◌, ◌<◌, List, ℕ, length};
ghost use Rattle.source.specs.Places.{place_of};

/// A line and a column, both from 1. A column counts bytes.
#[derive(Clone, Copy, Debug, PartialEq, Eq, PartialOrd, Ord)]
pub struct Place {
    pub line: u32,
    pub col: u32,
}

/// The place of the first byte of a text.
pub(crate) const START: Place = Place { line: 1, col: 1 };

/// Returns the place after some bytes that begin at `start`.
pub(crate) fn after(start: Place, bytes: &[u8]) -> Place
    requires line { start.line + length bytes.now < 2 ^ 32 }
    requires col { start.col + length bytes.now < 2 ^ 32 }
    ensures { (before : List ℕ) → start ≡ place_of before → result ≡ place_of (before ++ bytes.now) }
{
    let mut place = start;
    for byte in bytes {
        place = if *byte == b'\n' {
            Place {
                line: place.line + 1,
                col: 1,
            }
        } else {
            Place {
                line: place.line,
                col: place.col + 1,
            }
        };
    }
    place
}
