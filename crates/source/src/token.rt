//! Tokens of a text.

ghost use Rattle.std.specs.Prelude.{◌≡◌};
ghost use Rattle.source.specs.Slices.{slice_of};

use crate::kind::Kind;
use crate::place::Place;

/// Where a token is: its first byte and the byte after its last, both counted from 0, and the place of the first.
#[derive(Clone, Copy, Debug, PartialEq, Eq)]
pub struct Span {
    pub start: u32,
    pub end: u32,
    pub place: Place,
}

impl Span {
    /// Returns the bytes of the text in this span, or an empty slice if the span is not within the text.
    pub fn slice<'a>(self, text: &'a [u8]) -> &'a [u8]
        ensures { result.now ≡ slice_of text.now self.start self.end }
    {
        text.get(self.start as usize..self.end as usize)
            .unwrap_or(&[])
    }
}

/// A lexeme of the text.
#[derive(Clone, Copy, Debug, PartialEq, Eq)]
pub struct Token {
    pub kind: Kind,
    pub span: Span,
}

/// The tokens of a text in order, and the place after its last byte.
#[derive(Drop)]
pub struct Tokens {
    pub list: Vec<Token>,
    pub end: Place,
}
