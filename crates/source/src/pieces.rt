//! The longest blank, comment or token at the front of a text.

ghost use Rattle.std.specs.Prelude.{◌≡◌, ◌<◌, ℕ, length, slice_index, true, false, IfOk, IfErr, codes};
ghost use Rattle.std.specs.Char.{is_ascii_digit};
ghost use Rattle.source.specs.Classes.{is_blank_byte, starts_word, IsOther};
ghost use Rattle.source.specs.Faults.{StandsAt};
ghost use Rattle.source.specs.Firsts.{IsFirst};

use crate::fault::TextFault;
use crate::kind::Kind;
use crate::numbers::MAX_NUMBER;
use crate::place::Place;
use crate::{comments, numbers, symbols, words};
use bstr::Finder;

/// A blank, a comment or a token: its length in bytes, and the kind if it is a token.
#[derive(Clone, Copy)]
pub(crate) struct Piece {
    pub(crate) kind: Option<Kind>,
    pub(crate) len: usize,
}

/// Returns whether a byte is a space, a tab, a carriage return or a line feed.
fn is_blank(byte: u8) -> bool
    ensures { result ≡ is_blank_byte byte }
{
    matches!(byte, b' ' | b'\t' | b'\r' | b'\n')
}

/// Returns the word at the front of bytes that begin with one.
fn word(rest: &[u8]) -> Piece
    requires some { 0 < length rest.now }
    requires begins { starts_word (slice_index rest.now 0) ≡ true }
    ensures { IsFirst rest.now result }
{
    let len = words::front_len(rest);
    Piece {
        kind: Some(words::of_word(&rest[..len])),
        len,
    }
}

/// Returns the number at the front of bytes that begin with a digit, or `TooLarge` if it is above `MAX_NUMBER`.
fn number(rest: &[u8], place: Place) -> Result<Piece, TextFault>
    requires some { 0 < length rest.now }
    requires begins { is_ascii_digit (slice_index rest.now 0) ≡ true }
    ensures found { IfOk result (IsFirst rest.now) }
    ensures fault { IfErr result (λ fault. (depth : ℕ) → StandsAt fault place depth rest.now) }
{
    let len = numbers::front_len(rest);
    if numbers::capped_value(&rest[..len]) > MAX_NUMBER {
        return Err(TextFault::TooLarge(place));
    }
    Ok(Piece {
        kind: Some(Kind::Number),
        len,
    })
}

/// Returns the comment at the front of bytes that begin with `/`. The fault is `OpenComment` if it does not end,
/// `Stray` if no comment begins there.
fn comment(rest: &[u8], place: Place, closing: &Finder<'_>) -> Result<Piece, TextFault>
    requires some { 0 < length rest.now }
    requires begins { slice_index rest.now 0 ≡ 47 }
    requires closing { closing.now ≡ codes "*/" }
    ensures found { IfOk result (IsFirst rest.now) }
    ensures fault { IfErr result (λ fault. (depth : ℕ) → StandsAt fault place depth rest.now) }
{
    if rest.len() < 2 {
        return Err(TextFault::Stray(place));
    }
    match rest[1] {
        b'/' => Ok(Piece {
            kind: None,
            len: comments::line_len(rest),
        }),
        b'*' => match comments::block_len(rest, closing) {
            Some(len) => Ok(Piece { kind: None, len }),
            None => Err(TextFault::OpenComment(place)),
        },
        _ => Err(TextFault::Stray(place)),
    }
}

/// Returns the longest symbol at the front of bytes that begin with no blank, word, number or comment, or `Stray`
/// if there is none.
fn symbol(rest: &[u8], place: Place) -> Result<Piece, TextFault>
    requires some { 0 < length rest.now }
    requires other { IsOther (slice_index rest.now 0) }
    ensures found { IfOk result (IsFirst rest.now) }
    ensures fault { IfErr result (λ fault. (depth : ℕ) → StandsAt fault place depth rest.now) }
{
    let first = rest[0];
    if rest.len() > 1 {
        if let Some(kind) = symbols::of_two(first, rest[1]) {
            return Ok(Piece {
                kind: Some(kind),
                len: 2,
            });
        }
    }
    match symbols::of_byte(first) {
        Some(kind) => Ok(Piece {
            kind: Some(kind),
            len: 1,
        }),
        None => Err(TextFault::Stray(place)),
    }
}

/// Returns the longest blank, comment or token at the front of `rest`, or the fault there. `place` is the place of
/// `rest`.
pub(crate) fn first_piece(
    rest: &[u8],
    place: Place,
    closing: &Finder<'_>,
) -> Result<Piece, TextFault>
    requires some { 0 < length rest.now }
    requires closing { closing.now ≡ codes "*/" }
    ensures found { IfOk result (IsFirst rest.now) }
    ensures fault { IfErr result (λ fault. (depth : ℕ) → StandsAt fault place depth rest.now) }
{
    let first = rest[0];
    if is_blank(first) {
        Ok(Piece { kind: None, len: 1 })
    } else if words::begins(first) {
        Ok(word(rest))
    } else if first.is_ascii_digit() {
        number(rest, place)
    } else if first == b'/' {
        comment(rest, place, closing)
    } else {
        symbol(rest, place)
    }
}
