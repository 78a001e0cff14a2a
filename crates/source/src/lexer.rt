//! The tokens of a text, each the longest at its place.

ghost use Rattle.std.specs.Prelude.{◌≡◌, ◌≢◌, ◌++◌, ◌+◌, ◌^◌, ◌<◌, ◌≤◌, ◌⊎◌, List, ℕ, length, take, All, IfOk, IfErr};
ghost use Rattle.source.specs.Faults.{HasFirst, IsFault};
ghost use Rattle.source.specs.Firsts.{IsFirst};
ghost use Rattle.source.specs.Marks.{mark_len, body_of};
ghost use Rattle.source.specs.Places.{place_of};
ghost use Rattle.source.specs.declared.fault.TextFault.{TextFault};
ghost use Rattle.source.specs.Tokens.{IsLexed, AreTokens, IsSpelled, AreInOrder};

use crate::brackets::{self, MAX_DEPTH};
use crate::fault::TextFault;
use crate::pieces::{Piece, first_piece};
use crate::place::{self, Place};
use crate::token::{Span, Token, Tokens};
use bstr::Finder;
use std::alloc::Global;

/// The greatest length of a text, in bytes.
pub const MAX_TEXT: usize = 4_194_304;

/// The most tokens that room is reserved for at the start. They take 33.54 MB. From 33.55 MB on, the allocator as
/// the script `singcheck` sets it gives memory back to the system, and later stages would need other pages to be
/// cleared.
const AT_ONCE: usize = 1_677_000;

/// Returns the length of the UTF-8 byte order mark at the front: 3, or 0 if there is none.
fn mark_len(text: &[u8]) -> usize
    ensures value { result ≡ mark_len text.now }
    ensures within { result ≤ length text.now }
{
    if text.starts_with(b"\xef\xbb\xbf") {
        3
    } else {
        0
    }
}

/// The tokens among the pieces of a text, and the place after it.
#[derive(Drop)]
struct Lexed {
    list: Vec<Token>,
    end: Place,
}

/// Returns the place after a piece, from the place where it begins. No byte of a token ends a line.
fn behind(start: Place, piece: Piece, rest: &[u8]) -> Place
    requires first { IsFirst rest.now piece }
    requires line { start.line + piece.len < 2 ^ 32 }
    requires col { start.col + piece.len < 2 ^ 32 }
    ensures { (before : List ℕ) → start ≡ place_of before → result ≡ place_of (before ++ take piece.len rest.now) }
{
    match piece.kind {
        Some(_) => Place {
            line: start.line,
            col: start.col + piece.len as u32,
        },
        None => place::after(start, &rest[..piece.len]),
    }
}

/// Returns the tokens of the text after a byte order mark of `mark` bytes, or its first fault.
fn cut(alloc: Global, body: &[u8], mark: usize) -> Result<Lexed, TextFault>
    requires { mark + length body.now ≤ MAX_TEXT }
    ensures found { IfOk result (λ found. IsLexed mark body.now found.list.items found.end) }
    ensures fault { IfErr result (λ fault. fault ≢ TextFault.Memory → HasFirst body.now fault) }
{
    let closing = Finder::new(b"*/");
    let mut list = Vec::with_capacity(alloc, body.len().min(AT_ONCE))?;
    let mut place = place::START;
    let mut depth = 0;
    let mut at = 0;
    'pieces: while at < body.len() {
        let rest = &body[at..];
        let piece = first_piece(rest, place, &closing)?;
        if let Some(kind) = piece.kind {
            depth = brackets::after(depth, kind);
            if depth > MAX_DEPTH {
                return Err(TextFault::TooDeep(place));
            }
            let start = mark + at;
            list.push(Token {
                kind,
                span: Span {
                    start: start as u32,
                    end: (start + piece.len) as u32,
                    place,
                },
            })?;
        }
        place = behind(place, piece, rest);
        at += piece.len;
    }
    Ok(Lexed { list, end: place })
}

/// Returns the tokens of a text in order, each with its span and its place.
///
/// The text is cut into blanks, comments and tokens, each the longest at its place. A word is a name or a reserved
/// word, `[A-Za-z_][A-Za-z0-9_]*`; a number is `[0-9]+`. As in C, a comment runs from `//` to before the end of the
/// line, or from `/*` to the next `*/` after it, and does not nest. A UTF-8 byte order mark at the front is
/// skipped: spans count its bytes, places do not.
///
/// # Errors
/// `TooLong` if the text has more than `MAX_TEXT` bytes, whatever else is wrong with it. Otherwise the first fault
/// in the text: `Stray` at a byte that begins none of these, `OpenComment` at the `/*` of a comment that does not
/// end, `TooDeep` at the bracket with which 101 are open (a closing bracket of any kind closes one, if one is
/// open), `TooLarge` at a number above 2147483647. `Memory` if an allocation was refused. After an error no part of
/// the result remains.
pub fn lex(alloc: Global, text: &[u8]) -> Result<Tokens, TextFault>
    ensures tokens { IfOk result (λ found. AreTokens text.now found.list.items) }
    ensures spelled { IfOk result (λ found. All (IsSpelled text.now) found.list.items) }
    ensures ordered { IfOk result (λ found. AreInOrder 0 (length text.now) found.list.items) }
    ensures few { IfOk result (λ found. length found.list.items ≤ MAX_TEXT) }
    ensures end { IfOk result (λ found. found.end ≡ place_of (body_of text.now)) }
    ensures fault { IfErr result (λ fault. fault ≢ TextFault.Memory → IsFault text.now fault) }
    ensures first { (fault : TextFault) → IsFault text.now fault
        → (result ≡ Err fault) ⊎ (result ≡ Err TextFault.Memory) }
{
    if text.len() > MAX_TEXT {
        return Err(TextFault::TooLong);
    }
    let mark = mark_len(text);
    let Lexed { list, end } = cut(alloc, &text[mark..], mark)?;
    Ok(Tokens { list, end })
}
