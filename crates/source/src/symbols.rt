//! Symbols.

ghost use Rattle.std.specs.Prelude.{◌≡◌, [], ◌∷◌};
ghost use Rattle.source.specs.Words.{symbol};

use crate::kind::Kind;

/// Returns the kind of a symbol of one byte.
pub(crate) fn of_byte(byte: u8) -> Option<Kind>
    ensures { result ≡ symbol (byte ∷ []) }
{
    match byte {
        b'{' => Some(Kind::OpenBrace),
        b'}' => Some(Kind::CloseBrace),
        b'(' => Some(Kind::OpenParen),
        b')' => Some(Kind::CloseParen),
        b'[' => Some(Kind::OpenBracket),
        b']' => Some(Kind::CloseBracket),
        b';' => Some(Kind::Semicolon),
        b':' => Some(Kind::Colon),
        b',' => Some(Kind::Comma),
        b'.' => Some(Kind::Dot),
        b'*' => Some(Kind::Star),
        b'!' => Some(Kind::Bang),
        b'?' => Some(Kind::Question),
        b'=' => Some(Kind::Equal),
        b'<' => Some(Kind::Less),
        b'>' => Some(Kind::Greater),
        b'+' => Some(Kind::Plus),
        b'-' => Some(Kind::Minus),
        _ => None,
    }
}

/// Returns the kind of a symbol of two bytes.
pub(crate) fn of_two(first: u8, second: u8) -> Option<Kind>
    ensures { result ≡ symbol (first ∷ second ∷ []) }
{
    match (first, second) {
        (b'=', b'=') => Some(Kind::EqualEqual),
        (b'!', b'=') => Some(Kind::NotEqual),
        (b'<', b'=') => Some(Kind::LessEqual),
        (b'>', b'=') => Some(Kind::GreaterEqual),
        (b'&', b'&') => Some(Kind::AndAnd),
        (b'|', b'|') => Some(Kind::OrOr),
        (b'-', b'>') => Some(Kind::Arrow),
        _ => None,
    }
}
