//! The cutting of a text, written down plainly: every beginning of the rest is tried, and the longest that is a piece
//! is taken. Small texts are cut both ways.

use source::{Kind, Place, Span, TextFault, Token, lex};
use std::alloc::Global;
use std::test::Fail;

const SYMBOLS: [(&[u8], Kind); 25] = [
    (b"{", Kind::OpenBrace),
    (b"}", Kind::CloseBrace),
    (b"(", Kind::OpenParen),
    (b")", Kind::CloseParen),
    (b"[", Kind::OpenBracket),
    (b"]", Kind::CloseBracket),
    (b";", Kind::Semicolon),
    (b":", Kind::Colon),
    (b",", Kind::Comma),
    (b".", Kind::Dot),
    (b"*", Kind::Star),
    (b"!", Kind::Bang),
    (b"?", Kind::Question),
    (b"=", Kind::Equal),
    (b"==", Kind::EqualEqual),
    (b"!=", Kind::NotEqual),
    (b"<", Kind::Less),
    (b"<=", Kind::LessEqual),
    (b">", Kind::Greater),
    (b">=", Kind::GreaterEqual),
    (b"+", Kind::Plus),
    (b"-", Kind::Minus),
    (b"&&", Kind::AndAnd),
    (b"||", Kind::OrOr),
    (b"->", Kind::Arrow),
];

/// The bytes of the small texts.
const ALPHABET: [u8; 12] = *b"in1/*\n =->(#";

fn is_comment(bytes: &[u8]) -> bool {
    if let Some(line) = bytes.strip_prefix(b"//") {
        return !line.contains(&b'\n');
    }
    let Some(block) = bytes.strip_prefix(b"/*") else {
        return false;
    };
    let first = block.windows(2).position(|pair| pair == b"*/".as_slice());
    first.is_some_and(|first| first.saturating_add(2) == block.len())
}

/// Returns the kind of these bytes, if they are one token as a whole.
fn token_kind(bytes: &[u8]) -> Option<Kind> {
    let first = bytes.first()?;
    if bytes.iter().all(|b| b.is_ascii_digit()) {
        return Some(Kind::Number);
    }
    if !first.is_ascii_digit()
        && bytes
            .iter()
            .all(|b| b.is_ascii_alphanumeric() || *b == b'_')
    {
        return Some(match bytes {
            b"if" => Kind::If,
            b"in" => Kind::In,
            _ => Kind::Name,
        });
    }
    SYMBOLS
        .iter()
        .find(|(text, _)| *text == bytes)
        .map(|(_, kind)| *kind)
}

fn is_blank(bytes: &[u8]) -> bool {
    matches!(bytes, b" " | b"\t" | b"\r" | b"\n")
}

/// Returns the length of the longest piece at the front, and its kind if it is a token.
fn longest(rest: &[u8]) -> Option<(usize, Option<Kind>)> {
    let mut longest = None;
    for len in 1..=rest.len() {
        let bytes = &rest[..len];
        if is_blank(bytes) || is_comment(bytes) {
            longest = Some((len, None));
        } else if let Some(kind) = token_kind(bytes) {
            longest = Some((len, Some(kind)));
        }
    }
    longest
}

/// Returns the place after these bytes.
fn place_behind(before: &[u8]) -> Place {
    let mut place = Place { line: 1, col: 1 };
    for b in before {
        if *b == b'\n' {
            place.line = place.line.saturating_add(1);
            place.col = 1;
        } else {
            place.col = place.col.saturating_add(1);
        }
    }
    place
}

/// Returns the tokens of a text of few bytes.
fn slow_lex(alloc: Global, text: &[u8]) -> Result<Vec<Token>, TextFault> {
    let mut list = Vec::new(alloc);
    let mut at = 0usize;
    for _ in 0..text.len() {
        let rest = text.get(at..).unwrap_or(&[]);
        if rest.is_empty() {
            break;
        }
        let place = place_behind(text.get(..at).unwrap_or(&[]));
        let Some((len, kind)) = longest(rest) else {
            return Err(if rest.starts_with(b"/*") {
                TextFault::OpenComment(place)
            } else {
                TextFault::Stray(place)
            });
        };
        let end = at.saturating_add(len);
        if let Some(kind) = kind {
            let start = u32::try_from(at).unwrap_or(0);
            let end = u32::try_from(end).unwrap_or(0);
            list.push(Token {
                kind,
                span: Span { start, end, place },
            })?;
        }
        at = end;
    }
    Ok(list)
}

#[test]
fn all_small_texts(rt: HostRuntime) -> Result<(), Fail> {
    let alloc = rt.alloc();
    for (len, count) in [(0, 1), (1, 12), (2, 144), (3, 1728), (4, 20736)] {
        for number in 0..count {
            let mut text = Vec::new(alloc);
            let mut left: usize = number;
            for _ in 0..len {
                text.push(ALPHABET[left % 12])?;
                left /= 12;
            }
            match (lex(alloc, &text), slow_lex(alloc, &text)) {
                (Ok(tokens), Ok(list)) => {
                    assert_eq!(rt; tokens.list.as_slice(), list.as_slice(), "in {text:?}");
                }
                (Err(fault), Err(expected)) => assert_eq!(rt; fault, expected, "in {text:?}"),
                (Ok(_), Err(_)) | (Err(_), Ok(_)) => assert!(rt; false, "in {text:?}"),
            }
        }
    }
    Ok(())
}
