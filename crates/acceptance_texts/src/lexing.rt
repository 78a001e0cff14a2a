//! Worked examples of the tokens of the language, and of what a report prints.

mod findings;
mod slow;

use source::laws::each_kind_is_listed;
use source::{ALL_KINDS, Kind, MAX_TEXT, Place, TextFault, lex, text_of};
use std::alloc::Global;
use std::test::Fail;

fn at(line: u32, col: u32) -> Place {
    Place { line, col }
}

/// Returns the kinds of a text's tokens.
fn kinds(alloc: Global, text: &[u8]) -> Result<Vec<Kind>, Fail> {
    let tokens = lex(alloc, text)?;
    let kinds = tokens.list.iter().map(|token| token.kind).collect(alloc)?;
    Ok(kinds)
}

/// Returns the fault of a text; none if it has tokens.
fn fault(alloc: Global, text: &[u8]) -> Option<TextFault> {
    lex(alloc, text).err()
}

#[test]
fn first_faults(rt: HostRuntime) {
    let alloc = rt.alloc();
    let faults: [(&[u8], TextFault); 15] = [
        (b"/* a", TextFault::OpenComment(at(1, 1))),
        (b"/*/", TextFault::OpenComment(at(1, 1))),
        (b"a /* /* */ /*", TextFault::OpenComment(at(1, 12))),
        (b"2147483648", TextFault::TooLarge(at(1, 1))),
        (b"00000000002147483648", TextFault::TooLarge(at(1, 1))),
        (b"99999999999999999999999", TextFault::TooLarge(at(1, 1))),
        (b"\xef\xbb", TextFault::Stray(at(1, 1))),
        (b"\xef\xbb\xbf\xef\xbb\xbf", TextFault::Stray(at(1, 1))),
        (b"class K { /", TextFault::Stray(at(1, 11))),
        (b"a\n b & c", TextFault::Stray(at(2, 4))),
        (b"a | b", TextFault::Stray(at(1, 3))),
        (b"a &&& b", TextFault::Stray(at(1, 5))),
        (b"\xef\xbb\xbf\n\t#", TextFault::Stray(at(2, 2))),
        (b"a # 2147483648", TextFault::Stray(at(1, 3))),
        (b"2147483648 #", TextFault::TooLarge(at(1, 1))),
    ];
    for (text, expected) in &faults {
        assert_eq!(rt; fault(alloc, text), Some(*expected), "in {text:?}");
    }
}

#[test]
fn no_faults(rt: HostRuntime) {
    let alloc = rt.alloc();
    let texts: [&[u8]; 8] = [
        b"",
        b"\xef\xbb\xbf",
        b"2147483647",
        b"00000000000000000002147483647",
        b"/*/ */",
        b"/***/ /**/",
        b"// \xff /*",
        b"/* \xff // */",
    ];
    for text in &texts {
        assert_eq!(rt; fault(alloc, text), None, "in {text:?}");
    }
}

#[test]
fn brackets_101_deep(rt: HostRuntime) -> Result<(), Fail> {
    let alloc = rt.alloc();
    let mut text = vec![in alloc; b'('; 100]?;
    assert_eq!(rt; fault(alloc, &text), None);
    text.push(b'[')?;
    assert_eq!(rt; fault(alloc, &text), Some(TextFault::TooDeep(at(1, 101))));
    let mut text = vec![in alloc; b'}'; 5]?;
    text.extend_from_slice(&[b'{'; 101])?;
    assert_eq!(rt; fault(alloc, &text), Some(TextFault::TooDeep(at(1, 106))));
    text.truncate(105);
    text.extend_from_slice(b"](")?;
    assert_eq!(rt; fault(alloc, &text), None);
    Ok(())
}

#[test]
fn longest_text(rt: HostRuntime) -> Result<(), Fail> {
    let alloc = rt.alloc();
    let mut text = vec![in alloc; b' '; MAX_TEXT]?;
    assert_eq!(rt; lex(alloc, &text)?.end, at(1, 4_194_305));
    text.push(b'#')?;
    assert_eq!(rt; fault(alloc, &text), Some(TextFault::TooLong));
    Ok(())
}

#[test]
fn places_and_spans(rt: HostRuntime) -> Result<(), Fail> {
    let alloc = rt.alloc();
    let whole = b"\xef\xbb\xbfa\n  12ab//x\r\n/* y\n*/ -> ";
    let tokens = lex(alloc, whole)?;
    let found = [
        (Kind::Name, at(1, 1), 3, "a"),
        (Kind::Number, at(2, 3), 7, "12"),
        (Kind::Name, at(2, 5), 9, "ab"),
        (Kind::Arrow, at(4, 4), 24, "->"),
    ];
    assert_eq!(rt; tokens.list.len(), found.len());
    for (token, (kind, place, start, text)) in tokens.list.iter().zip(&found) {
        assert_eq!(rt; token.kind, *kind);
        assert_eq!(rt; token.span.place, *place);
        assert_eq!(rt; token.span.start, *start);
        assert_eq!(rt; token.span.slice(whole), text.as_bytes());
    }
    assert_eq!(rt; tokens.end, at(4, 7));
    assert_eq!(rt; lex(alloc, b"class K {\n")?.end, at(2, 1));
    Ok(())
}

#[test]
fn reserved_words(rt: HostRuntime) -> Result<(), Fail> {
    let text =
        b"bool break byte case class ChannelClosed Claims continue contract delete else exchange Exp ExHeap \
        false if Imp in int internal message new NewChannel one out private public receive rep return start \
        state static struct switch true void while";
    let words = kinds(rt.alloc(), text)?;
    // After names and numbers, the list of all kinds has the reserved words in order of the alphabet.
    assert_eq!(rt; words.as_slice(), &ALL_KINDS[2..40]);
    let text =
        b"Bool breaks channelClosed exheap In i iff _in internall Case rece NewChannels exchanged Exchange";
    let names = kinds(rt.alloc(), text)?;
    assert_eq!(rt; names.as_slice(), [Kind::Name; 14].as_slice());
    Ok(())
}

#[test]
fn kinds_as_they_are_written(rt: HostRuntime) -> Result<(), Fail> {
    each_kind_is_listed();
    assert_eq!(rt; text_of(Kind::Name), "");
    assert_eq!(rt; text_of(Kind::Number), "");
    assert_eq!(rt; text_of(Kind::ChannelClosed), "ChannelClosed");
    assert_eq!(rt; text_of(Kind::Void), "void");
    assert_eq!(rt; text_of(Kind::Arrow), "->");
    for kind in &ALL_KINDS {
        if !matches!(kind, Kind::Name | Kind::Number) {
            let read = kinds(rt.alloc(), text_of(*kind).as_bytes())?;
            assert_eq!(rt; read.as_slice(), [*kind].as_slice());
        }
    }
    Ok(())
}

#[test]
fn all_symbols(rt: HostRuntime) -> Result<(), Fail> {
    let found = kinds(rt.alloc(), b"{}()[];:,.*!?= == !=<<=>>=+-&&||->-->===!==")?;
    let symbols = [
        Kind::OpenBrace,
        Kind::CloseBrace,
        Kind::OpenParen,
        Kind::CloseParen,
        Kind::OpenBracket,
        Kind::CloseBracket,
        Kind::Semicolon,
        Kind::Colon,
        Kind::Comma,
        Kind::Dot,
        Kind::Star,
        Kind::Bang,
        Kind::Question,
        Kind::Equal,
        Kind::EqualEqual,
        Kind::NotEqual,
        Kind::Less,
        Kind::LessEqual,
        Kind::Greater,
        Kind::GreaterEqual,
        Kind::Plus,
        Kind::Minus,
        Kind::AndAnd,
        Kind::OrOr,
        Kind::Arrow,
        Kind::Minus,
        Kind::Arrow,
        Kind::EqualEqual,
        Kind::Equal,
        Kind::NotEqual,
        Kind::Equal,
    ];
    assert_eq!(rt; found.as_slice(), symbols.as_slice());
    Ok(())
}
