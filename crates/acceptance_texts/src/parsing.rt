//! The parser against a slow reading of the grammar.

mod beginnings;
mod expressions;
mod recogniser;

use recogniser::{Rests, start, step};
use source::{Kind, Place, Span, Token, Tokens};
use std::alloc::{AllocError, Global};
use std::test::Fail;
use syntax::{SyntaxFault, parse};

/// The words of the grammar.
const WORDS: [(&str, Kind); 55] = [
    ("ID", Kind::Name),
    ("contract", Kind::Contract),
    ("message", Kind::Message),
    ("state", Kind::State),
    ("one", Kind::One),
    ("in", Kind::In),
    ("out", Kind::Out),
    ("int", Kind::Int),
    ("bool", Kind::Bool),
    ("byte", Kind::Byte),
    ("ExHeap", Kind::ExHeap),
    ("Imp", Kind::Imp),
    ("Exp", Kind::Exp),
    ("public", Kind::Public),
    ("private", Kind::Private),
    ("internal", Kind::Internal),
    ("{", Kind::OpenBrace),
    ("}", Kind::CloseBrace),
    ("(", Kind::OpenParen),
    (")", Kind::CloseParen),
    ("[", Kind::OpenBracket),
    ("]", Kind::CloseBracket),
    (";", Kind::Semicolon),
    (":", Kind::Colon),
    (",", Kind::Comma),
    (".", Kind::Dot),
    ("*", Kind::Star),
    ("!", Kind::Bang),
    ("?", Kind::Question),
    ("->", Kind::Arrow),
    ("=", Kind::Equal),
    ("class", Kind::Class),
    ("7", Kind::Number),
    ("while", Kind::While),
    ("rep", Kind::Rep),
    ("struct", Kind::Struct),
    ("static", Kind::Static),
    ("void", Kind::Void),
    ("Claims", Kind::Claims),
    ("start", Kind::Start),
    ("delete", Kind::Delete),
    ("exchange", Kind::Exchange),
    ("NewChannel", Kind::NewChannel),
    ("if", Kind::If),
    ("else", Kind::Else),
    ("break", Kind::Break),
    ("continue", Kind::Continue),
    ("return", Kind::Return),
    ("switch", Kind::Switch),
    ("receive", Kind::Receive),
    ("case", Kind::Case),
    ("ChannelClosed", Kind::ChannelClosed),
    ("new", Kind::New),
    ("+", Kind::Plus),
    ("==", Kind::EqualEqual),
];

const TEXTS: [&str; 4] = [
    "contract ID { in message ID ( ) ; out message ID ( ) ; state ID : ID ? -> ID ; state ID : ID ! -> ID ; }",
    "public contract ID { state ID : one { ID ! -> ID ; ID ! -> ID ? -> ID ; } ; state ID : one { } out message ID ( ) ; state ID : ; }",
    "private contract ID { state ID : ; } contract ID { out message ID ( int ID , bool ID , byte ID ) ; state ID : ; } \
        internal contract ID { state ID : one { } }",
    "contract ID { in message ID ( int [ ] in ExHeap ID , byte [ ] ! in ExHeap ID , ID * in ExHeap ID , ID * ! in ExHeap ID , \
        ID . Imp ID , ID . Exp : ID ! in ExHeap ID , ID . Imp in ExHeap ID , ID . Exp : ID ID , ID . Imp ! ID ) ; state ID : ; }",
];

/// Returns the kind of a word.
fn kind_of(word: &str) -> Kind {
    for (name, kind) in WORDS.iter() {
        if *name == word {
            return *kind;
        }
    }
    Kind::While
}

/// Returns the tokens of these words.
fn tokens_of(alloc: Global, words: &[&str]) -> Result<Tokens, AllocError> {
    let place = Place { line: 1, col: 1 };
    let mut list = Vec::new(alloc);
    for word in words {
        let span = Span {
            start: 0,
            end: 0,
            place,
        };
        list.push(Token {
            kind: kind_of(word),
            span,
        })?;
    }
    Ok(Tokens { list, end: place })
}

/// Returns the number of the first word with which no text goes on, by a slow reading. At the end of the text it is
/// the number of words, and for a program there is none. The words before `from` have led to `rests`.
fn first_wrong(
    alloc: Global,
    mut rests: Rests,
    words: &[&str],
    from: usize,
) -> Result<Option<usize>, AllocError> {
    for (number, word) in words.iter().enumerate() {
        if number >= from {
            rests = step(alloc, rests, word)?;
            if rests.is_empty() {
                return Ok(Some(number));
            }
        }
    }
    rests = step(alloc, rests, "END")?;
    Ok(if rests.is_empty() {
        Some(words.len())
    } else {
        None
    })
}

/// Returns whether the parser finds this first wrong token, or none, in these tokens.
fn answers(alloc: Global, tokens: &Tokens, wanted: Option<usize>) -> bool {
    match parse(alloc, tokens) {
        Ok(_) => wanted.is_none(),
        Err(SyntaxFault::At(number)) => wanted == Some(number),
        Err(SyntaxFault::Memory) => false,
    }
}

#[test]
fn every_beginning_of_a_text(rt: HostRuntime) -> Result<(), Fail> {
    for text in TEXTS {
        let words: Vec<&str> = text.split_whitespace().collect(rt.alloc())?;
        for count in 0..words.len() + 1 {
            let beginning = words.get(..count).unwrap_or(&[]);
            let wanted = first_wrong(rt.alloc(), start(rt.alloc())?, beginning, 0)?;
            let tokens = tokens_of(rt.alloc(), beginning)?;
            assert!(rt;
                answers(rt.alloc(), &tokens, wanted),
                "the first {count} words of {text}"
            );
        }
    }
    Ok(())
}

#[test]
fn every_word_at_every_index(rt: HostRuntime) -> Result<(), Fail> {
    for text in TEXTS {
        let mut words: Vec<&str> = text.split_whitespace().collect(rt.alloc())?;
        let mut rests = start(rt.alloc())?;
        for number in 0..words.len() {
            let word = words.get(number).copied().unwrap_or("");
            for (other, _) in WORDS {
                if let Some(slot) = words.get_mut(number) {
                    *slot = other;
                }
                let wanted = first_wrong(rt.alloc(), rests.clone()?, &words, number)?;
                let tokens = tokens_of(rt.alloc(), &words)?;
                assert!(rt;
                    answers(rt.alloc(), &tokens, wanted),
                    "{other} as word {number} of {text}"
                );
            }
            if let Some(slot) = words.get_mut(number) {
                *slot = word;
            }
            rests = step(rt.alloc(), rests, word)?;
        }
    }
    Ok(())
}

/// Returns whether the parser agrees with the slow reading on each beginning of this text.
fn agrees(alloc: Global, text: &str) -> Result<bool, AllocError> {
    let words: Vec<&str> = text.split_whitespace().collect(alloc)?;
    let mut same = true;
    for count in 0..words.len() + 1 {
        let beginning = words.get(..count).unwrap_or(&[]);
        let wanted = first_wrong(alloc, start(alloc)?, beginning, 0)?;
        let tokens = tokens_of(alloc, beginning)?;
        same = same && answers(alloc, &tokens, wanted);
    }
    Ok(same)
}

#[test]
fn every_form_of_a_program(rt: HostRuntime) -> Result<(), Fail> {
    for text in [
        "rep struct ID { int ID ; public bool ID ; }",
        "rep struct ID { ID * in ExHeap ID ; private byte [ ] ! in ExHeap ID ; ID . Imp : ID ID ; internal ID . Exp ! in ExHeap ID ; }",
        "class ID { static void ID ( ) { exchange ( ID . ID , ID ) ; ID = new [ ExHeap ] ID ( ID , 7 + ID . ID ) ; } }",
        "public class ID { static void ID ( ) { } private static ID * in ExHeap ID ( [ Claims ] ID * in ExHeap ID , int ID ) { \
            return ID ; } }",
        "class ID { static void ID ( ) { { } int ID ; byte [ ] in ExHeap ID = new [ ExHeap ] byte [ 7 ] ; ID * in ExHeap ID = ID ( ) ; \
            ID . Imp : ID ID ; } }",
        "class ID { static int ID ( ) { ID = 7 + ID . ID ; ID . ID = ( ID ) ; ID [ 7 ] = ! ID * 7 ; ID ( ID , 7 ) ; ID . ID ( ) ; \
            return ; return 7 == ID [ ID ] ; } }",
        "class ID { static void ID ( ) { start ID ( ) ; start ID . ID ( 7 ) ; delete ID ; ID . NewChannel ( out ID , out ID ) ; \
            ID = new [ ExHeap ] ID ( ) ; } }",
        "class ID { static void ID ( ) { if ( ID ) { break ; } else if ( 7 ) { } else { continue ; } if ( ID ) { } while ( ID ) { } } }",
        "class ID { static void ID ( ) { switch receive { case ID . ID ( ID , int ID , ID * in ExHeap ID ) : ID ( ) ; \
            case ID . ChannelClosed ( ) : } } }",
    ] {
        assert!(rt; agrees(rt.alloc(), text)?, "{text}");
    }
    Ok(())
}

#[test]
fn first_wrong_tokens(rt: HostRuntime) -> Result<(), Fail> {
    for (text, wanted) in [
        // Two dots in a row, a call within an expression, and no target before `=`.
        ("class ID { static void ID ( ) { ID . ID . ID = 7 ; } }", 12),
        ("class ID { static void ID ( ) { ID = 7 + ID ( ) ; } }", 14),
        ("class ID { static void ID ( ) { ID ( ) = 7 ; } }", 12),
        // A body without braces, and `else` after a statement that is no `if`.
        (
            "class ID { static void ID ( ) { while ( ID ) ID = 7 ; } }",
            13,
        ),
        (
            "class ID { static void ID ( ) { if ( ID ) { } ID = 7 ; else { } } }",
            19,
        ),
        // No case in a switch, a trailing comma, and a rest after the last brace.
        ("class ID { static void ID ( ) { switch receive { } } }", 12),
        ("class ID { static void ID ( int ID , ) { } }", 10),
        ("class ID { static void ID ( ) { ID ( ID , ) ; } }", 13),
        ("class ID { } }", 4),
        // A field of no type, one whose type goes on after its end, and a method that is not static.
        ("rep struct ID { void ID ; }", 4),
        ("rep struct ID { ID . Imp : ID * in ExHeap ID ; }", 9),
        ("class ID { public void ID ( ) { } }", 4),
        ("class ID { static void ID ( [ Claims ] ) { } }", 10),
        ("class ID { static void ID ( ) { return }", 10),
        ("class ID { static void ID ( ) {", 9),
    ] {
        let words: Vec<&str> = text.split_whitespace().collect(rt.alloc())?;
        let tokens = tokens_of(rt.alloc(), &words)?;
        assert!(rt; answers(rt.alloc(), &tokens, Some(wanted)), "{text}");
    }
    Ok(())
}

#[test]
fn first_wrong_tokens_of_exchanges(rt: HostRuntime) -> Result<(), Fail> {
    for (text, wanted) in [
        // An exchange without its field, one with two, its word as a name, and a trailing comma in a `new`.
        (
            "class ID { static void ID ( ) { exchange ( ID , ID ) ; } }",
            12,
        ),
        (
            "class ID { static void ID ( ) { exchange ( ID . ID , ID . ID ) ; } }",
            16,
        ),
        ("class ID { static void exchange ( ) { } }", 5),
        (
            "class ID { static void ID ( ) { ID = new [ ExHeap ] ID ( ID , ) ; } }",
            19,
        ),
    ] {
        let words: Vec<&str> = text.split_whitespace().collect(rt.alloc())?;
        let tokens = tokens_of(rt.alloc(), &words)?;
        assert!(rt; answers(rt.alloc(), &tokens, Some(wanted)), "{text}");
    }
    Ok(())
}
