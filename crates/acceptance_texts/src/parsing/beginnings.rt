//! Which tokens can begin a part of a program, against the slow reading of the grammar.

use super::WORDS;
use super::recogniser::{Rests, start, step};
use source::Kind;
use std::alloc::{AllocError, Global};
use std::test::Fail;
use syntax::{begins_expression, begins_statement, begins_value};

/// Returns what may come after these words.
fn behind(alloc: Global, front: &str) -> Result<Rests, AllocError> {
    let mut rests = start(alloc)?;
    for word in front.split_whitespace() {
        rests = step(alloc, rests, word)?;
    }
    Ok(rests)
}

/// Returns whether this word may come next.
fn goes_on(alloc: Global, rests: &Rests, word: &str) -> Result<bool, AllocError> {
    let after = step(alloc, rests.clone()?, word)?;
    Ok(!after.is_empty())
}

#[test]
fn parts_begin_as_in_the_grammar(rt: HostRuntime) -> Result<(), Fail> {
    let alloc = rt.alloc();
    let statement = behind(alloc, "class ID { static void ID ( ) {")?;
    let value = behind(alloc, "class ID { static void ID ( ) { ID =")?;
    let expression = behind(alloc, "class ID { static void ID ( ) { if (")?;
    for (word, kind) in WORDS {
        // A body may also end at once.
        let begins = begins_statement(kind) || kind == Kind::CloseBrace;
        assert_eq!(rt; goes_on(alloc, &statement, word)?, begins, "{word}");
        assert_eq!(rt; goes_on(alloc, &value, word)?, begins_value(kind), "{word}");
        assert_eq!(rt;
            goes_on(alloc, &expression, word)?,
            begins_expression(kind),
            "{word}"
        );
    }
    for kind in [Kind::True, Kind::False, Kind::Minus] {
        assert!(rt; begins_expression(kind) && begins_value(kind) && !begins_statement(kind));
    }
    Ok(())
}
