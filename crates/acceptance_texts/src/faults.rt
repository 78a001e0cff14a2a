//! The texts of the faults of a text.

use source::{Memory, Place, TextFault};
use std::test::Fail;
use syntax::SyntaxFault;

#[test]
fn a_fault_of_a_text_says_what_it_is(rt: HostRuntime) -> Result<(), Fail> {
    let place = Place { line: 1, col: 1 };
    let sequences = [
        (TextFault::Stray(place), "stray byte"),
        (TextFault::OpenComment(place), "comment not closed"),
        (TextFault::TooLong, "text too long"),
        (TextFault::TooDeep(place), "brackets too deep"),
        (TextFault::TooLarge(place), "number too large"),
        (TextFault::Memory, "out of memory"),
    ];
    for (fault, wanted) in sequences.iter() {
        let said = format!(in rt.alloc(); "{fault}")?;
        assert!(rt; said.as_str() == *wanted, "{wanted}");
    }
    Ok(())
}

#[test]
fn a_fault_of_tokens_says_what_it_is(rt: HostRuntime) -> Result<(), Fail> {
    let at = format!(in rt.alloc(); "{}", SyntaxFault::At(7))?;
    assert!(rt; at.as_str() == "no program goes on with token 7");
    let memory = format!(in rt.alloc(); "{}", SyntaxFault::Memory)?;
    assert!(rt; memory.as_str() == "out of memory");
    let alone = format!(in rt.alloc(); "{}", Memory)?;
    assert!(rt; alone.as_str() == "out of memory");
    Ok(())
}
