//! The nearest of some names, and the names that a method declares before a place.

use nearest::{names_before, nearest};
use source::{Place, Span, lex};
use std::alloc::Global;
use std::test::Fail;
use syntax::parse;
use tree::{Definition, Method, Tree};

/// Returns the bytes of a text from `start` to `end`.
fn span(start: u32, end: u32) -> Span {
    let place = Place { line: 1, col: 1 };
    Span { start, end, place }
}

#[test]
fn words_and_names(rt: HostRuntime) -> Result<(), Fail> {
    let text = b"count counts total a";
    let names = [span(0, 5), span(6, 12), span(13, 18), span(19, 20)];
    assert!(rt; nearest(text, b"count", &names) == Some(span(0, 5)));
    assert!(rt; nearest(text, b"coutn", &names) == Some(span(0, 5)));
    assert!(rt; nearest(text, b"countss", &names) == Some(span(6, 12)));
    assert!(rt; nearest(text, b"totl", &names) == Some(span(13, 18)));
    assert!(rt; nearest(text, b"tale", &names) == None);
    // One letter more is near; one letter exchanged is not, if the word has no other letter.
    assert!(rt; nearest(text, b"ab", &names) == Some(span(19, 20)));
    assert!(rt; nearest(text, b"b", &names) == None);
    assert!(rt; nearest(text, b"", &names) == None);
    Ok(())
}

/// Returns the first method of the first class in a tree.
fn first_method(tree: &Tree) -> Result<&Method, Fail> {
    for item in &tree.items {
        if let Definition::Class(class) = &item.definition {
            return match class.methods.first() {
                Some(method) => Ok(method),
                None => Err(Fail::from("no method")),
            };
        }
    }
    Err(Fail::from("no class"))
}

/// Returns the names that the first method of a text declares before a place in the blocks around it.
fn before(alloc: Global, text: &str, line: u32, col: u32) -> Result<String, Fail> {
    let tokens = lex(alloc, text.as_bytes())?;
    let tree = parse(alloc, &tokens)?;
    let mut words = String::new(alloc);
    for name in &names_before(alloc, first_method(&tree)?, Place { line, col })? {
        words.push_str(&String::from_utf8_lossy(alloc, name.slice(text.as_bytes()))?)?;
        words.push_str(" ")?;
    }
    Ok(words)
}

#[test]
fn names_in_blocks(rt: HostRuntime) -> Result<(), Fail> {
    let text = "class K { static void F(int a, int b) {
int c = 0;
{ int d; }
if (true) { int e; } else { int f; }
while (true) { int g; } } }";
    let alloc = rt.alloc();
    assert_eq!(rt; before(alloc, text, 1, 30)?.as_str(), "a ");
    assert_eq!(rt; before(alloc, text, 2, 9)?.as_str(), "a b c ");
    assert_eq!(rt; before(alloc, text, 3, 9)?.as_str(), "a b c d ");
    assert_eq!(rt; before(alloc, text, 4, 1)?.as_str(), "a b c ");
    assert_eq!(rt; before(alloc, text, 4, 19)?.as_str(), "a b c e ");
    assert_eq!(rt; before(alloc, text, 4, 35)?.as_str(), "a b c f ");
    assert_eq!(rt; before(alloc, text, 5, 22)?.as_str(), "a b c g ");
    Ok(())
}

#[test]
fn names_in_cases(rt: HostRuntime) -> Result<(), Fail> {
    let text = "class K { static void F() {
switch receive {
case e.M(x, int y): int z;
case e.N(w): int v;
}
} }";
    let alloc = rt.alloc();
    assert_eq!(rt; before(alloc, text, 3, 12)?.as_str(), "x ");
    assert_eq!(rt; before(alloc, text, 3, 30)?.as_str(), "x y z ");
    assert_eq!(rt; before(alloc, text, 4, 12)?.as_str(), "w ");
    assert_eq!(rt; before(alloc, text, 4, 30)?.as_str(), "w v ");
    assert_eq!(rt; before(alloc, text, 6, 1)?.as_str(), "");
    Ok(())
}
