//! Names looked up in tables.

use source::{Place, Span};
use std::hash::{BuildHasher, Hasher};
use std::test::Fail;
use tables::{ScopedNames, Seed, Table};

/// Returns the bytes of a text from `start` to `end`.
fn span(start: u32, end: u32) -> Span {
    let place = Place { line: 1, col: 1 };
    Span { start, end, place }
}

/// Returns the state of a hasher with the seed of this text, before it is fed a name.
fn start_of(text: &[u8]) -> u64 {
    Seed::of(text).build_hasher().finish()
}

#[test]
fn first_indices_of_names(rt: HostRuntime) -> Result<(), Fail> {
    let alloc = rt.alloc();
    let names = [span(0, 1), span(2, 4), span(5, 6)];
    let text = b"a bb a";
    let seed = Seed::of(text);
    let table = Table::of(alloc, seed, text, &names)?;
    assert_eq!(rt; table.find(b"a"), Some(0));
    assert_eq!(rt; table.find(b"bb"), Some(1));
    assert_eq!(rt; table.find(b"b"), None);
    assert!(rt; !table.is_apart());
    assert!(rt; Table::of(alloc, seed, text, &names[..2])?.is_apart());
    Ok(())
}

#[test]
fn repeated_names_keep_their_first_index(rt: HostRuntime) -> Result<(), Fail> {
    let text = b"a bb bb c";
    let names = [span(0, 1), span(2, 4), span(5, 7), span(8, 9)];
    let table = Table::of(rt.alloc(), Seed::of(text), text, &names)?;
    assert_eq!(rt; table.find(b"bb"), Some(1));
    assert_eq!(rt; table.find(b"c"), Some(3));
    assert!(rt; !table.is_apart());
    Ok(())
}

#[test]
fn names_enter_and_leave_a_scope(rt: HostRuntime) -> Result<(), Fail> {
    let mut names = ScopedNames::new(rt.alloc(), Seed::of(b"a bb c"));
    assert_eq!(rt; names.find(b"a"), None);
    names.add(b"a", 7)?;
    names.add(b"bb", 8)?;
    assert_eq!(rt; names.len(), 2);
    assert_eq!(rt; names.find(b"bb"), Some(8));
    names.leave(1);
    assert_eq!(rt; names.len(), 1);
    assert_eq!(rt; names.find(b"bb"), None);
    names.add(b"c", 9)?;
    assert_eq!(rt; names.find(b"c"), Some(9));
    assert_eq!(rt; names.find(b"a"), Some(7));
    Ok(())
}

#[test]
fn texts_differ_in_their_seeds(rt: HostRuntime) -> Result<(), Fail> {
    let seed = start_of(b"class K { } // ab");
    assert_eq!(rt; start_of(b"class K { } // ab"), seed);
    assert!(rt; start_of(b"class K { } // ac") != seed);
    assert!(rt; start_of(b"class L { } // ab") != seed);
    assert!(rt; start_of(b"class K { } // abc") != seed);
    assert!(rt; start_of(b"") != seed);
    Ok(())
}
