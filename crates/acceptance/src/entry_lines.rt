//! What is written about an entry that is none, with the entries of the text, on devices and memory that fail too.

use crate::failing_devices::{Card, Page};
use singcheck::{Counted, RunFault, run_entries};
use std::alloc::Global;
use std::test::Fail;

/// Three methods with which a run may begin, one with a parameter and one with a result.
const FIVE_METHODS: &str = "class K {
static void Main() { }
static void Take(int n) { }
static int Give() { return 1; }
static void Other() { }
}
contract A { state S: ; }
class L { static void Main() { } }";

const ENTRIES: &str = "entry: K.Main\nentry: K.Other\nentry: L.Main\n";

const OF_TAKE: &str = "K.Take has parameters or a result, so no run begins with it
entry: K.Main\nentry: K.Other\nentry: L.Main\n";

const OF_GIVE: &str = "K.Give has parameters or a result, so no run begins with it
entry: K.Main\nentry: K.Other\nentry: L.Main\n";

/// Returns what is written about this entry of a text.
fn lines_about(alloc: Global, text: &str, entry: &str) -> Result<Vec<u8>, Fail> {
    let mut reader = Counted::new(text.as_bytes());
    let mut writer = Counted::new(Vec::new(alloc));
    run_entries(alloc, &mut reader, entry.as_bytes(), &mut writer)?;
    Ok(writer.device)
}

#[test]
fn lists_the_entries(rt: HostRuntime) -> Result<(), Fail> {
    let rows = [
        ("K.None", ENTRIES),
        ("Main", ENTRIES),
        ("k.Take", ENTRIES),
        ("K.Take", OF_TAKE),
        ("K.Give", OF_GIVE),
    ];
    for (entry, lines) in rows.iter() {
        let given = lines_about(rt.alloc(), FIVE_METHODS, entry)?;
        assert!(rt; given.as_slice() == lines.as_bytes(), "{entry}");
    }
    Ok(())
}

/// A text without methods has no entries, and one that is no program has no lines.
#[test]
fn lists_nothing(rt: HostRuntime) -> Result<(), Fail> {
    let alloc = rt.alloc();
    assert!(rt; lines_about(alloc, "", "K.Main")?.is_empty());
    assert!(rt; lines_about(alloc, "rep struct K { int n; }", "K.n")?.is_empty());
    assert!(rt; lines_about(alloc, "class K { static void Main() { }", "K.None")?.is_empty());
    Ok(())
}

/// Runs with each allocation refused in turn. After a refusal, the list may be missing.
#[test]
fn lists_the_entries_or_wants_memory(rt: HostRuntime) {
    let mut reader = Counted::new(FIVE_METHODS.as_bytes());
    let mut writer = Card::new();
    match run_entries(rt.alloc(), &mut reader, b"K.Take".as_slice(), &mut writer) {
        Ok(()) => {
            let lines = writer.bytes();
            assert!(rt; lines.is_empty() || lines == OF_TAKE.as_bytes());
        }
        Err(fault) => {
            assert!(rt; fault == RunFault::Memory);
            assert!(rt; writer.bytes().is_empty());
        }
    }
}

#[test]
fn a_page_that_fails_has_a_beginning_of_the_list(rt: HostRuntime) -> Result<(), Fail> {
    let entry = b"K.Take".as_slice();
    for failing in 1..100 {
        let mut reader = Counted::new(FIVE_METHODS.as_bytes());
        let mut writer = Page::new(rt.alloc(), 3, failing);
        match run_entries(rt.alloc(), &mut reader, entry, &mut writer) {
            Err(RunFault::Write) => assert!(rt; OF_TAKE.as_bytes().starts_with(&writer.bytes)),
            Err(RunFault::Memory) => return Err(Fail::from("out of memory")),
            Err(_) => assert!(rt; false),
            Ok(()) => {
                assert!(rt; failing > 30);
                assert!(rt; writer.bytes.as_slice() == OF_TAKE.as_bytes());
                return Ok(());
            }
        }
    }
    assert!(rt; false);
    Ok(())
}
