//! Codes and texts of findings, and their order.

use reports::in_report_order;
use source::{Finding, Memory, Place, TextFault, compare, finding_of, texts};
use std::alloc::Global;
use std::cmp::Ordering;
use std::test::Fail;

const PLACE: Place = Place { line: 3, col: 7 };

/// Returns a finding of each text.
fn all(alloc: Global) -> Result<Vec<Finding>, Memory> {
    let mut all = Vec::new(alloc);
    all.push(texts::stray_byte(alloc, PLACE)?)?;
    all.push(texts::comment_not_closed(alloc, PLACE)?)?;
    all.push(texts::text_too_long(alloc)?)?;
    all.push(texts::brackets_too_deep(alloc, PLACE)?)?;
    all.push(texts::unexpected_token(alloc, PLACE)?)?;
    all.push(texts::unexpected_end(alloc, PLACE)?)?;
    all.push(texts::number_too_large(alloc, PLACE)?)?;
    all.push(texts::declared_twice(alloc, PLACE, b"Ping")?)?;
    all.push(texts::unknown(alloc, PLACE, b"x\xff")?)?;
    all.push(texts::limit_passed(alloc, PLACE)?)?;
    all.push(texts::against_its_direction(alloc, PLACE, b"Rep")?)?;
    all.push(texts::twice_in_a_state(alloc, PLACE, b"Req")?)?;
    all.push(texts::both_directions_in(alloc, PLACE, b"Start")?)?;
    all.push(texts::one_direction_round(alloc, PLACE, b"Start")?)?;
    Ok(all)
}

#[test]
fn all_texts(rt: HostRuntime) -> Result<(), Fail> {
    let found = all(rt.alloc())?;
    let said = [
        ("S01", "stray byte"),
        ("S02", "comment not closed"),
        ("S03", "text too long"),
        ("S04", "brackets too deep"),
        ("S05", "unexpected token"),
        ("S05", "unexpected end"),
        ("S06", "number too large"),
        ("N01", "Ping declared twice"),
        ("N02", "x\u{fffd} unknown"),
        ("N06", "limit passed"),
        ("C01", "Rep against its direction"),
        ("C02", "Req twice in a state"),
        ("C03", "both directions in Start"),
        ("C04", "one direction round Start"),
    ];
    assert_eq!(rt; found.len(), said.len());
    for (finding, (code, text)) in found.iter().zip(&said) {
        assert_eq!(rt; finding.code.name(), *code);
        assert_eq!(rt; finding.text.as_str(), *text);
    }
    Ok(())
}

#[test]
fn names_as_printed(rt: HostRuntime) -> Result<(), Fail> {
    let mut text = String::from_str(rt.alloc(), "(")?;
    texts::push_name(rt.alloc(), &mut text, b"Ping")?;
    texts::push_name(rt.alloc(), &mut text, b"x\xff")?;
    assert_eq!(rt; text.as_str(), "(Pingx\u{fffd}");
    Ok(())
}

#[test]
fn findings_of_faults(rt: HostRuntime) -> Result<(), Fail> {
    let faults = [
        (TextFault::Stray(PLACE), "S01"),
        (TextFault::OpenComment(PLACE), "S02"),
        (TextFault::TooLong, "S03"),
        (TextFault::TooDeep(PLACE), "S04"),
        (TextFault::TooLarge(PLACE), "S06"),
    ];
    for (fault, code) in &faults {
        let finding = finding_of(rt.alloc(), *fault)?.ok_or("no finding")?;
        assert_eq!(rt; finding.code.name(), *code);
    }
    assert!(rt; finding_of(rt.alloc(), TextFault::Memory)?.is_none());
    Ok(())
}

#[test]
fn order_of_findings(rt: HostRuntime) -> Result<(), Fail> {
    let alloc = rt.alloc();
    let sorted = [
        texts::text_too_long(alloc)?,
        texts::unknown(alloc, Place { line: 2, col: 9 }, b"a")?,
        texts::one_direction_round(alloc, Place { line: 10, col: 1 }, b"S")?,
        texts::declared_twice(alloc, Place { line: 10, col: 1 }, b"a")?,
        texts::unknown(alloc, Place { line: 10, col: 1 }, b"a")?,
        texts::unknown(alloc, Place { line: 10, col: 1 }, b"aa")?,
        texts::unknown(alloc, Place { line: 10, col: 2 }, b"a")?,
    ];
    for (i, a) in sorted.iter().enumerate() {
        for (k, b) in sorted.iter().enumerate() {
            assert_eq!(rt; compare(a, b), i.cmp(&k));
        }
    }
    assert_eq!(rt; compare(&sorted[0], &sorted[0]), Ordering::Equal);
    Ok(())
}

#[test]
fn findings_listed_in_order_each_once(rt: HostRuntime) -> Result<(), Fail> {
    let alloc = rt.alloc();
    let mut found = Vec::new(alloc);
    found.push(texts::unknown(alloc, Place { line: 10, col: 1 }, b"b")?)?;
    found.push(texts::unknown(alloc, Place { line: 10, col: 1 }, b"a")?)?;
    found.push(texts::unknown(alloc, Place { line: 9, col: 2 }, b"b")?)?;
    found.push(texts::unknown(alloc, Place { line: 10, col: 1 }, b"b")?)?;
    let listed = in_report_order(found)?;
    let said = [(9, "b unknown"), (10, "a unknown"), (10, "b unknown")];
    assert_eq!(rt; listed.len(), said.len());
    for (finding, (line, text)) in listed.iter().zip(&said) {
        assert_eq!(rt; finding.place.line, *line);
        assert_eq!(rt; finding.text.as_str(), *text);
    }
    Ok(())
}
