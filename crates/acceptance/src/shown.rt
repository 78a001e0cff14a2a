//! What is expected at a wrong token, and the edges that show what is wrong with a contract.

use contract_traces::show_faults;
use expected::{expectation, expected_kinds, open_brace, word_of};
use explanations::Explained;
use names::resolve;
use source::{Code, Finding, Kind, Place, Span, lex};
use std::alloc::Global;
use std::test::Fail;
use syntax::parse;

#[test]
fn kinds_behind_a_front(rt: HostRuntime) -> Result<(), Fail> {
    let alloc = rt.alloc();
    let tokens = lex(alloc, b"contract C {")?;
    let count = tokens.list.len();
    let at = Span {
        start: 12,
        end: 13,
        place: Place { line: 1, col: 13 },
    };
    let kinds = expected_kinds(alloc, &tokens, count, at)?;
    let said = expectation(alloc, &kinds)?;
    assert_eq!(rt; said.as_str(), "expected in, out or state");
    let brace = Span {
        start: 11,
        end: 12,
        place: Place { line: 1, col: 12 },
    };
    assert!(rt; open_brace(&tokens, count) == Some(brace));
    assert!(rt; open_brace(&tokens, 0) == None);
    assert_eq!(rt; word_of(Kind::Name), "a name");
    assert_eq!(rt; word_of(Kind::Semicolon), ";");
    Ok(())
}

/// Returns a finding in its line, followed by the lines that show it.
fn lines_of(alloc: Global, explained: &Explained) -> Result<String, Fail> {
    let Place { line, col } = explained.finding.place;
    let mut lines = format!(in alloc; "{line}:{col}\n")?;
    for shown in &explained.lines {
        let Place { line, col } = shown.place;
        let text = String::from_utf8_lossy(alloc, &shown.text)?;
        lines.push_str(&format!(in alloc; "  {line}:{col} {text}\n")?)?;
    }
    Ok(lines)
}

/// Returns what is shown of a finding with this code at this place, in each of a text's contracts.
fn lines_for(
    alloc: Global,
    text: &str,
    code: Code,
    place: Place,
    named: Option<Place>,
) -> Result<String, Fail> {
    let tokens = lex(alloc, text.as_bytes())?;
    let tree = parse(alloc, &tokens)?;
    let resolved = resolve(alloc, &tree, text.as_bytes())?;
    let mut lines = String::new(alloc);
    for contract in &resolved.contracts {
        let mut found = Vec::new(alloc);
        let text = String::from_str(alloc, "found")?;
        found.push(Finding { place, code, text })?;
        for explained in &show_faults(alloc, contract, found, named)? {
            lines.push_str(&lines_of(alloc, explained)?)?;
        }
    }
    Ok(lines)
}

#[test]
fn edges_of_both_signs(rt: HostRuntime) -> Result<(), Fail> {
    let text = "contract M { out message A(); in message B();
state S: one { A! -> T; B? -> T; } state T: one { } }";
    let place = Place { line: 2, col: 7 };
    let other = Place { line: 1, col: 1 };
    let all = "2:7\n  2:16 A! -> T\n  2:25 B? -> T\n";
    assert_eq!(rt;
        lines_for(rt.alloc(), text, Code::C03, place, None)?.as_str(),
        all
    );
    assert_eq!(rt;
        lines_for(rt.alloc(), text, Code::C03, place, Some(place))?.as_str(),
        all
    );
    assert_eq!(rt;
        lines_for(rt.alloc(), text, Code::C03, place, Some(other))?.as_str(),
        "2:7\n"
    );
    Ok(())
}

#[test]
fn a_sign_an_earlier_edge_and_a_ring(rt: HostRuntime) -> Result<(), Fail> {
    let text = "contract M { out message A();
state S: one { A? -> S; A! -> S; } }";
    let rows = [
        (
            Code::C01,
            16,
            "2:16\n  2:16 an out message is followed by !\n",
        ),
        (Code::C02, 25, "2:25\n  2:16 A? -> S\n"),
        (Code::C04, 7, "2:7\n  2:25 A! -> S\n"),
        (Code::C02, 16, "2:16\n"),
        (Code::A01, 16, "2:16\n"),
    ];
    for (code, col, wanted) in rows.iter() {
        let place = Place { line: 2, col: *col };
        let lines = lines_for(rt.alloc(), text, *code, place, None)?;
        assert!(rt; lines.as_str() == *wanted, "{wanted}");
    }
    Ok(())
}
