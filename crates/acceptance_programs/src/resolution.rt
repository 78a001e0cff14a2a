//! What texts mean: numbers, printed names and findings.

use names::{NameFaults, resolve};
use program::{Contract, Resolved};
use source::{Finding, Place, compare, lex};
use std::alloc::Global;
use std::test::Fail;
use syntax::parse;

/// Resolves a text.
fn resolve_text(alloc: Global, text: &str) -> Result<Resolved, Fail> {
    let tokens = lex(alloc, text.as_bytes())?;
    let tree = parse(alloc, &tokens)?;
    Ok(resolve(alloc, &tree, text.as_bytes())?)
}

/// Returns the findings of a result; none if it is a program.
fn findings_in(alloc: Global, answer: Result<Resolved, NameFaults>) -> Result<Vec<Finding>, Fail> {
    match answer {
        Ok(_program) => Ok(Vec::new(alloc)),
        Err(faults) => match faults {
            NameFaults::Found(findings) => Ok(findings),
            NameFaults::Memory => Err(Fail::from("out of memory")),
        },
    }
}

/// Returns the findings about the names of a text, a line each, in the order of a report; nothing if it is resolved.
fn wrong(alloc: Global, text: &str) -> Result<String, Fail> {
    let tokens = lex(alloc, text.as_bytes())?;
    let tree = parse(alloc, &tokens)?;
    let mut findings = findings_in(alloc, resolve(alloc, &tree, text.as_bytes()))?;
    findings.sort_by(|a, b| compare(a, b))?;
    let mut lines = String::new(alloc);
    for finding in &findings {
        let Place { line, col } = finding.place;
        let code = finding.code.name();
        let said = finding.text.as_str();
        lines.push_str(&format!(in alloc; "{line}:{col} {code} {said}\n")?)?;
    }
    Ok(lines)
}

/// Writes a contract in lines: its name and first state, then its states, messages and edges, each with its number.
fn contract_lines(alloc: Global, contract: &Contract) -> Result<String, Fail> {
    let mut lines = format!(in alloc; "{} begins in {}\n", contract.name, contract.first.0)?;
    for state in &contract.states {
        let Place { line, col } = state.place;
        let name = String::from_utf8_lossy(alloc, contract.state_name(*state))?;
        lines.push_str(&format!(in alloc; "{line}:{col} state {} {name}\n", state.id.0)?)?;
    }
    for message in &contract.messages {
        let id = message.id.0;
        lines.push_str(&format!(in alloc;
            "message {id} {} {:?}\n",
            message.name, message.direction
        )?)?;
    }
    for edge in &contract.edges {
        let Place { line, col } = edge.place;
        let (from, message, to) = (edge.from.0, edge.message.0, edge.to.0);
        lines.push_str(&format!(in alloc;
            "{line}:{col} edge {from} -> {to}, message {message} {:?}\n",
            edge.sign
        )?)?;
    }
    Ok(lines)
}

/// Writes the contracts of a text, in lines.
fn all_contract_lines(alloc: Global, text: &str) -> Result<String, Fail> {
    let mut lines = String::new(alloc);
    for contract in &resolve_text(alloc, text)?.contracts {
        lines.push_str(&contract_lines(alloc, contract)?)?;
    }
    Ok(lines)
}

#[test]
fn request_and_reply(rt: HostRuntime) -> Result<(), Fail> {
    let text =
        "contract Ping { in message Req(); out message Rep(); state Start: Req? -> Pend; state Pend: Rep! -> Start; }";
    let wanted = "Ping begins in 0
1:60 state 0 Start
1:87 state 1 Pend
message 0 Req In
message 1 Rep Out
1:67 edge 0 -> 1, message 0 Receive
1:93 edge 1 -> 0, message 1 Send
";
    assert_eq!(rt; all_contract_lines(rt.alloc(), text)?.as_str(), wanted);
    Ok(())
}

#[test]
fn unnamed_state_on_a_path(rt: HostRuntime) -> Result<(), Fail> {
    let text =
        "contract C { out message A(); out message B(); in message K(); state S: A! -> B! -> T; state T: K? -> S; }";
    let wanted = "C begins in 0
1:70 state 0 S
1:79 state 1 (B)
1:94 state 2 T
message 0 A Out
message 1 B Out
message 2 K In
1:73 edge 0 -> 1, message 0 Send
1:79 edge 1 -> 2, message 1 Send
1:97 edge 2 -> 0, message 2 Receive
";
    assert_eq!(rt; all_contract_lines(rt.alloc(), text)?.as_str(), wanted);
    Ok(())
}

/// Numbers continue from contract to contract; a message may come after a state; equal names in two contracts are two
/// things; and the unnamed states of a state's second path come after those of its first.
#[test]
fn two_contracts(rt: HostRuntime) -> Result<(), Fail> {
    let text = "contract D {
out message A(); out message B();
state S: one { A! -> B! -> S; B! -> A! -> A! -> T; }
in message K();
state T: ;
}
contract E {
in message K();
state S: K? -> S;
}";
    let wanted = "D begins in 0
3:7 state 0 S
3:22 state 1 (B)
3:37 state 2 (A)
3:43 state 3 (A)
5:7 state 4 T
message 0 A Out
message 1 B Out
message 2 K In
3:16 edge 0 -> 1, message 0 Send
3:22 edge 1 -> 0, message 1 Send
3:31 edge 0 -> 2, message 1 Send
3:37 edge 2 -> 3, message 0 Send
3:43 edge 3 -> 4, message 0 Send
E begins in 5
9:7 state 5 S
message 3 K In
9:10 edge 5 -> 5, message 3 Receive
";
    assert_eq!(rt; all_contract_lines(rt.alloc(), text)?.as_str(), wanted);
    Ok(())
}

/// A struct and a class have no numbers.
#[test]
fn contracts_among_items(rt: HostRuntime) -> Result<(), Fail> {
    let text = "rep struct P { int x; }
contract D {
in message A(P* in ExHeap p);
state S: A? -> S;
}
class C { }
contract E {
out message A(E.Imp:S e);
state S: A! -> S;
}";
    let wanted = "D begins in 0
4:7 state 0 S
message 0 A In
4:10 edge 0 -> 0, message 0 Receive
E begins in 1
9:7 state 1 S
message 1 A Out
9:10 edge 1 -> 1, message 1 Send
";
    assert_eq!(rt; all_contract_lines(rt.alloc(), text)?.as_str(), wanted);
    Ok(())
}

/// Texts, and the findings about their names.
const FINDINGS: [(&str, &str); 14] = [
    ("", ""),
    (
        "contract S { in message S(int S, S.Imp:S x); in message T(int S); state S: S? -> S; }",
        "",
    ),
    (
        "contract A { in message M(B.Exp:T x, bool b, byte[] in ExHeap c); state S: ; } contract B { state T: ; }",
        "",
    ),
    (
        "contract C { in message M(); in message M(); state S: ; state S: ; }",
        "1:41 N01 M declared twice\n1:63 N01 S declared twice\n",
    ),
    (
        "contract C { in message M(X.Imp a, C.Exp:Z b); state S: M? -> N? -> Q; }",
        "1:27 N02 X unknown\n1:42 N02 Z unknown\n1:63 N02 N unknown\n1:69 N02 Q unknown\n",
    ),
    (
        "contract C { in message M(D* in ExHeap d); state S: ; }",
        "1:27 N02 D unknown\n",
    ),
    (
        "contract C { in message M(C* in ExHeap d); state S: ; }",
        "1:27 N02 C unknown\n",
    ),
    (
        "contract C { in message M(int p0, int p1, int p2, int p3, int p4, int p5, int p6, int p7); state S: ; }",
        "",
    ),
    (
        "contract C { in message M(int p0, int p1, int p2, int p3, int p4, int p5, int p6, int p7, int p8, int p9); state S: ; }",
        "1:95 N06 limit passed\n",
    ),
    (
        "contract C { in message M(int p0, int p1, int p2, int p3, int p4, int p5, int p6, int p7, int p0, int p1, int p2); state S: ; }",
        "1:95 N01 p0 declared twice\n1:95 N06 limit passed\n1:103 N01 p1 declared twice\n1:111 N01 p2 declared twice\n",
    ),
    (
        "contract A { state S: ; }\ncontract A { in message M(A.Imp:T x); state T: ; }",
        "2:10 N01 A declared twice\n2:33 N02 T unknown\n",
    ),
    (
        "contract C { in message M(); state S: one { M? -> M? -> M; N! -> S; }\nstate T: S? -> T; }",
        "1:57 N02 M unknown\n1:60 N02 N unknown\n2:10 N02 S unknown\n",
    ),
    (
        "rep struct A { int x; bool x; }\ncontract A { in message M(A* in ExHeap p, A.Imp e); state S: ; }",
        "1:28 N01 x declared twice\n2:10 N01 A declared twice\n2:43 N02 A unknown\n",
    ),
    (
        "rep struct D { int n; }\nrep struct S { D* in ExHeap d; int n; None* in ExHeap x; }\n\
        class K { static void F(S* in ExHeap s, D* in ExHeap d) { s.d = d; D* in ExHeap q = s.d; exchange(s.n, d); \
        exchange(s.d, s); s = new[ExHeap] S(d); } }",
        "2:39 N02 None unknown\n3:61 N03 wrong type\n3:85 N03 wrong type\n3:101 N03 wrong type\n3:104 N03 wrong type\n\
        3:122 N03 wrong type\n3:142 N04 wrong number of arguments\n",
    ),
];

#[test]
fn findings(rt: HostRuntime) -> Result<(), Fail> {
    for (text, wanted) in FINDINGS {
        assert_eq!(rt; wrong(rt.alloc(), text)?.as_str(), wanted, "in {text}");
    }
    Ok(())
}

#[test]
fn contracts_257(rt: HostRuntime) -> Result<(), Fail> {
    let alloc = rt.alloc();
    let mut text = String::new(alloc);
    for number in 0..256 {
        text.push_str(&format!(in alloc; "contract C{number} {{ state S: ; }}\n")?)?;
    }
    assert_eq!(rt; wrong(alloc, &text)?.as_str(), "");
    text.push_str("contract D { state S: ; }\ncontract E { state S: ; }")?;
    assert_eq!(rt; wrong(alloc, &text)?.as_str(), "257:10 N06 limit passed\n");
    Ok(())
}
