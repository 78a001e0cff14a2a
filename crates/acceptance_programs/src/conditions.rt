//! Worked contracts, made by hand, and larger ones.

ghost use Rattle.std.specs.Prelude.{IfOk};
ghost use Rattle.contracts.specs.Parts.{IsWhole, contract_parts};

use contracts::{Sound, SoundFault, edges, faults, is_whole, two_ends};
use program::{
    Contract, ContractId, Direction, Edge, Message, MessageId, Part, Resolved, Side, Sign, State,
    StateId,
};
use source::{Code, Finding, Memory, Place};
use std::alloc::{AllocError, Global};
use std::process::Abort;
use std::test::Fail;

fn at(col: u32) -> Place {
    Place { line: 1, col }
}

fn empty(alloc: Global, first: u32) -> Contract {
    Contract {
        name: String::new(alloc),
        first: StateId(first),
        state_names: String::new(alloc),
        states: Vec::new(alloc),
        messages: Vec::new(alloc),
        edges: Vec::new(alloc),
    }
}

fn add_state(contract: &mut Contract, id: u32, name: &str, col: u32) -> Result<(), AllocError> {
    let start = contract.state_names.len();
    contract.state_names.push_str(name)?;
    contract.states.push(State {
        id: StateId(id),
        name: Part {
            start,
            end: contract.state_names.len(),
        },
        place: at(col),
    })?;
    Ok(())
}

fn add_message(
    alloc: Global,
    contract: &mut Contract,
    id: u32,
    name: &str,
    direction: Direction,
) -> Result<(), AllocError> {
    contract.messages.push(Message {
        id: MessageId(id),
        name: String::from_str(alloc, name)?,
        direction,
    })?;
    Ok(())
}

fn add_edge(
    contract: &mut Contract,
    from: u32,
    message: u32,
    sign: Sign,
    to: u32,
    col: u32,
) -> Result<(), AllocError> {
    contract.edges.push(Edge {
        from: StateId(from),
        message: MessageId(message),
        sign,
        to: StateId(to),
        place: at(col),
    })?;
    Ok(())
}

/// Returns the contract after asserting that it is whole.
pub(crate) fn whole(rt: &impl Abort, alloc: Global, contract: Contract) -> Result<Contract, Memory>
    ensures { IfOk result (λ contract. IsWhole (contract_parts contract)) }
{
    let whole = is_whole(alloc, &contract)?;
    assert!(rt; whole);
    Ok(contract)
}

/// `state Start: Req? -> Pend; state Pend: Rep! -> Start;`
pub(crate) fn ping(alloc: Global) -> Result<Contract, AllocError> {
    let mut ping = empty(alloc, 7);
    add_message(alloc, &mut ping, 3, "Req", Direction::In)?;
    add_message(alloc, &mut ping, 4, "Rep", Direction::Out)?;
    add_state(&mut ping, 7, "Start", 1)?;
    add_state(&mut ping, 8, "Pend", 2)?;
    add_edge(&mut ping, 7, 3, Sign::Receive, 8, 3)?;
    add_edge(&mut ping, 8, 4, Sign::Send, 7, 4)?;
    Ok(ping)
}

/// Returns whether the findings have exactly these codes, columns and texts, each once.
fn are(findings: &[Finding], wanted: &[(Code, u32, &str)]) -> bool {
    findings.len() == wanted.len()
        && wanted.iter().all(|want| {
            findings.iter().any(|finding| {
                finding.code == want.0
                    && finding.place.line == 1
                    && finding.place.col == want.1
                    && finding.text.as_str() == want.2
            })
        })
}

#[test]
fn ping_is_sound(rt: HostRuntime) -> Result<(), Fail> {
    let alloc = rt.alloc();
    let ping = whole(&rt, alloc, ping(alloc)?)?;
    assert!(rt; faults(alloc, &ping)?.is_empty());
    let sound = Sound::new(alloc, &ping)?;
    assert_eq!(rt; sound.bound(Side::Exp), 1);
    assert_eq!(rt; sound.bound(Side::Imp), 1);
    assert_eq!(rt; sound.next(StateId(7), MessageId(3)), Some(StateId(8)));
    assert_eq!(rt; sound.next(StateId(8), MessageId(4)), Some(StateId(7)));
    assert_eq!(rt; sound.next(StateId(7), MessageId(4)), None);
    assert_eq!(rt; sound.next(StateId(9), MessageId(3)), None);
    assert_eq!(rt; sound.first(), StateId(7));
    assert_eq!(rt; sound.edges(), ping.edges.as_slice());
    Ok(())
}

#[test]
fn a_missing_state_is_seen(rt: HostRuntime) -> Result<(), Fail> {
    let alloc = rt.alloc();
    let mut ping = ping(alloc)?;
    add_edge(&mut ping, 8, 4, Sign::Send, 6, 5)?;
    assert!(rt; !is_whole(alloc, &ping)?);
    two_ends();
    Ok(())
}

#[test]
fn parts_are_taken(rt: HostRuntime) -> Result<(), Fail> {
    let alloc = rt.alloc();
    let mut resolved = Resolved {
        contracts: Vec::new(alloc),
    };
    resolved.contracts.push(ping(alloc)?)?;
    assert!(rt; !resolved.contracts.is_empty());
    let taken = edges(&resolved, ContractId(0));
    assert_eq!(rt; taken.first, StateId(7));
    assert_eq!(rt; taken.states.len(), 2);
    assert_eq!(rt; taken.messages.len(), 2);
    assert_eq!(rt; taken.edges.len(), 2);
    Ok(())
}

/// `S: A! -> B! -> W; W: Ok? -> S`
#[test]
fn burst_holds_two(rt: HostRuntime) -> Result<(), Fail> {
    let alloc = rt.alloc();
    let mut burst = empty(alloc, 0);
    add_message(alloc, &mut burst, 0, "A", Direction::Out)?;
    add_message(alloc, &mut burst, 1, "B", Direction::Out)?;
    add_message(alloc, &mut burst, 2, "Ok", Direction::In)?;
    add_state(&mut burst, 0, "S", 1)?;
    add_state(&mut burst, 1, "(B)", 2)?;
    add_state(&mut burst, 2, "W", 3)?;
    add_edge(&mut burst, 0, 0, Sign::Send, 1, 4)?;
    add_edge(&mut burst, 1, 1, Sign::Send, 2, 2)?;
    add_edge(&mut burst, 2, 2, Sign::Receive, 0, 5)?;
    let sound = Sound::new(alloc, &whole(&rt, alloc, burst)?)?;
    assert_eq!(rt; sound.bound(Side::Exp), 1);
    assert_eq!(rt; sound.bound(Side::Imp), 2);
    Ok(())
}

/// `S: X? -> E; U: Y! -> Y! -> E; E: ;`: what can't be reached doesn't count.
#[test]
fn unreached_walks_do_not_count(rt: HostRuntime) -> Result<(), Fail> {
    let alloc = rt.alloc();
    let mut apart = empty(alloc, 0);
    add_message(alloc, &mut apart, 0, "X", Direction::In)?;
    add_message(alloc, &mut apart, 1, "Y", Direction::Out)?;
    add_state(&mut apart, 0, "S", 1)?;
    add_state(&mut apart, 1, "U", 2)?;
    add_state(&mut apart, 2, "(Y)", 3)?;
    add_state(&mut apart, 3, "E", 4)?;
    add_edge(&mut apart, 0, 0, Sign::Receive, 3, 5)?;
    add_edge(&mut apart, 1, 1, Sign::Send, 2, 6)?;
    add_edge(&mut apart, 2, 1, Sign::Send, 3, 3)?;
    let sound = Sound::new(alloc, &whole(&rt, alloc, apart)?)?;
    assert_eq!(rt; sound.bound(Side::Exp), 1);
    assert_eq!(rt; sound.bound(Side::Imp), 0);
    Ok(())
}

/// `S: ; U: A! -> A! -> U`: a ring that can't be reached counts, at each of its states.
#[test]
fn rings_are_found_at_each_state(rt: HostRuntime) -> Result<(), Fail> {
    let alloc = rt.alloc();
    let mut ring = empty(alloc, 0);
    add_message(alloc, &mut ring, 0, "A", Direction::Out)?;
    add_state(&mut ring, 0, "S", 1)?;
    add_state(&mut ring, 1, "U", 2)?;
    add_state(&mut ring, 2, "(A)", 3)?;
    add_edge(&mut ring, 1, 0, Sign::Send, 2, 4)?;
    add_edge(&mut ring, 2, 0, Sign::Send, 1, 3)?;
    let ring = whole(&rt, alloc, ring)?;
    let found = faults(alloc, &ring)?;
    let wanted = [
        (Code::C04, 2, "one direction round U"),
        (Code::C04, 3, "one direction round (A)"),
    ];
    assert!(rt; are(&found, &wanted));
    assert!(rt; matches!(&Sound::new(alloc, &ring), Err(SoundFault::Found)));
    Ok(())
}

/// `S: one { A! -> T; B? -> T; A! -> T } T: one {}`
#[test]
fn mixed_and_repeated(rt: HostRuntime) -> Result<(), Fail> {
    let alloc = rt.alloc();
    let mut mixed = empty(alloc, 0);
    add_message(alloc, &mut mixed, 0, "A", Direction::Out)?;
    add_message(alloc, &mut mixed, 1, "B", Direction::In)?;
    add_state(&mut mixed, 0, "S", 1)?;
    add_state(&mut mixed, 1, "T", 2)?;
    add_edge(&mut mixed, 0, 0, Sign::Send, 1, 3)?;
    add_edge(&mut mixed, 0, 1, Sign::Receive, 1, 4)?;
    add_edge(&mut mixed, 0, 0, Sign::Send, 1, 5)?;
    let found = faults(alloc, &whole(&rt, alloc, mixed)?)?;
    let wanted = [
        (Code::C02, 5, "A twice in a state"),
        (Code::C03, 1, "both directions in S"),
    ];
    assert!(rt; are(&found, &wanted));
    Ok(())
}

/// `in X; out Y; S: one { X! -> S; Y! -> S; }`: the sign that is written counts.
#[test]
fn signs_count_as_written(rt: HostRuntime) -> Result<(), Fail> {
    let alloc = rt.alloc();
    let mut against = empty(alloc, 0);
    add_message(alloc, &mut against, 0, "X", Direction::In)?;
    add_message(alloc, &mut against, 1, "Y", Direction::Out)?;
    add_state(&mut against, 0, "S", 53)?;
    add_edge(&mut against, 0, 0, Sign::Send, 0, 62)?;
    add_edge(&mut against, 0, 1, Sign::Send, 0, 71)?;
    let found = faults(alloc, &whole(&rt, alloc, against)?)?;
    let wanted = [
        (Code::C04, 53, "one direction round S"),
        (Code::C01, 62, "X against its direction"),
    ];
    assert!(rt; are(&found, &wanted));
    Ok(())
}

/// Returns a contract with one message, and edges from each state to the next. The last edge comes first.
fn contract_with_path(alloc: Global, count: u32) -> Result<Contract, AllocError> {
    let mut path = empty(alloc, 0);
    add_message(alloc, &mut path, 0, "M", Direction::Out)?;
    for i in 0..count {
        add_state(&mut path, i, "S", 1)?;
    }
    add_state(&mut path, count, "E", 1)?;
    for i in 0..count {
        add_edge(&mut path, count - i - 1, 0, Sign::Send, count - i, 2)?;
    }
    Ok(path)
}

#[test]
fn two_thousand_states_on_a_path(rt: HostRuntime) -> Result<(), Fail> {
    let alloc = rt.alloc();
    let sound = Sound::new(
        alloc,
        &whole(&rt, alloc, contract_with_path(alloc, 2_000)?)?,
    )?;
    assert_eq!(rt; sound.bound(Side::Imp), 2_000);
    assert_eq!(rt; sound.bound(Side::Exp), 0);
    Ok(())
}

#[test]
fn two_thousand_states_on_a_ring(rt: HostRuntime) -> Result<(), Fail> {
    let alloc = rt.alloc();
    let mut ring = contract_with_path(alloc, 2_000)?;
    add_edge(&mut ring, 2_000, 0, Sign::Send, 0, 2)?;
    let ring = whole(&rt, alloc, ring)?;
    assert_eq!(rt; faults(alloc, &ring)?.len(), 2_001);
    Ok(())
}

/// Each of sixty states leads to each later one, each time with a message of its own.
#[test]
fn a_complete_order(rt: HostRuntime) -> Result<(), Fail> {
    let alloc = rt.alloc();
    let mut order = empty(alloc, 0);
    for i in 0..60 {
        add_state(&mut order, i, "S", 1)?;
        add_message(alloc, &mut order, i, "M", Direction::In)?;
    }
    for from in 0..60 {
        for to in from..60 {
            if from < to {
                add_edge(&mut order, from, to, Sign::Receive, to, 2)?;
            }
        }
    }
    let sound = Sound::new(alloc, &whole(&rt, alloc, order)?)?;
    assert_eq!(rt; sound.bound(Side::Exp), 59);
    assert_eq!(rt; sound.next(StateId(5), MessageId(50)), Some(StateId(50)));
    Ok(())
}
