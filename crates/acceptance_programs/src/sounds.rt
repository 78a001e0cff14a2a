//! What a step asks: of a contract, of the cases of a switch, of the methods of a program.

use crate::conditions::{ping, whole};
use contracts::{Judged, Sound};
use flow::{Cases, Entrance};
use lemmas::first_positions;
use program::{Awaited, Edge, Mention, MessageId, Side, StateId, VarId};
use source::{Memory, Place};
use std::alloc::Global;
use std::test::Fail;

const START: StateId = StateId(7);

const PEND: StateId = StateId(8);

const REQUEST: MessageId = MessageId(3);

const REPLY: MessageId = MessageId(4);

/// Returns whether this is the only edge, with this message to this state.
fn is_only(edges: &[Edge], message: MessageId, to: StateId) -> bool {
    match edges {
        [edge] => edge.message == message && edge.to == to,
        _ => false,
    }
}

#[test]
fn ends_of_ping(rt: HostRuntime) -> Result<(), Fail> {
    let alloc = rt.alloc();
    let ping = whole(&rt, alloc, ping(alloc)?)?;
    let Judged::Sound(sound) = Sound::judge(alloc, &ping)? else {
        return Err(Fail::from("ping is broken"));
    };
    assert_eq!(rt; sound.first(), START);
    assert!(rt; is_only(sound.edges_out(Side::Imp, START), REQUEST, PEND));
    assert!(rt; is_only(sound.edges_in(Side::Exp, START), REQUEST, PEND));
    assert!(rt; is_only(sound.edges_out(Side::Exp, PEND), REPLY, START));
    assert!(rt; is_only(sound.edges_in(Side::Imp, PEND), REPLY, START));
    assert!(rt; sound.edges_out(Side::Exp, START).is_empty());
    assert!(rt; sound.edges_in(Side::Imp, START).is_empty());
    assert_eq!(rt;
        sound.state_after_send(Side::Imp, START, REQUEST),
        Some(PEND)
    );
    assert_eq!(rt; sound.state_after_send(Side::Exp, START, REQUEST), None);
    assert_eq!(rt; sound.state_after_send(Side::Imp, PEND, REQUEST), None);
    assert!(rt; sound.message_name(REQUEST) == b"Req".as_slice());
    assert!(rt; sound.message_name(MessageId(9)).is_empty());
    Ok(())
}

/// Returns a case for what comes at that variable, named in that column.
fn case(alloc: Global, variable: usize, col: u32, message: Option<u32>, next: usize) -> Entrance {
    Entrance {
        endpoint: Mention {
            variable: VarId(variable),
            place: Place { line: 1, col },
        },
        awaited: match message {
            Some(number) => Awaited::Message(MessageId(number)),
            None => Awaited::Closed,
        },
        targets: Vec::new(alloc),
        next,
    }
}

/// Returns where a switch with these cases goes on.
fn goes_to(cases: &Cases, variable: usize, message: Option<u32>) -> Option<usize> {
    let number = message?;
    let found = cases.find(VarId(variable), Some(MessageId(number)))?;
    Some(found.next)
}

/// Returns cases for messages 7 and 0 at the first variable, with its close between them, and for the close of the second.
fn four_cases(alloc: Global) -> Result<Cases, Memory> {
    let mut list = Vec::new(alloc);
    list.push(case(alloc, 1, 10, Some(7), 41))?;
    list.push(case(alloc, 2, 20, None, 42))?;
    list.push(case(alloc, 1, 30, None, 43))?;
    list.push(case(alloc, 1, 40, Some(0), 44))?;
    Cases::new(alloc, list)
}

#[test]
fn cases_are_found(rt: HostRuntime) -> Result<(), Fail> {
    let cases = four_cases(rt.alloc())?;
    assert_eq!(rt; cases.list().len(), 4);
    assert_eq!(rt; goes_to(&cases, 1, Some(7)), Some(41));
    assert_eq!(rt; goes_to(&cases, 1, Some(0)), Some(44));
    assert_eq!(rt; goes_to(&cases, 2, Some(0)), None);
    assert_eq!(rt; cases.find(VarId(1), None).map(|case| case.next), Some(43));
    assert_eq!(rt; cases.find(VarId(2), None).map(|case| case.next), Some(42));
    assert!(rt; cases.find(VarId(3), None).is_none());
    match cases.endpoints() {
        [first, second] => {
            assert!(rt; first.variable == VarId(1) && first.place.col == 10);
            assert!(rt; second.variable == VarId(2) && second.place.col == 20);
        }
        _ => assert!(rt; false),
    }
    Ok(())
}

#[test]
fn keys_have_their_first_positions(rt: HostRuntime) -> Result<(), Fail> {
    let positions = first_positions(rt.alloc(), [5, 3, 5].as_slice())?;
    assert_eq!(rt; positions.get(&5).copied(), Some(0));
    assert_eq!(rt; positions.get(&3).copied(), Some(1));
    assert_eq!(rt; positions.get(&4).copied(), None);
    Ok(())
}
