//! Programs with a contract: a step of a method that sends, and steps of one that waits.

use crate::texts::{ASKS, WAITS, with_one_contract};
use program::{ContractId, MessageId, MethodId, Side, StateId};
use rules::{Leaf, Onward, Outcome, Row, Spare, entry_pair, step, step_in_place};
use std::test::Fail;

#[test]
fn sends_by_the_contract(rt: HostRuntime) -> Result<(), Fail> {
    let program = with_one_contract(rt.alloc(), ASKS)?;
    let sound = program.sound(ContractId(0));
    assert_eq!(rt;
        sound.state_after_send(Side::Imp, sound.first(), MessageId(0)),
        Some(StateId(1))
    );
    let (point, row) = entry_pair(rt.alloc(), &program, MethodId(0))?;
    assert!(rt; point == 2);
    assert!(rt; row.leaves() == [Leaf::State(0)].as_slice());
    match step(rt.alloc(), &program, MethodId(0), point, &row)? {
        Outcome::Next(pairs) => match pairs.get(0) {
            Some((point, row)) => {
                assert!(rt; *point == 1);
                assert!(rt; row.leaves() == [Leaf::State(1)].as_slice());
            }
            None => assert!(rt; false),
        },
        Outcome::Found(_) => assert!(rt; false),
    }
    Ok(())
}

/// Returns whether these are two ways: one with the reply, after which the end is in its first state, and one with its close.
fn are_ways(ways: &[(usize, Row)]) -> bool {
    match (ways.get(0), ways.get(1)) {
        (Some((_, answered)), Some((_, closed))) => {
            ways.len() == 2
                && answered.leaves() == [Leaf::State(0)].as_slice()
                && closed.leaves() == [Leaf::CutOff].as_slice()
        }
        _ => false,
    }
}

#[test]
fn a_switch_goes_the_same_ways_with_rows_to_spare(rt: HostRuntime) -> Result<(), Fail> {
    let program = with_one_contract(rt.alloc(), WAITS)?;
    let (point, mut row) = entry_pair(rt.alloc(), &program, MethodId(0))?;
    let mut spare = Spare::new(rt.alloc());
    for _ in 0..2 {
        let onward = step_in_place(&program, MethodId(0), point, &mut row, &mut spare)?;
        match onward {
            Onward::Ways(ways) => {
                assert!(rt; are_ways(&ways));
                spare.take_back(ways);
            }
            _ => assert!(rt; false),
        }
    }
    assert!(rt; row.leaves() == [Leaf::State(1)].as_slice());
    Ok(())
}
