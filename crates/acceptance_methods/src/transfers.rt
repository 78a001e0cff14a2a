//! Transfers, a step in place, and the numbers of leaves.

use crate::texts::{FREED_AND_READ, only};
use intern::{code_of, leaf_at};
use program::{MethodId, VarId};
use rules::{
    Leaf, Onward, Outcome, Row, Spare, Transfer, entry_pair, step, step_in_place, transfer_at,
};
use source::{Code, Place};
use std::alloc::Global;
use std::test::Fail;

const P: VarId = VarId(0);

const Q: VarId = VarId(1);

const MOVE: Transfer = Transfer::Move {
    target: Q,
    source: P,
};

#[test]
fn each_transfer_stands_at_its_point(rt: HostRuntime) -> Result<(), Fail> {
    let program = only(rt.alloc(), FREED_AND_READ)?;
    let method = MethodId(0);
    assert!(rt; transfer_at(&program, method, 3) == Some((MOVE, 2)));
    assert!(rt; transfer_at(&program, method, 2) == Some((Transfer::Delete(Q), 1)));
    assert!(rt; transfer_at(&program, method, 1) == Some((Transfer::Use(Q), 0)));
    assert!(rt; transfer_at(&program, method, 0).is_none());
    Ok(())
}

/// Returns whether a row of two allows a transfer, and has these leaves after it.
fn becomes(
    alloc: Global,
    first: [Leaf; 2],
    transfer: Transfer,
    after: [Leaf; 2],
) -> Result<bool, Fail> {
    let Some(mut row) = Row::of(Vec::from_slice(alloc, first.as_slice())?) else {
        return Err(Fail::from("no row"));
    };
    let allowed = transfer.allows(&row);
    transfer.apply(&mut row);
    Ok(allowed && row.leaves() == after.as_slice())
}

#[test]
fn a_transfer_changes_its_variables(rt: HostRuntime) -> Result<(), Fail> {
    let alloc = rt.alloc();
    let (none, block, end) = (Leaf::Nothing, Leaf::Block, Leaf::CutOff);
    assert!(rt; becomes(alloc, [end, none], MOVE, [none, end])?);
    assert!(rt; becomes(alloc, [none, block], Transfer::Use(Q), [none, block])?);
    assert!(rt; becomes(alloc, [none, block], Transfer::Delete(Q), [none, none])?);
    assert!(rt; becomes(alloc, [none, end], Transfer::New(P), [block, end])?);
    Ok(())
}

#[test]
fn a_transfer_is_not_allowed_to_all_rows(rt: HostRuntime) -> Result<(), Fail> {
    let Some(row) = Row::of(Vec::from_slice(rt.alloc(), [Leaf::Block, Leaf::Nothing].as_slice())?)
    else {
        return Err(Fail::from("no row"));
    };
    assert!(rt; MOVE.allows(&row));
    assert!(rt; !Transfer::Use(Q).allows(&row));
    assert!(rt; !Transfer::Delete(Q).allows(&row));
    assert!(rt; !Transfer::New(P).allows(&row));
    Ok(())
}

#[test]
fn a_step_in_place_changes_its_row(rt: HostRuntime) -> Result<(), Fail> {
    let program = only(rt.alloc(), FREED_AND_READ)?;
    let (point, mut row) = entry_pair(rt.alloc(), &program, MethodId(0))?;
    let mut spare = Spare::new(rt.alloc());
    match step_in_place(&program, MethodId(0), point, &mut row, &mut spare)? {
        Onward::Changed(behind) => assert!(rt; behind == 2),
        _ => assert!(rt; false),
    }
    assert!(rt; row.leaves() == [Leaf::Nothing, Leaf::Block].as_slice());
    Ok(())
}

#[test]
fn a_breach_has_a_finding(rt: HostRuntime) -> Result<(), Fail> {
    let program = only(rt.alloc(), FREED_AND_READ)?;
    let leaves = [Leaf::Nothing, Leaf::Nothing];
    let Some(row) = Row::of(Vec::from_slice(rt.alloc(), leaves.as_slice())?) else {
        return Err(Fail::from("no row"));
    };
    match step(rt.alloc(), &program, MethodId(0), 1, &row)? {
        Outcome::Found(breach) => {
            let finding = program.finding(rt.alloc(), MethodId(0), breach)?;
            assert!(rt; finding.place == Place { line: 3, col: 22 });
            assert!(rt; finding.code == Code::A01);
            assert!(rt; finding.text.as_str() == "q not owned");
        }
        Outcome::Next(_) => assert!(rt; false),
    }
    Ok(())
}

#[test]
fn a_leaf_has_a_number(rt: HostRuntime) -> Result<(), Fail> {
    assert!(rt; code_of(Leaf::Nothing) == 0 && leaf_at(0) == Leaf::Nothing);
    assert!(rt; code_of(Leaf::Block) == 1 && leaf_at(1) == Leaf::Block);
    assert!(rt; code_of(Leaf::CutOff) == 2 && leaf_at(2) == Leaf::CutOff);
    assert!(rt; code_of(Leaf::State(7)) == 10 && leaf_at(10) == Leaf::State(7));
    Ok(())
}
