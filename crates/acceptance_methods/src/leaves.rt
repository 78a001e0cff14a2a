//! Rows, and spares kept to make more of them.

use program::VarId;
use rows::{Leaf, Row, Spare};
use std::alloc::Global;
use std::test::Fail;

const P: VarId = VarId(0);

const Q: VarId = VarId(1);

/// Returns a row of two variables. The second one has a block.
fn of_two(alloc: Global) -> Result<Row, Fail> {
    Ok(Row::from_leaves(vec![in alloc; Leaf::Nothing, Leaf::Block]?))
}

#[test]
fn a_leaf_is_something_or_nothing(rt: HostRuntime) -> Result<(), Fail> {
    assert!(rt; !Leaf::Nothing.is_something());
    assert!(rt; Leaf::Block.is_something());
    assert!(rt; Leaf::CutOff.is_something());
    assert!(rt; Leaf::State(0).is_something());
    Ok(())
}

#[test]
fn a_row_has_a_leaf_for_each_variable(rt: HostRuntime) -> Result<(), Fail> {
    let mut row = of_two(rt.alloc())?;
    assert!(rt; row.leaf(P) == Leaf::Nothing && !row.owns(P));
    assert!(rt; row.leaf(Q) == Leaf::Block && row.owns(Q));
    assert!(rt; row.leaf(VarId(2)) == Leaf::Nothing && !row.owns(VarId(2)));
    row.set(P, Leaf::CutOff);
    row.set(VarId(2), Leaf::Block);
    assert!(rt; row.leaves() == [Leaf::CutOff, Leaf::Block].as_slice());
    Ok(())
}

#[test]
fn a_copy_of_a_row_is_a_row_of_its_own(rt: HostRuntime) -> Result<(), Fail> {
    let row = of_two(rt.alloc())?;
    let mut copy = row.copy(rt.alloc())?;
    copy.set(Q, Leaf::Nothing);
    assert!(rt; !copy.owns(Q) && row.owns(Q));
    Ok(())
}

#[test]
fn what_is_spared_is_no_part_of_what_comes(rt: HostRuntime) -> Result<(), Fail> {
    let row = of_two(rt.alloc())?;
    let mut spare = Spare::new(rt.alloc());
    let mut pairs = spare.no_pairs();
    pairs.push((7, spare.copy_of(&row)?))?;
    assert!(rt; pairs.len() == 1);
    spare.take_back(pairs);
    assert!(rt; spare.no_pairs().is_empty());
    let copy = spare.copy_of(&row)?;
    assert!(rt; copy.leaves() == row.leaves());
    Ok(())
}
